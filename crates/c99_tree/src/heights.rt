// Whether an expression is low enough.
ghost use Rattle.std.specs.Prelude.{◌≡◌, map, nat_le};
ghost use Rattle.c99_tree.specs.Tree.{tree, exprs};
ghost use Rattle.c99_tree.specs.Spelling.{height, highest};

use crate::expr::CExpr;

/// The most that an expression or a constant may be high.
pub const MOST_HEIGHT: u32 = 8192;

/// Whether the expression is at most this high. It looks no deeper.
#[cycle(lowness)]
#[tactic(auto, using(crate::specs::TreeLaws::tree_laws))]
pub fn is_low(e: &CExpr, most: u32) -> bool
    ensures { result ≡ nat_le (height (tree e.now)) most }
{
    let Some(less) = most.checked_sub(1) else {
        return is_leaf(e);
    };
    match e {
        CExpr::Lit(_, _)
        | CExpr::True
        | CExpr::False
        | CExpr::Copy(_)
        | CExpr::Head(_)
        | CExpr::Cell(_) => true,
        CExpr::RingAt(_, a) | CExpr::Un(_, a) | CExpr::Cast(_, a) | CExpr::Field(a, _) => {
            is_low(a.get(), less)
        }
        CExpr::Bin(_, a, b) | CExpr::Pick(_, _, a, b) => {
            is_low(a.get(), less) && is_low(b.get(), less)
        }
        CExpr::Cond(c, a, b) => {
            is_low(c.get(), less) && is_low(a.get(), less) && is_low(b.get(), less)
        }
        CExpr::Arr(_, _, all) | CExpr::Rec(_, all) => are_low(all.as_slice(), less),
    }
}

#[cycle(lowness)]
#[tactic(auto, using(crate::specs::TreeLaws::tree_laws))]
fn are_low(all: &[CExpr], most: u32) -> bool
    ensures { result ≡ nat_le (highest (exprs (map tree all.now))) most }
{
    for e in all {
        if !is_low(e, most) {
            return false;
        }
    }
    true
}

#[tactic(auto, using(crate::specs::TreeLaws::tree_laws))]
fn is_leaf(e: &CExpr) -> bool
    ensures { result ≡ nat_le (height (tree e.now)) 0 }
{
    match e {
        CExpr::Lit(_, _)
        | CExpr::True
        | CExpr::False
        | CExpr::Copy(_)
        | CExpr::Head(_)
        | CExpr::Cell(_) => true,
        CExpr::RingAt(_, _)
        | CExpr::Un(_, _)
        | CExpr::Cast(_, _)
        | CExpr::Field(_, _)
        | CExpr::Bin(_, _, _)
        | CExpr::Pick(_, _, _, _)
        | CExpr::Cond(_, _, _)
        | CExpr::Arr(_, _, _)
        | CExpr::Rec(_, _) => false,
    }
}
