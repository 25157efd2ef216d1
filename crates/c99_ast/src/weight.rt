// How many operators one call of a program's step can meet.
ghost use Rattle.std.specs.Prelude.{◌≡◌, ◌+◌, ◌≤◌, map};
ghost use Rattle.c99_ast.specs.Bound.{up_to_bound};
ghost use Rattle.c99_tree.specs.Tree.{tree, exprs, statement};
ghost use Rattle.c99_tree.specs.Weight.{weight, weights, statement_weight, unit_weight_of};

use crate::totals::sum;
use c99_tree::{CExpr, CStmt, Unit};

/// The number of operators in the unit's step, each counted once, all arms of each choice included: the most that one
/// call of it can meet. 4,294,967,296 where it is more.
pub fn unit_weight(unit: &Unit) -> u64
    ensures { result ≡ up_to_bound (unit_weight_of unit.now) }
{
    let mut total = 0;
    for s in unit.step.as_slice() {
        total = sum(total, statement_weight(s));
    }
    total
}

fn statement_weight(s: &CStmt) -> u64
    ensures { result ≡ up_to_bound (statement_weight (statement s.now)) }
{
    match s {
        CStmt::Copy { name: _ } | CStmt::Put { ring: _ } => 0,
        CStmt::Call {
            handler: _,
            guard,
            args,
        } => sum(weight(guard), weights(args.as_slice())),
        CStmt::Next { ring: _, value } | CStmt::Move { ring: _, value } => weight(value),
        CStmt::Store { ring: _, at } => sum(1, weight(at)),
    }
}

#[cycle(weighing)]
#[tactic(auto, using(c99_tree::specs::TreeLaws::tree_laws))]
fn weight(e: &CExpr) -> u64
    ensures { result ≡ up_to_bound (weight (tree e.now)) }
{
    match e {
        CExpr::Lit(_, _)
        | CExpr::True
        | CExpr::False
        | CExpr::Copy(_)
        | CExpr::Head(_)
        | CExpr::Cell(_) => 0,
        CExpr::RingAt(_, a) | CExpr::Un(_, a) | CExpr::Cast(_, a) | CExpr::Field(a, _) => {
            sum(1, weight(a.get()))
        }
        CExpr::Bin(_, a, b) => sum(1, sum(weight(a.get()), weight(b.get()))),
        CExpr::Pick(_, _, a, i) => sum(2, sum(weight(a.get()), weight(i.get()))),
        CExpr::Cond(c, a, b) => {
            sum(
                1,
                sum(weight(c.get()), sum(weight(a.get()), weight(b.get()))),
            )
        }
        CExpr::Arr(_, _, all) | CExpr::Rec(_, all) => sum(1, weights(all.as_slice())),
    }
}

#[cycle(weighing)]
#[tactic(auto, using(c99_tree::specs::TreeLaws::tree_laws))]
fn weights(all: &[CExpr]) -> u64
    ensures { result ≡ up_to_bound (weights (exprs (map tree all.now))) }
{
    let mut total = 0;
    for e in all {
        total = sum(total, weight(e));
    }
    total
}
