// What is asked of each part of an expression.
ghost use Rattle.std.specs.Prelude.{◌≡◌, map};
ghost use Rattle.std.specs.List.{list_all};
ghost use Rattle.c99_tree.specs.Tree.{tree, exprs};
ghost use Rattle.c99_tree.specs.Checks.{is_sound_part};
ghost use Rattle.c99_tree.specs.Spelling as spelling;
ghost use Rattle.c99_tree.specs.WellFormed.{parts_of, parts_of_all, has_index, has_no_index};

use c99_tree::{
    CExpr, CLit, Unit, has_array, has_struct, is_element, is_ring_name, ring_of, var_of,
};
use sm_io::{Name, is_name};

fn most(k: CLit) -> u64
    ensures { result ≡ spelling.most k }
{
    match k {
        CLit::I => 2147483647,
        CLit::U => 4294967295,
        CLit::LL => 9223372036854775807,
        CLit::ULL => 18446744073709551615,
    }
}

// Whether a ring of this name has an index.
pub fn has_index(unit: &Unit, r: &Name) -> bool
    ensures { result ≡ has_index unit.now r.now }
{
    match ring_of(unit, r) {
        Some(ring) => ring.indexed,
        None => false,
    }
}

// Whether a ring of this name has none.
pub fn has_no_index(unit: &Unit, r: &Name) -> bool
    ensures { result ≡ has_no_index unit.now r.now }
{
    match ring_of(unit, r) {
        Some(ring) => !ring.indexed,
        None => false,
    }
}

// One part by itself.
#[tactic(auto, using(c99_tree::specs::TreeLaws::tree_laws))]
fn is_sound_part(unit: &Unit, e: &CExpr) -> bool
    ensures { result ≡ is_sound_part unit.now (tree e.now) }
{
    let types = unit.types.as_slice();
    match e {
        CExpr::Lit(k, n) => *n <= most(*k),
        CExpr::Copy(x) => is_name(x.bytes()) && var_of(unit.externs.as_slice(), x).is_some(),
        CExpr::Head(r) => is_ring_name(r) && has_index(unit, r),
        CExpr::RingAt(r, _) => is_ring_name(r) && has_index(unit, r),
        CExpr::Cell(r) => is_ring_name(r) && has_no_index(unit, r),
        CExpr::Field(_, x) => is_name(x.bytes()),
        CExpr::Pick(x, n, _, _) => is_element(x) && has_array(types, x, *n),
        CExpr::Arr(x, n, _) => is_element(x) && has_array(types, x, *n),
        CExpr::Rec(x, _) => is_name(x.bytes()) && has_struct(types, x),
        CExpr::True
        | CExpr::False
        | CExpr::Un(_, _)
        | CExpr::Bin(_, _, _)
        | CExpr::Cond(_, _, _)
        | CExpr::Cast(_, _) => true,
    }
}

// Each part of an expression.
#[cycle(parting)]
#[tactic(auto, using(c99_tree::specs::TreeLaws::tree_laws, crate::proofs::Parting::parting_laws))]
pub fn are_sound_parts(unit: &Unit, e: &CExpr) -> bool
    ensures { result ≡ list_all (is_sound_part unit.now) (parts_of (tree e.now)) }
{
    if !is_sound_part(unit, e) {
        return false;
    }
    match e {
        CExpr::Lit(_, _)
        | CExpr::True
        | CExpr::False
        | CExpr::Copy(_)
        | CExpr::Head(_)
        | CExpr::Cell(_) => true,
        CExpr::RingAt(_, a) | CExpr::Un(_, a) | CExpr::Cast(_, a) | CExpr::Field(a, _) => {
            are_sound_parts(unit, a.get())
        }
        CExpr::Bin(_, a, b) | CExpr::Pick(_, _, a, b) => {
            are_sound_parts(unit, a.get()) && are_sound_parts(unit, b.get())
        }
        CExpr::Cond(c, a, b) => {
            are_sound_parts(unit, c.get())
                && are_sound_parts(unit, a.get())
                && are_sound_parts(unit, b.get())
        }
        CExpr::Arr(_, _, all) | CExpr::Rec(_, all) => are_sound_parts_of(unit, all.as_slice()),
    }
}

#[cycle(parting)]
#[tactic(auto, using(c99_tree::specs::TreeLaws::tree_laws, crate::proofs::Parting::parting_laws))]
fn are_sound_parts_of(unit: &Unit, all: &[CExpr]) -> bool
    ensures { result ≡ list_all (is_sound_part unit.now) (parts_of_all (exprs (map tree all.now))) }
{
    for e in all {
        if !are_sound_parts(unit, e) {
            return false;
        }
    }
    true
}
