// What is asked of a statement by those before it.
ghost use Rattle.std.specs.Prelude.{◌≡◌, map, []};
ghost use Rattle.std.specs.List.{list_all, list_any, filter_map, flat_map};
ghost use Rattle.c99_tree.specs.Words as words;
ghost use Rattle.c99_tree.specs.Tree.{tree, exprs, statement};
ghost use Rattle.c99_tree.specs.WellFormed as spec;

use c99_tree::{CExpr, CStmt, is_same};
use sm_io::Name;

fn is_copied(before: &[CStmt], x: &Name) -> bool
    ensures { result ≡ list_any (spec.is_copy_of x.now) (map statement before.now) }
{
    for s in before {
        if let CStmt::Copy { name } = s {
            if is_same(x, name) {
                return true;
            }
        }
    }
    false
}

fn has_next(before: &[CStmt], r: &Name) -> bool
    ensures { result ≡ list_any (spec.is_next_of r.now) (map statement before.now) }
{
    for s in before {
        if let CStmt::Next { ring, value: _ } = s {
            if is_same(r, ring) {
                return true;
            }
        }
    }
    false
}

// Each copy in an expression was made before.
#[cycle(reading)]
#[tactic(auto, using(c99_tree::specs::TreeLaws::tree_laws, crate::proofs::Parting::parting_laws))]
fn reads_copied(before: &[CStmt], e: &CExpr) -> bool
    ensures { result ≡ list_all (spec.is_read_after_copy (map statement before.now)) (spec.parts_of (tree e.now)) }
{
    match e {
        CExpr::Copy(x) => is_copied(before, x),
        CExpr::Lit(_, _) | CExpr::True | CExpr::False | CExpr::Head(_) | CExpr::Cell(_) => true,
        CExpr::RingAt(_, a) | CExpr::Un(_, a) | CExpr::Cast(_, a) | CExpr::Field(a, _) => {
            reads_copied(before, a.get())
        }
        CExpr::Bin(_, a, b) | CExpr::Pick(_, _, a, b) => {
            reads_copied(before, a.get()) && reads_copied(before, b.get())
        }
        CExpr::Cond(c, a, b) => {
            reads_copied(before, c.get())
                && reads_copied(before, a.get())
                && reads_copied(before, b.get())
        }
        CExpr::Arr(_, _, all) | CExpr::Rec(_, all) => read_copied(before, all.as_slice()),
    }
}

#[cycle(reading)]
#[tactic(auto, using(c99_tree::specs::TreeLaws::tree_laws, crate::proofs::Parting::parting_laws))]
fn read_copied(before: &[CStmt], all: &[CExpr]) -> bool
    ensures { result ≡ list_all (spec.is_read_after_copy (map statement before.now)) (spec.parts_of_all (exprs (map tree all.now))) }
{
    for e in all {
        if !reads_copied(before, e) {
            return false;
        }
    }
    true
}

// The copies that a statement reads were made before.
#[tactic(auto, using(crate::proofs::Parting::parting_laws))]
fn is_after_copies(before: &[CStmt], s: &CStmt) -> bool
    ensures { result ≡ list_all (spec.is_read_after_copy (map statement before.now)) (spec.parts_in (statement s.now)) }
{
    match s {
        CStmt::Copy { name: _ } => true,
        CStmt::Call {
            handler: _,
            guard,
            args,
        } => reads_copied(before, guard) && are_read_after(before, args.as_slice()),
        CStmt::Next { ring: _, value } => reads_copied(before, value),
        CStmt::Store { ring: _, at } => reads_copied(before, at),
        CStmt::Move { ring: _, value } => reads_copied(before, value),
        CStmt::Put { ring: _ } => true,
    }
}

#[tactic(auto, using(crate::proofs::Parting::parting_laws))]
fn are_read_after(before: &[CStmt], all: &[CExpr]) -> bool
    ensures { result ≡ list_all (spec.is_read_after_copy (map statement before.now)) (flat_map spec.parts_of (spec.list_of (exprs (map tree all.now)))) }
{
    for e in all {
        if !reads_copied(before, e) {
            return false;
        }
    }
    true
}

pub fn copies_come_first(step: &[CStmt]) -> bool
    ensures { result ≡ spec.each_after (λ before s. list_all (spec.is_read_after_copy before) (spec.parts_in s)) [] (map statement step.now) }
{
    for (i, s) in step.iter().enumerate() {
        if !is_after_copies(&step[..i], s) {
            return false;
        }
    }
    true
}

fn is_written_after_next(before: &[CStmt], s: &CStmt) -> bool
    ensures { result ≡ spec.is_written_after_next (map statement before.now) (statement s.now) }
{
    match s {
        CStmt::Store { ring, at: _ } => has_next(before, ring),
        CStmt::Put { ring } => has_next(before, ring),
        CStmt::Copy { name: _ } => true,
        CStmt::Call {
            handler: _,
            guard: _,
            args: _,
        } => true,
        CStmt::Next { ring: _, value: _ } => true,
        CStmt::Move { ring: _, value: _ } => true,
    }
}

pub fn nexts_come_first(step: &[CStmt]) -> bool
    ensures { result ≡ spec.each_after spec.is_written_after_next [] (map statement step.now) }
{
    for (i, s) in step.iter().enumerate() {
        if !is_written_after_next(&step[..i], s) {
            return false;
        }
    }
    true
}

fn is_next_again(rest: &[CStmt], r: &Name) -> bool
    ensures { result ≡ list_any (words.is_same r.now) (filter_map spec.next_of (map statement rest.now)) }
{
    for s in rest {
        if let CStmt::Next { ring, value: _ } = s {
            if is_same(r, ring) {
                return true;
            }
        }
    }
    false
}

pub fn are_distinct_nexts(step: &[CStmt]) -> bool
    ensures { result ≡ spec.are_distinct words.is_same (filter_map spec.next_of (map statement step.now)) }
{
    let mut left = step;
    while let [s, rest @ ..] = left {
        if let CStmt::Next { ring, value: _ } = s {
            if is_next_again(rest, ring) {
                return false;
            }
        }
        left = rest;
    }
    true
}
