// Whether the rings of one value that have an index are used as of old.
ghost use Rattle.std.specs.Prelude.{◌≡◌, map};
ghost use Rattle.std.specs.List.{list_all};
ghost use Rattle.c99_tree.specs.Tree.{tree, exprs, statement};
ghost use Rattle.migration.specs.Migration as spec;

use c99_tree::{CBin, CExpr, CLit, CRing, CStmt, Unit, is_same, ring_of};
use sm_io::Name;

/// Whether the ring is one value with an index.
pub(crate) fn is_old(r: &CRing) -> bool
    ensures { result ≡ spec.is_old r.now }
{
    r.indexed && r.len == 1
}

/// Whether the ring of this name is one value with an index.
pub(crate) fn names_old(unit: &Unit, r: &Name) -> bool
    ensures { result ≡ spec.names_old unit.now r.now }
{
    match ring_of(unit, r) {
        Some(ring) => is_old(ring),
        None => false,
    }
}

fn has_suffix_u(k: CLit) -> bool
    ensures { result ≡ spec.has_suffix_u k }
{
    match k {
        CLit::U => true,
        CLit::I => false,
        CLit::LL => false,
        CLit::ULL => false,
    }
}

fn is_plus(op: CBin) -> bool
    ensures { result ≡ spec.is_plus op }
{
    match op {
        CBin::Add => true,
        _ => false,
    }
}

fn is_remainder(op: CBin) -> bool
    ensures { result ≡ spec.is_remainder op }
{
    match op {
        CBin::Rem => true,
        _ => false,
    }
}

// `cp_i_r`
#[tactic(auto, using(c99_tree::specs::TreeLaws::tree_laws))]
fn is_head(r: &Name, e: &CExpr) -> bool
    ensures { result ≡ spec.is_head r.now (tree e.now) }
{
    match e {
        CExpr::Head(x) => is_same(r, x),
        CExpr::Lit(_, _) => false,
        CExpr::True => false,
        CExpr::False => false,
        CExpr::Copy(_) => false,
        CExpr::Cell(_) => false,
        CExpr::RingAt(_, _) => false,
        CExpr::Un(_, _) => false,
        CExpr::Bin(_, _, _) => false,
        CExpr::Cond(_, _, _) => false,
        CExpr::Cast(_, _) => false,
        CExpr::Field(_, _) => false,
        CExpr::Pick(_, _, _, _) => false,
        CExpr::Arr(_, _, _) => false,
        CExpr::Rec(_, _) => false,
    }
}

// `kU`
#[tactic(auto, using(c99_tree::specs::TreeLaws::tree_laws))]
fn is_unsigned(e: &CExpr) -> bool
    ensures { result ≡ spec.is_unsigned (tree e.now) }
{
    match e {
        CExpr::Lit(k, _) => has_suffix_u(*k),
        CExpr::True => false,
        CExpr::False => false,
        CExpr::Copy(_) => false,
        CExpr::Head(_) => false,
        CExpr::Cell(_) => false,
        CExpr::RingAt(_, _) => false,
        CExpr::Un(_, _) => false,
        CExpr::Bin(_, _, _) => false,
        CExpr::Cond(_, _, _) => false,
        CExpr::Cast(_, _) => false,
        CExpr::Field(_, _) => false,
        CExpr::Pick(_, _, _, _) => false,
        CExpr::Arr(_, _, _) => false,
        CExpr::Rec(_, _) => false,
    }
}

// `1U`
#[tactic(auto, using(c99_tree::specs::TreeLaws::tree_laws))]
fn is_one(e: &CExpr) -> bool
    ensures { result ≡ spec.is_one (tree e.now) }
{
    match e {
        CExpr::Lit(k, n) => has_suffix_u(*k) && *n == 1,
        CExpr::True => false,
        CExpr::False => false,
        CExpr::Copy(_) => false,
        CExpr::Head(_) => false,
        CExpr::Cell(_) => false,
        CExpr::RingAt(_, _) => false,
        CExpr::Un(_, _) => false,
        CExpr::Bin(_, _, _) => false,
        CExpr::Cond(_, _, _) => false,
        CExpr::Cast(_, _) => false,
        CExpr::Field(_, _) => false,
        CExpr::Pick(_, _, _, _) => false,
        CExpr::Arr(_, _, _) => false,
        CExpr::Rec(_, _) => false,
    }
}

// `(cp_i_r + kU)`
#[tactic(auto, using(c99_tree::specs::TreeLaws::tree_laws))]
fn is_sum(r: &Name, e: &CExpr) -> bool
    ensures { result ≡ spec.is_sum r.now (tree e.now) }
{
    match e {
        CExpr::Bin(op, a, b) => is_plus(*op) && is_head(r, a.get()) && is_unsigned(b.get()),
        CExpr::Lit(_, _) => false,
        CExpr::True => false,
        CExpr::False => false,
        CExpr::Copy(_) => false,
        CExpr::Head(_) => false,
        CExpr::Cell(_) => false,
        CExpr::RingAt(_, _) => false,
        CExpr::Un(_, _) => false,
        CExpr::Cond(_, _, _) => false,
        CExpr::Cast(_, _) => false,
        CExpr::Field(_, _) => false,
        CExpr::Pick(_, _, _, _) => false,
        CExpr::Arr(_, _, _) => false,
        CExpr::Rec(_, _) => false,
    }
}

// `((cp_i_r + kU) % 1U)`
#[tactic(auto, using(c99_tree::specs::TreeLaws::tree_laws))]
fn is_old_place(r: &Name, e: &CExpr) -> bool
    ensures { result ≡ spec.is_old_place r.now (tree e.now) }
{
    match e {
        CExpr::Bin(op, a, b) => is_remainder(*op) && is_sum(r, a.get()) && is_one(b.get()),
        CExpr::Lit(_, _) => false,
        CExpr::True => false,
        CExpr::False => false,
        CExpr::Copy(_) => false,
        CExpr::Head(_) => false,
        CExpr::Cell(_) => false,
        CExpr::RingAt(_, _) => false,
        CExpr::Un(_, _) => false,
        CExpr::Cond(_, _, _) => false,
        CExpr::Cast(_, _) => false,
        CExpr::Field(_, _) => false,
        CExpr::Pick(_, _, _, _) => false,
        CExpr::Arr(_, _, _) => false,
        CExpr::Rec(_, _) => false,
    }
}

// Whether the ring is read as of old alone.
#[cycle(reading)]
#[tactic(auto, using(c99_tree::specs::TreeLaws::tree_laws))]
fn reads_as_of_old(r: &Name, e: &CExpr) -> bool
    ensures { result ≡ spec.reads_as_of_old r.now (tree e.now) }
{
    match e {
        CExpr::Lit(_, _) | CExpr::True | CExpr::False | CExpr::Copy(_) | CExpr::Cell(_) => true,
        CExpr::Head(x) => !is_same(r, x),
        CExpr::RingAt(x, a) => {
            if is_same(r, x) {
                return is_old_place(r, a.get());
            }
            reads_as_of_old(r, a.get())
        }
        CExpr::Un(_, a) | CExpr::Cast(_, a) | CExpr::Field(a, _) => reads_as_of_old(r, a.get()),
        CExpr::Bin(_, a, b) | CExpr::Pick(_, _, a, b) => {
            reads_as_of_old(r, a.get()) && reads_as_of_old(r, b.get())
        }
        CExpr::Cond(c, a, b) => {
            reads_as_of_old(r, c.get())
                && reads_as_of_old(r, a.get())
                && reads_as_of_old(r, b.get())
        }
        CExpr::Arr(_, _, all) | CExpr::Rec(_, all) => all_read_as_of_old(r, all.as_slice()),
    }
}

#[cycle(reading)]
#[tactic(auto, using(c99_tree::specs::TreeLaws::tree_laws))]
fn all_read_as_of_old(r: &Name, all: &[CExpr]) -> bool
    ensures { result ≡ spec.all_read_as_of_old r.now (exprs (map tree all.now)) }
{
    for e in all {
        if !reads_as_of_old(r, e) {
            return false;
        }
    }
    true
}

fn uses_as_of_old(r: &Name, s: &CStmt) -> bool
    ensures { result ≡ spec.uses_as_of_old r.now (statement s.now) }
{
    match s {
        CStmt::Copy { name: _ } => true,
        CStmt::Put { ring: _ } => true,
        CStmt::Call {
            handler: _,
            guard,
            args,
        } => reads_as_of_old(r, guard) && all_read_as_of_old(r, args.as_slice()),
        CStmt::Next { ring: _, value } => reads_as_of_old(r, value),
        CStmt::Store { ring, at } => {
            if is_same(r, ring) {
                return is_head(r, at);
            }
            reads_as_of_old(r, at)
        }
        CStmt::Move { ring, value } => {
            if is_same(r, ring) {
                return is_old_place(r, value);
            }
            reads_as_of_old(r, value)
        }
    }
}

/// Whether each of these statements uses the ring as of old.
pub(crate) fn all_use_as_of_old(r: &Name, step: &[CStmt]) -> bool
    ensures { result ≡ list_all (spec.uses_as_of_old r.now) (map statement step.now) }
{
    for s in step {
        if !uses_as_of_old(r, s) {
            return false;
        }
    }
    true
}
