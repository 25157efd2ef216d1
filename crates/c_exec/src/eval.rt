// The words of an expression's value.
ghost use Rattle.std.specs.Prelude.{◌≡◌, ◌+◌};
ghost use Rattle.c_exec.specs.Codes.{op_of, elem, un, conv, part};
ghost use Rattle.c_exec.specs.Going.{go, left_by};
ghost use Rattle.c_exec.specs.Rests.{right_of, place_of};

use crate::code::Code;
use crate::numbers::{binary, converted, decision, is_decided, subscript, unary};
use crate::pile::Pile;
use crate::runs::{run_of, spot};
use c99_tree::{CBin, CScalar, CUn, Undefined};
use sm_io::Steps;
use std::sync::ledger::Ledger;

// An element of a ring.
#[cycle(evaluating)]
#[tactic(auto, unfolding(crate::specs::Going::go))]
fn element<L: Ledger>(
    at: u32,
    n: u32,
    len: u32,
    t: CScalar,
    a: &Code,
    statics: &[u64],
    pile: &mut Pile,
    steps: &mut Steps<L>,
) -> Result<(), Undefined>
    ensures value { (go pile.old.room statics.now (elem at n len t (op_of a.now)) pile.old.items).value ≡ left_by result pile.new.items }
    ensures room { pile.new.room ≡ pile.old.room }
    ensures count { steps.new ≡ steps.old + (go pile.old.room statics.now (elem at n len t (op_of a.now)) pile.old.items).count }
{
    steps.tick();
    eval(a, statics, pile, steps)?;
    let k = subscript(t, pile.pop(), len)?;
    pile.extend(run_of(statics, spot(at, k, n), n as usize));
    Ok(())
}

#[cycle(evaluating)]
#[tactic(auto, unfolding(crate::specs::Going::go))]
fn unary_of<L: Ledger>(
    op: CUn,
    t: CScalar,
    a: &Code,
    statics: &[u64],
    pile: &mut Pile,
    steps: &mut Steps<L>,
) -> Result<(), Undefined>
    ensures value { (go pile.old.room statics.now (un op t (op_of a.now)) pile.old.items).value ≡ left_by result pile.new.items }
    ensures room { pile.new.room ≡ pile.old.room }
    ensures count { steps.new ≡ steps.old + (go pile.old.room statics.now (un op t (op_of a.now)) pile.old.items).count }
{
    steps.tick();
    eval(a, statics, pile, steps)?;
    let w = unary(op, t, pile.pop())?;
    pile.push(w);
    Ok(())
}

// The right operand of a binary operator, where the left one's word lies on the pile.
#[cycle(evaluating)]
fn right_of<L: Ledger>(
    op: CBin,
    s: CScalar,
    t: CScalar,
    b: &Code,
    statics: &[u64],
    pile: &mut Pile,
    steps: &mut Steps<L>,
) -> Result<(), Undefined>
    ensures value { (right_of pile.old.room statics.now op s t (op_of b.now) pile.old.items).value ≡ left_by result pile.new.items }
    ensures room { pile.new.room ≡ pile.old.room }
    ensures count { steps.new ≡ steps.old + (right_of pile.old.room statics.now op s t (op_of b.now) pile.old.items).count }
{
    if is_decided(op, pile.top()) {
        pile.pop();
        pile.push(decision(op));
        return Ok(());
    }
    eval(b, statics, pile, steps)?;
    let y = pile.pop();
    let x = pile.pop();
    let w = binary(op, s, t, x, y)?;
    pile.push(w);
    Ok(())
}

#[cycle(evaluating)]
#[tactic(auto, unfolding(crate::specs::Going::go))]
fn conversion<L: Ledger>(
    s: CScalar,
    t: CScalar,
    a: &Code,
    statics: &[u64],
    pile: &mut Pile,
    steps: &mut Steps<L>,
) -> Result<(), Undefined>
    ensures value { (go pile.old.room statics.now (conv s t (op_of a.now)) pile.old.items).value ≡ left_by result pile.new.items }
    ensures room { pile.new.room ≡ pile.old.room }
    ensures count { steps.new ≡ steps.old + (go pile.old.room statics.now (conv s t (op_of a.now)) pile.old.items).count }
{
    eval(a, statics, pile, steps)?;
    let w = converted(s, t, pile.pop())?;
    pile.push(w);
    Ok(())
}

// A member of a struct.
#[cycle(evaluating)]
#[tactic(auto, unfolding(crate::specs::Going::go))]
fn member<L: Ledger>(
    off: u32,
    n: u32,
    a: &Code,
    statics: &[u64],
    pile: &mut Pile,
    steps: &mut Steps<L>,
) -> Result<(), Undefined>
    ensures value { (go pile.old.room statics.now (part off n (op_of a.now)) pile.old.items).value ≡ left_by result pile.new.items }
    ensures room { pile.new.room ≡ pile.old.room }
    ensures count { steps.new ≡ steps.old + (go pile.old.room statics.now (part off n (op_of a.now)) pile.old.items).count }
{
    steps.tick();
    let base = pile.len();
    eval(a, statics, pile, steps)?;
    pile.keep(base, off as usize, n as usize);
    Ok(())
}

// The element of an array that a subscript names, where the array's words begin at a base.
#[cycle(evaluating)]
fn place_of<L: Ledger>(
    base: usize,
    n: u32,
    len: u32,
    i: &Code,
    statics: &[u64],
    pile: &mut Pile,
    steps: &mut Steps<L>,
) -> Result<(), Undefined>
    ensures value { (place_of pile.old.room statics.now base n len (op_of i.now) pile.old.items).value ≡ left_by result pile.new.items }
    ensures room { pile.new.room ≡ pile.old.room }
    ensures count { steps.new ≡ steps.old + (place_of pile.old.room statics.now base n len (op_of i.now) pile.old.items).count }
{
    eval(i, statics, pile, steps)?;
    let k = subscript(CScalar::U32, pile.pop(), len)?;
    pile.keep(base, spot(0, k, n), n as usize);
    Ok(())
}

/// Puts the words of an expression's value on the pile, and counts each operator that it meets.
#[cycle(evaluating)]
#[tactic(auto, using(crate::specs::CodeLaws::op_laws), unfolding(crate::specs::Going::go))]
pub(crate) fn eval<L: Ledger>(
    code: &Code,
    statics: &[u64],
    pile: &mut Pile,
    steps: &mut Steps<L>,
) -> Result<(), Undefined>
    ensures value { (go pile.old.room statics.now (op_of code.now) pile.old.items).value ≡ left_by result pile.new.items }
    ensures room { pile.new.room ≡ pile.old.room }
    ensures count { steps.new ≡ steps.old + (go pile.old.room statics.now (op_of code.now) pile.old.items).count }
{
    match code {
        Code::Word(w) => {
            pile.push(*w);
            Ok(())
        }
        Code::Load(at, n) => {
            pile.extend(run_of(statics, *at as usize, *n as usize));
            Ok(())
        }
        Code::Element(at, n, len, t, a) => {
            element(*at, *n, *len, *t, a.get(), statics, pile, steps)
        }
        Code::Un(op, t, a) => unary_of(*op, *t, a.get(), statics, pile, steps),
        Code::Bin(op, s, t, a, b) => {
            steps.tick();
            eval(a.get(), statics, pile, steps)?;
            right_of(*op, *s, *t, b.get(), statics, pile, steps)
        }
        Code::Choose(c, a, b) => {
            steps.tick();
            eval(c.get(), statics, pile, steps)?;
            if pile.pop() == 0 {
                return eval(b.get(), statics, pile, steps);
            }
            eval(a.get(), statics, pile, steps)
        }
        Code::Convert(s, t, a) => conversion(*s, *t, a.get(), statics, pile, steps),
        Code::Met(a) => {
            steps.tick();
            eval(a.get(), statics, pile, steps)
        }
        Code::Part(off, n, a) => member(*off, *n, a.get(), statics, pile, steps),
        Code::Pick(n, len, a, i) => {
            steps.tick();
            steps.tick();
            let base = pile.len();
            eval(a.get(), statics, pile, steps)?;
            place_of(base, *n, *len, i.get(), statics, pile, steps)
        }
        Code::Then(a, b) => {
            eval(a.get(), statics, pile, steps)?;
            eval(b.get(), statics, pile, steps)
        }
        Code::Nothing => Ok(()),
    }
}
