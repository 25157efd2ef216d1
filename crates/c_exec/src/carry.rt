// What a resolved statement does.
ghost use Rattle.std.specs.Prelude.{◌≡◌, ◌+◌, ℕ, List, map, length, []};
ghost use Rattle.c_exec.specs.Codes.{act_of, op_of, calls, stores};
ghost use Rattle.c_exec.specs.Going.{left_by, Rooms};
ghost use Rattle.c_exec.specs.Going as spec;
ghost use Rattle.c_exec.specs.Logs.{memory_of, rooms_of};
ghost use Rattle.c_exec.specs.declared.calls.Log.{Log};

use crate::calls::Log;
use crate::code::{Code, Line};
use crate::eval::eval;
use crate::numbers::subscript;
use crate::pile::Pile;
use crate::runs::{run_of, spot, write};
use c99_tree::{CScalar, Undefined};
use sm_io::Steps;
use std::sync::ledger::Ledger;

// The words of an expression's value, alone on the pile.
fn eval_alone<L: Ledger>(
    code: &Code,
    statics: &[u64],
    pile: &mut Pile,
    steps: &mut Steps<L>,
) -> Result<(), Undefined>
    ensures value { (spec.go pile.old.room statics.now (op_of code.now) []).value ≡ left_by result pile.new.items }
    ensures room { pile.new.room ≡ pile.old.room }
    ensures count { steps.new ≡ steps.old + (spec.go pile.old.room statics.now (op_of code.now) []).count }
{
    pile.clear();
    eval(code, statics, pile, steps)
}

// A call of a handler, where the guard isn't 0.
fn call<L: Ledger>(
    place: u32,
    guard: &Code,
    args: &Code,
    statics: &[u64],
    pile: &mut Pile,
    log: &mut Log,
    steps: &mut Steps<L>,
) -> Result<(), Undefined>
    ensures value { (row locals : List ℕ)
        → (spec.act (rooms_of pile.old log.old) row (calls place (op_of guard.now) (op_of args.now)) (memory_of statics.now locals log.old)).value ≡ left_by result (memory_of statics.now locals log.new) }
    ensures rooms { rooms_of pile.new log.new ≡ rooms_of pile.old log.old }
    ensures count { (row locals : List ℕ)
        → steps.new ≡ steps.old + (spec.act (rooms_of pile.old log.old) row (calls place (op_of guard.now) (op_of args.now)) (memory_of statics.now locals log.old)).count }
{
    eval_alone(guard, statics, pile, steps)?;
    if pile.top() == 0 {
        return Ok(());
    }
    eval_alone(args, statics, pile, steps)?;
    log.call(place, pile.words());
    Ok(())
}

// The element of a ring at a subscript becomes the ring's local.
fn store<L: Ledger>(
    at: u32,
    n: u32,
    len: u32,
    t: CScalar,
    place: &Code,
    from: u32,
    statics: &mut [u64],
    locals: &[u64],
    pile: &mut Pile,
    steps: &mut Steps<L>,
) -> Result<(), Undefined>
    ensures value { (rs : Rooms) (row : List ℕ) (log : Log) → rs.pile ≡ pile.old.room
        → (spec.act rs row (stores at n len t (op_of place.now) from) (memory_of statics.old locals.now log)).value ≡ left_by result (memory_of statics.new locals.now log) }
    ensures room { pile.new.room ≡ pile.old.room }
    ensures long { length statics.new ≡ length statics.old }
    ensures count { (rs : Rooms) (row : List ℕ) (log : Log) → rs.pile ≡ pile.old.room
        → steps.new ≡ steps.old + (spec.act rs row (stores at n len t (op_of place.now) from) (memory_of statics.old locals.now log)).count }
{
    steps.tick();
    eval_alone(place, statics, pile, steps)?;
    let k = subscript(t, pile.top(), len)?;
    write(
        statics,
        spot(at, k, n),
        run_of(locals, from as usize, n as usize),
    );
    Ok(())
}

/// Carries out a statement, while the externs hold a row.
pub(crate) fn act<L: Ledger>(
    line: &Line,
    row: &[u64],
    statics: &mut [u64],
    locals: &mut [u64],
    pile: &mut Pile,
    log: &mut Log,
    steps: &mut Steps<L>,
) -> Result<(), Undefined>
    ensures value { (spec.act (rooms_of pile.old log.old) row.now (act_of line.now) (memory_of statics.old locals.old log.old)).value ≡ left_by result (memory_of statics.new locals.new log.new) }
    ensures statics { length statics.new ≡ length statics.old }
    ensures locals { length locals.new ≡ length locals.old }
    ensures rooms { rooms_of pile.new log.new ≡ rooms_of pile.old log.old }
    ensures count { steps.new ≡ steps.old + (spec.act (rooms_of pile.old log.old) row.now (act_of line.now) (memory_of statics.old locals.old log.old)).count }
{
    match line {
        Line::Copy(at, n) => {
            write(
                statics,
                *at as usize,
                run_of(row, *at as usize, *n as usize),
            );
            Ok(())
        }
        Line::Call(place, guard, args) => call(*place, guard, args, statics, pile, log, steps),
        Line::Next(at, value) => {
            eval_alone(value, statics, pile, steps)?;
            write(locals, *at as usize, pile.words());
            Ok(())
        }
        Line::Store(at, n, len, t, place, from) => {
            store(
                *at, *n, *len, *t, place, *from, statics, locals, pile, steps,
            )
        }
        Line::Move(at, value) => {
            eval_alone(value, statics, pile, steps)?;
            write(statics, *at as usize, pile.words());
            Ok(())
        }
        Line::Put(at, n, from) => {
            write(
                statics,
                *at as usize,
                run_of(locals, *from as usize, *n as usize),
            );
            Ok(())
        }
    }
}

/// Carries out statements in order, up to the first thing that is undefined.
pub(crate) fn act_all<L: Ledger>(
    lines: &[Line],
    row: &[u64],
    statics: &mut [u64],
    locals: &mut [u64],
    pile: &mut Pile,
    log: &mut Log,
    steps: &mut Steps<L>,
) -> Result<(), Undefined>
    ensures value { (spec.act_all (rooms_of pile.old log.old) row.now (map act_of lines.now) (memory_of statics.old locals.old log.old)).value ≡ left_by result (memory_of statics.new locals.new log.new) }
    ensures statics { length statics.new ≡ length statics.old }
    ensures locals { length locals.new ≡ length locals.old }
    ensures rooms { rooms_of pile.new log.new ≡ rooms_of pile.old log.old }
    ensures count { steps.new ≡ steps.old + (spec.act_all (rooms_of pile.old log.old) row.now (map act_of lines.now) (memory_of statics.old locals.old log.old)).count }
{
    for line in lines {
        act(line, row, statics, locals, pile, log, steps)?;
    }
    Ok(())
}
