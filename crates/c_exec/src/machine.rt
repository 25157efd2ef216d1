// A machine that carries out a program step by step.
ghost use Rattle.std.specs.Prelude.{◌≡◌, ◌+◌, ◌≤◌, None, IfOk};
ghost use Rattle.c99_tree.specs.Run.{first_statics};
ghost use Rattle.c99_tree.specs.Typed.{IsRow};
ghost use Rattle.c99_tree.specs.Weight.{unit_weight_of};
ghost use Rattle.c99_tree.specs.WellFormed.{IsWellFormed};
ghost use Rattle.c_exec.specs.Layout.{locals_width};
ghost use Rattle.c_exec.specs.Machine.{Answers, Begins, first_words, outcome, called_of};

use crate::calls::{Calls, Log};
use crate::carry::act_all;
use crate::code::Line;
use crate::layout::{copies_width, sum, width};
use crate::lines::lines_of;
use crate::pile::Pile;
use crate::rooms::{all_calls, all_words, most_need};
use c99_tree::{Undefined, Unit};
use sm_io::Steps;
use std::alloc::{AllocError, Global};
use std::marker::Model;
use std::sync::ledger::Ledger;

/// A program with its statics, which contracts see as `Kept`: the calls of the last step, and what was met that is
/// undefined, if anything.
#[derive(Drop)]
pub struct Machine<'u> {
    unit: &'u Unit,
    lines: Vec<Line>,
    statics: Vec<u64>,
    locals: Vec<u64>,
    pile: Pile,
    log: Log,
    met: Option<Undefined>,
}

impl<'u> Model for Machine<'u> {
    ghost use Rattle.c_exec.specs.Machine.{Kept};

    ghost Value = { Kept };

    ghost use Rattle.c99_tree.specs.contracts.expr.CExpr as e;
    ghost use Rattle.std.specs.Coded.{codes};

    ghost coded = { Prim.hlevel (codes, e.the_row.coded) };

    ghost use Rattle.c_exec.specs.Inside.{IsMachine};

    ghost view = { λ m. record { unit = m.unit.now; statics = m.statics.items; handlers = m.log.handlers.items; ends = m.log.ends.items; words = m.log.words.items; met = m.met } };

    ghost invariant = { IsMachine };
}

// The words of the statics before the first call: copies and indices are zero, and rings have their constants.
fn first_words(alloc: Global, unit: &Unit) -> Result<Vec<u64>, AllocError>
    ensures { IfOk result (λ ws. ws.items ≡ first_words unit.now) }
{
    let copies = copies_width(unit.types.as_slice(), unit.externs.as_slice())?;
    let mut words: Vec<u64> = vec![in alloc; 0; copies as usize]?;
    for ring in unit.rings.as_slice() {
        words.push(0)?;
        words.extend_from_slice(ring.init.as_slice())?;
    }
    Ok(words)
}

fn locals_width(unit: &Unit) -> Result<u32, AllocError>
    ensures { IfOk result (λ n. n ≡ locals_width unit.now) }
{
    let mut total = 0;
    for ring in unit.rings.as_slice() {
        total = sum(total, width(unit.types.as_slice(), &ring.ty)?)?;
    }
    Ok(total)
}

impl<'u> Machine<'u> {
    /// A machine before the first call of the unit's `step`. It takes here all memory that the calls use.
    pub fn start(alloc: Global, unit: &'u Unit) -> Result<Machine<'u>, AllocError>
        requires { IsWellFormed unit.now }
        ensures { IfOk result (Begins unit.now (first_statics unit.now)) }
    {
        let lines = lines_of(alloc, unit)?;
        let statics = first_words(alloc, unit)?;
        let locals = vec![in alloc; 0; locals_width(unit)? as usize]?;
        let pile = Pile::new(alloc, most_need(lines.as_slice())? as usize)?;
        let calls = all_calls(lines.as_slice())? as usize;
        let log = Log::new(alloc, calls, all_words(lines.as_slice())? as usize)?;
        Ok(Machine {
            unit,
            lines,
            statics,
            locals,
            pile,
            log,
            met: None,
        })
    }

    /// Calls `step` while the externs hold this row of words. It counts each operator that the call meets, and takes no
    /// memory. Once something undefined was met, each further call answers the same and counts nothing.
    pub fn call_step<L: Ledger>(
        &mut self,
        row: &[u64],
        steps: &mut Steps<L>,
    ) -> Result<(), Undefined>
        requires { IsRow self.old.unit row.now }
        ensures value { Answers (outcome self.old row.now).value self.old self.new result }
        ensures count { steps.new ≡ steps.old + (outcome self.old row.now).count }
        ensures within { steps.new ≤ steps.old + unit_weight_of self.old.unit }
    {
        match self.met {
            Some(why) => {
                self.log.clear();
                Err(why)
            }
            None => self.carry_out(row, steps),
        }
    }

    // The same of a machine that has met nothing undefined.
    fn carry_out<L: Ledger>(&mut self, row: &[u64], steps: &mut Steps<L>) -> Result<(), Undefined>
        requires row { IsRow self.old.unit row.now }
        requires met { self.old.met ≡ None }
        ensures value { Answers (outcome self.old row.now).value self.old self.new result }
        ensures count { steps.new ≡ steps.old + (outcome self.old row.now).count }
        ensures within { steps.new ≤ steps.old + unit_weight_of self.old.unit }
    {
        self.log.clear();
        match act_all(
            self.lines.as_slice(),
            row,
            self.statics.as_mut_slice(),
            self.locals.as_mut_slice(),
            &mut self.pile,
            &mut self.log,
            steps,
        ) {
            Ok(()) => Ok(()),
            Err(why) => {
                self.log.clear();
                self.met = Some(why);
                Err(why)
            }
        }
    }

    /// The handler calls of the last step. There are none before the first, and none once something undefined was met.
    pub fn events(&self) -> Calls<'_>
        ensures { result ≡ called_of self.now }
    {
        self.log.lend()
    }
}
