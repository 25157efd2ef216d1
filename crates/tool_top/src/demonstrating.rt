// `demo`.
ghost use Rattle.std.specs.Prelude.{◌≡◌, ◌≤◌};
ghost use Rattle.tool_top.specs.Demo.{IsDemoAnswer, WritesLine, line_for};

use crate::outcome::Outcome;
use demo::{demonstrate, write_figures};
use sm_io::{Failed, Sink};
use std::alloc::{AllocError, Global};

/// Runs a demonstration of so many streams and steps, and writes its line.
pub(crate) fn run_demo<K: Sink>(alloc: Global, streams: u32, steps: u32, out: &mut K) -> Outcome
    requires streams { streams ≤ 1000 }
    requires steps { steps ≤ 1000000 }
    ensures possible { IsDemoAnswer result }
    ensures line { WritesLine (line_for streams steps) (K.taken out.old) (K.taken out.new) (K.faults out.old) (K.faults out.new) result }
{
    let figures = match demonstrate(alloc, streams, steps) {
        Ok(figures) => figures,
        Err(AllocError) => return Outcome::NoMemory,
    };
    match write_figures(streams, steps, &figures, out) {
        Ok(()) => Outcome::Done,
        Err(Failed) => Outcome::WriteFault,
    }
}
