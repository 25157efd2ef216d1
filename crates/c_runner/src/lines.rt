// The lines of a step's calls.
ghost use Rattle.std.specs.Prelude.{◌≡◌, All, is_ok};
ghost use Rattle.std.specs.List.{flat_map};
ghost use Rattle.sm_io.specs.Written.{WritesText};
ghost use Rattle.c99_tree.specs.Typed.{IsCallOf};
ghost use Rattle.c99_tree.specs.WellFormed.{IsWellFormed};
ghost use Rattle.c_runner.specs.Executed.{line_of_call};
ghost use Rattle.c_runner.specs.Lines.{shapes_of};

use c_exec::Calls;
use c99_tree::Unit;
use extern_rows::{Piece, event_line};
use sm_io::{Failed, Seq, Sink};

// The line of a call of the step of this number.
fn write_call<K: Sink>(
    unit: &Unit,
    shapes: &[Seq<Piece>],
    step: u64,
    handler: usize,
    words: &[u64],
    out: &mut K,
) -> Result<(), Failed>
    requires well_formed { IsWellFormed unit.now }
    requires shapes { shapes.now ≡ shapes_of unit.now }
    requires call { IsCallOf unit.now (record { handler = handler; words = words.now }) }
    ensures { WritesText (K.taken out.old) (K.taken out.new) (K.faults out.old) (K.faults out.new) (is_ok result)
        (line_of_call unit.now step (record { handler = handler; words = words.now })) }
{
    let name = unit.handlers.as_slice()[handler].name.bytes();
    event_line(out, step, false, name, shapes[handler].as_slice(), words)
}

/// The lines of the calls of the step of this number. On `Failed` a prefix of them was taken.
pub(crate) fn write_calls<K: Sink>(
    unit: &Unit,
    shapes: &[Seq<Piece>],
    step: u64,
    calls: &Calls,
    out: &mut K,
) -> Result<(), Failed>
    requires well_formed { IsWellFormed unit.now }
    requires shapes { shapes.now ≡ shapes_of unit.now }
    requires calls { All (IsCallOf unit.now) calls.now }
    ensures { WritesText (K.taken out.old) (K.taken out.new) (K.faults out.old) (K.faults out.new) (is_ok result)
        (flat_map (line_of_call unit.now step) calls.now) }
{
    let mut i = 0;
    while i < calls.len() {
        write_call(unit, shapes, step, calls.handler(i), calls.words(i), out)?;
        i += 1;
    }
    Ok(())
}
