//! What the program of a specification does over the rows that the specification is interpreted over.
//! Defined by specs/Agreement.antt; the functions are laws, and do nothing.
#![tactic(auto)]

ghost use Rattle.std.specs.Prelude.{◌≡◌, ℕ, Bool, List, Option};
ghost use Rattle.stream_core.specs.Value.{SpecValue};
ghost use Rattle.stream_core.specs.Term.{trees};
ghost use Rattle.stream_core.specs.Soundness.{HasNoCycle};
ghost use Rattle.stream_core.specs.WellTyped.{WellTyped};
ghost use Rattle.c99_tree.specs.declared.unit.Unit.{Unit as CUnit};
ghost use Rattle.extern_rows.specs.SampleRows.{FaultAt};
ghost use Rattle.row_sessions.specs.Session.{row_stop};
ghost use Rattle.interpreter.specs.Interpreted.{interpreted};
ghost use Rattle.ring_codegen.specs.Simulation.{Simulates};
ghost use Rattle.compiled_runs.specs.Agreement.{Agrees, CompiledFilesRunAlike};

use c99_read::texts_spell_one_unit;
use spec_forest::text_has_one_forest;
use spec_text::forest_has_one_surface;

/// Where an interpretation ends with its rows, be it at their end or at a line that gives none, the execution of a program
/// that simulates the specification ends so too, and writes the same lines but for those of observers.
pub fn programs_run_as_interpreted()
    ensures { (s : SpecValue) (name : List ℕ) (u : CUnit) → WellTyped s → HasNoCycle (trees s).defs → Simulates s name u
        → (text : List ℕ) (ended : Bool) (fault : Option FaultAt) → (interpreted s text ended).stop ≡ row_stop fault → Agrees s u text ended fault }
{}

/// Where `interpret` answers Done or BadRow, `cexec` over the files that `compile` put answers the same over the same
/// input, and writes the same without the observers' lines, unless it met a fault of the outside or found no memory.
pub fn compiled_files_run_as_interpreted()
    ensures { CompiledFilesRunAlike }
{
    text_has_one_forest();
    forest_has_one_surface();
    texts_spell_one_unit();
    programs_run_as_interpreted();
}
