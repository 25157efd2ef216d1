// `compile`.
ghost use Rattle.std.specs.Prelude.{◌≡◌, ◌≤◌, ℕ, List, IfErr, IfOk, IfSome, IsTrue};
ghost use Rattle.sm_io.specs.Words.{is_name};
ghost use Rattle.tool_top.specs.Command.{compile};
ghost use Rattle.tool_top.specs.Answer.{TellsShelfFaults, IsFileAnswer};
ghost use Rattle.tool_top.specs.Compile.{IsCompiled, IsProgramOf, IsProgramFor};
ghost use Rattle.tool_top.specs.Putting.{Puts};
ghost use Rattle.tool_top.specs.Analysis.{Means, Stops, HasFirstFault};

use crate::analysis::analyse;
use crate::fetch::fetch_text;
use crate::outcome::Outcome;
use crate::puts::{Texts, make_texts, put_program, unit_name};
use c99_read::texts_spell_one_unit;
use recursion_check::Sound;
use ring_codegen::generate;
use sm_io::Shelf;
use std::alloc::{AllocError, Global};
use stream_lib::lower;

// Both texts of the program of a specification.
fn program_texts(alloc: Global, spec: &Sound, name: &str) -> Result<Texts, AllocError>
    requires named { IsTrue (is_name name.now) }
    requires means { (text : List ℕ) × Means text spec.now }
    ensures { IfOk result (λ t. IsProgramOf spec.now name.now t.header.taken t.source.taken) }
{
    texts_spell_one_unit();
    let name = unit_name(alloc, name)?;
    let plain = lower(alloc, spec)?;
    let unit = generate(alloc, &plain, &name)?;
    make_texts(alloc, &unit)
}

// Both texts of the program of a specification's text, or how the run stops.
fn compiled(alloc: Global, text: &[u8], name: &str) -> Result<Texts, Outcome>
    requires named { IsTrue (is_name name.now) }
    ensures ok { IfOk result (λ t. IsProgramFor text.now name.now t.header.taken t.source.taken) }
    ensures err { IfErr result (λ stop. Stops (HasFirstFault text.now) stop) }
{
    let spec = match analyse(alloc, text) {
        Ok(spec) => spec,
        Err(stop) => return Err(stop),
    };
    match program_texts(alloc, &spec, name) {
        Ok(texts) => Ok(texts),
        Err(AllocError) => Err(Outcome::NoMemory),
    }
}

/// Fetches a specification, and puts the two files of its program.
pub(crate) fn compile<F: Shelf>(alloc: Global, spec: &str, name: &str, shelf: &mut F) -> Outcome
    requires named { IsTrue (is_name name.now) }
    ensures answer { IfSome (F.files shelf.old) (λ m. Puts (compile spec.now name.now) name.now (IsCompiled spec.now name.now) m (F.files shelf.new) result) }
    ensures possible { IsFileAnswer result }
    ensures faults { TellsShelfFaults (F.faults shelf.old) (F.faults shelf.new) result }
    ensures later { F.faults shelf.old ≤ F.faults shelf.new }
{
    let text = match fetch_text(alloc, spec, shelf) {
        Ok(text) => text,
        Err(outcome) => return outcome,
    };
    let texts = match compiled(alloc, &text, name) {
        Ok(texts) => texts,
        Err(stop) => return stop,
    };
    put_program(alloc, name, &texts, shelf)
}
