// `migrate`.
ghost use Rattle.std.specs.Prelude.{◌≡◌, ◌≤◌, IfErr, IfOk, IfSome, IsTrue, None, string_bytes};
ghost use Rattle.sm_io.specs.Words.{is_name};
ghost use Rattle.c99_tree.specs.WellFormed.{IsWellFormed};
ghost use Rattle.migration.specs.Migration.{misused};
ghost use Rattle.tool_top.specs.Command.{migrate};
ghost use Rattle.tool_top.specs.Wanted.{unit_files};
ghost use Rattle.tool_top.specs.Answer.{TellsShelfFaults, IsFileAnswer, NamesStop};
ghost use Rattle.tool_top.specs.Migrate.{IsRenewalOf, IsRenewed};
ghost use Rattle.tool_top.specs.Programs.{StopsRenewal};
ghost use Rattle.tool_top.specs.Putting.{Puts};

use crate::outcome::{Outcome, Refusal, RefusalKind};
use crate::puts::{Texts, make_texts, put_program, unit_name};
use crate::unit_files::fetch_unit;
use c99_read::texts_spell_one_unit;
use c99_tree::Unit;
use migration::{MigrateFault, migrate};
use sm_io::Shelf;
use std::alloc::{AllocError, Global};

/// How a migration ended, and the file at which its reading stopped.
#[derive(Drop)]
pub(crate) struct Migrated {
    pub(crate) outcome: Outcome,
    pub(crate) file: String,
}

// The program of the new layout, or how the run stops.
fn renewal(alloc: Global, unit: &Unit, name: &str) -> Result<Texts, Outcome>
    requires formed { IsWellFormed unit.now }
    requires named { IsTrue (is_name name.now) }
    ensures ok { IfOk result (λ t. IsRenewalOf unit.now name.now t.header.taken t.source.taken) }
    ensures used { IfOk result (λ t. misused unit.now ≡ None) }
    ensures err { IfErr result (StopsRenewal unit.now) }
{
    texts_spell_one_unit();
    let Ok(name) = unit_name(alloc, name) else {
        return Err(Outcome::NoMemory);
    };
    let program = match migrate(alloc, unit, &name) {
        Ok(program) => program,
        Err(MigrateFault::OldUse(number)) => return Err(Outcome::Refused(Refusal {
            kind: RefusalKind::NotOldLayout,
            item: number as u64,
            at: 0,
        })),
        Err(MigrateFault::Memory) => return Err(Outcome::NoMemory),
    };
    match make_texts(alloc, &program) {
        Ok(texts) => Ok(texts),
        Err(AllocError) => Err(Outcome::NoMemory),
    }
}

/// Reads the two files of a program, and puts those of the program of the new layout.
pub(crate) fn migrate_files<F: Shelf>(
    alloc: Global,
    old: &str,
    name: &str,
    shelf: &mut F,
) -> Migrated
    requires named { IsTrue (is_name name.now) }
    ensures answer { IfSome (F.files shelf.old) (λ m. Puts (migrate old.now name.now) name.now (IsRenewed old.now name.now) m (F.files shelf.new) result.outcome) }
    ensures file { NamesStop (unit_files old.now) (F.files shelf.old) result.outcome (string_bytes result.file) }
    ensures possible { IsFileAnswer result.outcome }
    ensures faults { TellsShelfFaults (F.faults shelf.old) (F.faults shelf.new) result.outcome }
    ensures later { F.faults shelf.old ≤ F.faults shelf.new }
{
    let unit = match fetch_unit(alloc, old, shelf) {
        Ok(unit) => unit,
        Err(stop) => return Migrated {
            outcome: stop.outcome,
            file: stop.file,
        },
    };
    let file = String::new(alloc);
    let texts = match renewal(alloc, &unit, name) {
        Ok(texts) => texts,
        Err(outcome) => return Migrated { outcome, file },
    };
    let outcome = put_program(alloc, name, &texts, shelf);
    Migrated { outcome, file }
}
