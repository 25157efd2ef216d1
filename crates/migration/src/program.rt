// From the old layout to the new one.
ghost use Rattle.std.specs.Prelude.{◌≡◌, ◌≤◌, ◌+◌, None, IsTrue, IfOk};
ghost use Rattle.sm_io.specs.Words.{is_name};
ghost use Rattle.c99_tree.specs.Storage.{storage_of};
ghost use Rattle.c99_tree.specs.Weight.{unit_weight_of};
ghost use Rattle.c99_tree.specs.WellFormed.{IsWellFormed, types_come_first};
ghost use Rattle.migration.specs.Migration as spec;
ghost use Rattle.migration.specs.Migration.{IsMigrated, IsRenewed, RunAlike, Tells, misused, old_indices, with_totals};

use crate::copies::{copied_defs, copied_protos, copied_vars};
use crate::fault::MigrateFault;
use crate::misuse::misused;
use crate::renewal::{renewed_rings, renewed_step};
use c99_ast::{storage, unit_weight};
use c99_tree::Unit;
use sm_io::Name;
use std::alloc::{AllocError, Global};

// The new program, its storage and weight not yet counted.
fn without_totals(alloc: Global, unit: &Unit, name: &Name) -> Result<Unit, AllocError>
    ensures { IfOk result (λ v. IsRenewed unit.now name.now v) }
{
    let name = name.copy(alloc)?;
    let types = copied_defs(alloc, unit.types.as_slice())?;
    let externs = copied_vars(alloc, unit.externs.as_slice())?;
    let handlers = copied_protos(alloc, unit.handlers.as_slice())?;
    let rings = renewed_rings(alloc, unit.rings.as_slice())?;
    let step = renewed_step(alloc, unit)?;
    Ok(Unit {
        name,
        types,
        storage: 0,
        need: 0,
        externs,
        handlers,
        rings,
        step,
    })
}

// The program with its own storage and weight in its header.
fn with_totals(mut unit: Unit) -> Unit
    requires types { IsTrue (types_come_first unit) }
    requires storage { storage_of unit ≤ 2147483647 }
    requires weight { unit_weight_of unit ≤ 2147483647 }
    ensures { result ≡ with_totals unit }
{
    let bytes = storage(&unit) as u32;
    let weight = unit_weight(&unit) as u32;
    unit.storage = bytes;
    unit.need = weight;
    unit
}

// The program without these indices, where each is used as of old.
fn renewed_program(alloc: Global, unit: &Unit, name: &Name) -> Result<Unit, AllocError>
    requires formed { IsWellFormed unit.now }
    requires named { IsTrue (is_name name.now) }
    requires used { misused unit.now ≡ None }
    ensures unit { IfOk result (λ v. IsMigrated unit.now name.now v) }
    ensures formed { IfOk result (λ v. IsWellFormed v) }
    ensures runs { IfOk result (λ v. RunAlike unit.now v) }
    ensures storage { IfOk result (λ v. v.storage + old_indices unit.now ≡ unit.now.storage) }
{
    let renewed = without_totals(alloc, unit, name)?;
    Ok(with_totals(renewed))
}

/// The program without the index of its rings of one value, under a new name. It runs as the old one does, also where
/// that meets something undefined. A ring of one value whose index is used otherwise than of old is told by its number.
pub fn migrate(alloc: Global, unit: &Unit, name: &Name) -> Result<Unit, MigrateFault>
    requires formed { IsWellFormed unit.now }
    requires named { IsTrue (is_name name.now) }
    ensures unit { IfOk result (λ v. IsMigrated unit.now name.now v) }
    ensures formed { IfOk result (λ v. IsWellFormed v) }
    ensures runs { IfOk result (λ v. RunAlike unit.now v) }
    ensures storage { IfOk result (λ v. v.storage + old_indices unit.now ≡ unit.now.storage) }
    ensures fault { Tells (misused unit.now) result }
{
    match misused(unit) {
        Some(number) => Err(MigrateFault::OldUse(number)),
        None => Ok(renewed_program(alloc, unit, name)?),
    }
}
