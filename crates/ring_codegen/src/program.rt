// The program of a specification.
ghost use Rattle.std.specs.Prelude.{◌≡◌, ◌≤◌, IsTrue, IfOk};
ghost use Rattle.sm_io.specs.Words.{is_name};
ghost use Rattle.stream_core.specs.Meaning.{closed_spec};
ghost use Rattle.stream_lib.specs.PlainSpecs.{IsSoundPlain};
ghost use Rattle.c99_tree.specs.Storage.{storage_of};
ghost use Rattle.c99_tree.specs.Weight.{unit_weight_of};
ghost use Rattle.c99_tree.specs.WellFormed.{IsWellFormed, types_come_first};
ghost use Rattle.ring_codegen.specs.Simulation.{Simulates};
ghost use Rattle.ring_codegen.specs.Translation.{translation, with_totals, without_totals};

use crate::declarations::{extern_vars, handler_protos, rings, type_defs};
use crate::statements::step_statements;
use c99_ast::{storage, unit_weight};
use c99_tree::Unit;
use sm_io::Name;
use std::alloc::{AllocError, Global};
use stream_core::Spec;
use stream_lib::Plain;

// The program, its storage and weight not yet counted.
fn without_totals(alloc: Global, spec: &Spec, name: &Name) -> Result<Unit, AllocError>
    requires { IsSoundPlain spec.now }
    ensures { IfOk result (λ unit. unit ≡ without_totals (closed_spec spec.now) name.now) }
{
    let types = spec.types();
    let name = name.copy(alloc)?;
    let defs = type_defs(alloc, types)?;
    let externs = extern_vars(alloc, types, spec.externs())?;
    let handlers = handler_protos(alloc, spec)?;
    let rings = rings(alloc, spec)?;
    let step = step_statements(alloc, spec)?;
    Ok(Unit {
        name,
        types: defs,
        storage: 0,
        need: 0,
        externs,
        handlers,
        rings,
        step,
    })
}

// The program with its own storage and weight in its header.
fn with_totals(mut unit: Unit) -> Unit
    requires types { IsTrue (types_come_first unit) }
    requires storage { storage_of unit ≤ 2147483647 }
    requires weight { unit_weight_of unit ≤ 2147483647 }
    ensures { result ≡ with_totals unit }
{
    let bytes = storage(&unit) as u32;
    let weight = unit_weight(&unit) as u32;
    unit.storage = bytes;
    unit.need = weight;
    unit
}

/// The program of a specification, under a name: its translation, which is well formed and does what it means.
pub fn generate(alloc: Global, plain: &Plain, name: &Name) -> Result<Unit, AllocError>
    requires named { IsTrue (is_name name.now) }
    ensures unit { IfOk result (λ u. u ≡ translation (closed_spec plain.now) name.now) }
    ensures formed { IfOk result (λ u. IsWellFormed u) }
    ensures simulates { IfOk result (λ u. Simulates plain.now name.now u) }
{
    let unit = without_totals(alloc, plain.spec(), name)?;
    Ok(with_totals(unit))
}
