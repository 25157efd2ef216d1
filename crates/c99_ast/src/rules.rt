// Whether a program is well formed.
ghost use Rattle.std.specs.Prelude.{◌≡◌, ◌↔◌, IsTrue, ◌&&◌, is_some, map, nat_le};
ghost use Rattle.std.specs.List.{list_all};
ghost use Rattle.c99_tree.specs.Tree.{statement};
ghost use Rattle.c99_tree.specs.Lookup as lookup;
ghost use Rattle.c99_tree.specs.Values.{shape_of};
ghost use Rattle.c99_tree.specs.Checks as checks;
ghost use Rattle.c99_tree.specs.Rules as rules;
ghost use Rattle.c99_tree.specs.WellFormed as spec;
ghost use Rattle.c99_tree.specs.WellFormed.{IsWellFormed};

use crate::constants::is_filled;
use crate::definitions::{
    are_built_in_order, are_defined, are_distinct_arrays, are_distinct_fields, are_distinct_names,
    are_distinct_outside, are_distinct_structs, has_few_fields, has_length,
};
use crate::naming::{has_names_def, has_names_handler, has_names_ring, have_names_vars};
use crate::order::{are_distinct_nexts, copies_come_first, nexts_come_first};
use crate::statements::is_sound_statement;
use crate::statics::storage;
use crate::weight::unit_weight;
use c99_tree::{CDef, CProto, CRing, CStmt, CTy, Unit, is_defined};
use sm_io::is_name;

/// Whether the program is well formed: whether it keeps all sixteen rules of the subset. An expression of any height is
/// looked at no deeper than 8,192.
pub fn well_formed(unit: &Unit) -> bool
    ensures { IsTrue result ↔ IsWellFormed unit.now }
{
    is_sound(unit)
}

fn is_sound(unit: &Unit) -> bool
    ensures { result ≡ rules.is_sound unit.now }
{
    if !is_declared_well(unit) {
        return false;
    }
    has_sound_rings(unit) && has_sound_step(unit) && totals_are_right(unit)
}

fn is_declared_well(unit: &Unit) -> bool
    ensures { result ≡ rules.is_declared_well unit.now }
{
    has_names(unit)
        && names_are_distinct(unit)
        && structs_have_fields(unit)
        && lengths_are_in_range(unit)
        && types_come_first(unit)
}

fn has_sound_rings(unit: &Unit) -> bool
    requires { IsTrue (spec.types_come_first unit.now) }
    ensures { result ≡ rules.has_sound_rings unit.now }
{
    let types = unit.types.as_slice();
    let rings = unit.rings.as_slice();
    are_long_as_used(rings) && are_filled(types, rings)
}

// Each statement by itself comes first, since it is refused there if it is too high.
fn has_sound_step(unit: &Unit) -> bool
    ensures { result ≡ rules.has_sound_step unit.now }
{
    let step = unit.step.as_slice();
    are_sound_statements(unit, step)
        && copies_come_first(step)
        && are_distinct_nexts(step)
        && nexts_come_first(step)
}

fn have_names_defs(types: &[CDef]) -> bool
    ensures { result ≡ list_all spec.has_names_def types.now }
{
    types.iter().all(|d| has_names_def(d))
}

fn have_names_handlers(handlers: &[CProto]) -> bool
    ensures { result ≡ list_all spec.has_names_handler handlers.now }
{
    handlers.iter().all(|h| has_names_handler(h))
}

fn have_names_rings(rings: &[CRing]) -> bool
    ensures { result ≡ list_all spec.has_names_ring rings.now }
{
    rings.iter().all(|r| has_names_ring(r))
}

fn has_names(unit: &Unit) -> bool
    ensures { result ≡ rules.has_names unit.now }
{
    is_name(unit.name.bytes())
        && have_names_defs(unit.types.as_slice())
        && have_names_vars(unit.externs.as_slice())
        && have_names_handlers(unit.handlers.as_slice())
        && have_names_rings(unit.rings.as_slice())
}

fn have_distinct_fields(types: &[CDef]) -> bool
    ensures { result ≡ list_all spec.are_distinct_fields types.now }
{
    types.iter().all(|d| are_distinct_fields(d))
}

fn are_distinct_types(types: &[CDef]) -> bool
    ensures { result ≡ spec.types_are_distinct types.now }
{
    are_distinct_structs(types) && are_distinct_arrays(types)
}

fn names_are_distinct(unit: &Unit) -> bool
    ensures { result ≡ spec.names_are_distinct unit.now }
{
    are_distinct_types(unit.types.as_slice())
        && have_distinct_fields(unit.types.as_slice())
        && are_distinct_names(unit.rings.as_slice())
        && are_distinct_outside(unit.externs.as_slice(), unit.handlers.as_slice())
}

fn are_defined_types(types: &[CDef], params: &[CTy]) -> bool
    ensures { result ≡ list_all (lookup.is_defined types.now) params.now }
{
    params.iter().all(|t| is_defined(types, t))
}

fn are_defined_params(types: &[CDef], handlers: &[CProto]) -> bool
    ensures { result ≡ list_all (λ h. list_all (lookup.is_defined types.now) h.params) handlers.now }
{
    for h in handlers {
        if !are_defined_types(types, h.params.as_slice()) {
            return false;
        }
    }
    true
}

fn are_defined_rings(types: &[CDef], rings: &[CRing]) -> bool
    ensures { result ≡ list_all (λ r. lookup.is_defined types.now r.ty) rings.now }
{
    for r in rings {
        if !is_defined(types, &r.ty) {
            return false;
        }
    }
    true
}

fn types_come_first(unit: &Unit) -> bool
    ensures { result ≡ spec.types_come_first unit.now }
{
    let types = unit.types.as_slice();
    are_built_in_order(types)
        && are_defined(types, unit.externs.as_slice())
        && are_defined_params(types, unit.handlers.as_slice())
        && are_defined_rings(types, unit.rings.as_slice())
}

fn structs_have_fields(unit: &Unit) -> bool
    ensures { result ≡ spec.structs_have_fields unit.now }
{
    unit.types.as_slice().iter().all(|d| has_few_fields(d))
}

fn have_lengths(types: &[CDef]) -> bool
    ensures { result ≡ list_all spec.has_array_length (lookup.arrays_in types.now) }
{
    for d in types {
        if !has_length(d) {
            return false;
        }
    }
    true
}

fn have_ring_lengths(rings: &[CRing]) -> bool
    ensures { result ≡ list_all (λ r. nat_le 1 r.len && nat_le r.len 65536) rings.now }
{
    rings.iter().all(|r| 1 <= r.len && r.len <= 65536)
}

fn lengths_are_in_range(unit: &Unit) -> bool
    ensures { result ≡ spec.lengths_are_in_range unit.now }
{
    have_lengths(unit.types.as_slice()) && have_ring_lengths(unit.rings.as_slice())
}

fn are_long_as_used(rings: &[CRing]) -> bool
    ensures { result ≡ list_all rules.is_long_as_used rings.now }
{
    rings.iter().all(|r| r.indexed || r.len == 1)
}

fn are_filled(types: &[CDef], rings: &[CRing]) -> bool
    requires { IsTrue (list_all (λ r. is_some (shape_of types.now r.ty)) rings.now) }
    ensures { result ≡ list_all (rules.is_filled types.now) rings.now }
{
    for r in rings {
        if !is_filled(types, r) {
            return false;
        }
    }
    true
}

fn are_sound_statements(unit: &Unit, step: &[CStmt]) -> bool
    ensures { result ≡ list_all (checks.is_sound_statement unit.now) (map statement step.now) }
{
    for s in step {
        if !is_sound_statement(unit, s) {
            return false;
        }
    }
    true
}

fn totals_are_right(unit: &Unit) -> bool
    requires { IsTrue (spec.types_come_first unit.now) }
    ensures { result ≡ spec.totals_are_right unit.now }
{
    u64::from(unit.storage) == storage(unit)
        && u64::from(unit.need) == unit_weight(unit)
        && unit.storage <= 2147483647
        && unit.need <= 2147483647
}
