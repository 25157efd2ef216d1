// Whether the names of a unit are names.
ghost use Rattle.std.specs.Prelude.{◌≡◌};
ghost use Rattle.std.specs.List.{list_all};
ghost use Rattle.c99_tree.specs.WellFormed as spec;

use c99_tree::{CDef, CProto, CRing, CTy, CVar, is_element, is_ring_name};
use sm_io::is_name;

pub fn has_names_type(ty: &CTy) -> bool
    ensures { result ≡ spec.has_names_type ty.now }
{
    match ty {
        CTy::Scalar(_) => true,
        CTy::Struct(x) => is_name(x.bytes()),
        CTy::Array(x, _) => is_element(x),
    }
}

pub fn has_names_var(x: &CVar) -> bool
    ensures { result ≡ spec.has_names_var x.now }
{
    is_name(x.name.bytes()) && has_names_type(&x.ty)
}

pub fn has_names_def(def: &CDef) -> bool
    ensures { result ≡ spec.has_names_def def.now }
{
    match def {
        CDef::Struct { name, fields } => is_name(name.bytes())
            && have_names_vars(fields.as_slice()),
        CDef::Array { elem, n: _ } => is_element(elem),
    }
}

pub fn have_names_vars(vars: &[CVar]) -> bool
    ensures { result ≡ list_all spec.has_names_var vars.now }
{
    vars.iter().all(|x| has_names_var(x))
}

fn have_names_types(types: &[CTy]) -> bool
    ensures { result ≡ list_all spec.has_names_type types.now }
{
    types.iter().all(|t| has_names_type(t))
}

pub fn has_names_handler(h: &CProto) -> bool
    ensures { result ≡ spec.has_names_handler h.now }
{
    is_name(h.name.bytes()) && have_names_types(h.params.as_slice())
}

pub fn has_names_ring(r: &CRing) -> bool
    ensures { result ≡ spec.has_names_ring r.now }
{
    is_ring_name(&r.name) && has_names_type(&r.ty)
}
