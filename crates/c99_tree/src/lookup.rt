// What a name of a unit stands for.
ghost use Rattle.std.specs.Prelude.{◌≡◌, ℕ, List};
ghost use Rattle.std.specs.List.{find};
ghost use Rattle.c99_tree.specs.Words as words;
ghost use Rattle.c99_tree.specs.Lookup as spec;
ghost use Rattle.c99_tree.specs.declared.types.CTy.TheVariants as ty;

use crate::types::{CDef, CProto, CTy, CVar};
use crate::unit::{CRing, Unit};
use sm_io::Name;

/// Whether two names are the same.
pub fn is_same(x: &Name, y: &Name) -> bool
    ensures { result ≡ words.is_same x.now y.now }
{
    x.bytes() == y.bytes()
}

/// What is declared by a name.
pub trait Named {
    ghost named: { Self → List ℕ };

    fn name(&self) -> &Name
        ensures { result.now ≡ named self.now };
}

impl Named for CVar {
    ghost named = { λ v. v.name };

    fn name(&self) -> &Name {
        &self.name
    }
}

impl Named for CProto {
    ghost named = { λ h. h.name };

    fn name(&self) -> &Name {
        &self.name
    }
}

impl Named for CRing {
    ghost named = { λ r. r.name };

    fn name(&self) -> &Name {
        &self.name
    }
}

// The first of this name.
fn first_named<'a, T: Named>(all: &'a [T], x: &Name) -> Option<&'a T>
    ensures { spec.Lends result (find (λ y. words.is_same x.now (T.named y)) all.now) }
{
    for y in all {
        if is_same(x, y.name()) {
            return Some(y);
        }
    }
    None
}

/// The first variable of this name.
pub fn var_of<'a>(vars: &'a [CVar], x: &Name) -> Option<&'a CVar>
    ensures { spec.Lends result (spec.var_of vars.now x.now) }
{
    first_named(vars, x)
}

/// The members of the first struct of this name.
pub fn fields_of<'a>(types: &'a [CDef], x: &Name) -> Option<&'a [CVar]>
    ensures { spec.Lends result (spec.fields_of types.now x.now) }
{
    for def in types {
        if let CDef::Struct { name, fields } = def {
            if is_same(x, name) {
                return Some(fields.as_slice());
            }
        }
    }
    None
}

/// The first ring of this name.
pub fn ring_of<'a>(unit: &'a Unit, x: &Name) -> Option<&'a CRing>
    ensures { spec.Lends result (spec.ring_of unit.now x.now) }
{
    first_named(unit.rings.as_slice(), x)
}

/// The first handler of this name.
pub fn handler_of<'a>(unit: &'a Unit, x: &Name) -> Option<&'a CProto>
    ensures { spec.Lends result (spec.handler_of unit.now x.now) }
{
    first_named(unit.handlers.as_slice(), x)
}

/// Whether a struct of this name is defined.
pub fn has_struct(types: &[CDef], x: &Name) -> bool
    ensures { result ≡ spec.is_defined types.now (ty.Struct x.now) }
{
    for def in types {
        if let CDef::Struct { name, fields: _ } = def {
            if is_same(x, name) {
                return true;
            }
        }
    }
    false
}

/// Whether an array type of this word and length is defined.
pub fn has_array(types: &[CDef], x: &Name, n: u32) -> bool
    ensures { result ≡ spec.is_defined types.now (ty.Array x.now n) }
{
    for def in types {
        if let CDef::Array { elem, n: m } = def {
            if is_same(x, elem) && n == *m {
                return true;
            }
        }
    }
    false
}

/// Whether a type is defined.
pub fn is_defined(types: &[CDef], ty: &CTy) -> bool
    ensures { result ≡ spec.is_defined types.now ty.now }
{
    match ty {
        CTy::Scalar(_) => true,
        CTy::Struct(x) => has_struct(types, x),
        CTy::Array(x, n) => has_array(types, x, *n),
    }
}
