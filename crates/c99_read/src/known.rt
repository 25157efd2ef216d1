// The lines of a source that follow from its header.
ghost use Rattle.std.specs.Prelude.{◌≡◌, ◌++◌, codes, Some};
ghost use Rattle.std.specs.List.{flat_map};
ghost use Rattle.c99_tree.specs.Lookup.{arrays_in};
ghost use Rattle.c99_tree.specs.Spelling.{array_text, type_text, pick_line, copy_line};
ghost use Rattle.c99_read.specs.Front as parts;
ghost use Rattle.c99_read.specs.Gives.{Gives};
ghost use Rattle.c99_read.specs.LineAt as spec;
ghost use Rattle.c99_read.specs.UnitAt as units;

use crate::fault::ReadFault;
use crate::front::{behind, behind_three};
use crate::heading::Header;
use crate::lines::{behind_element, behind_number, behind_struct};
use c99_tree::{CDef, CTy, CVar, scalar_name};
use sm_io::Name;

fn behind_name<'a>(name: &Name, bytes: &'a [u8]) -> Result<&'a [u8], ReadFault>
    ensures { Gives (λ r. r.now) result (parts.behind name.now bytes.now) }
{
    behind(name.bytes(), bytes)
}

// The type of an array.
fn array_at<'a>(x: &Name, n: u32, bytes: &'a [u8]) -> Result<&'a [u8], ReadFault>
    ensures { Gives (λ r. r.now) result (spec.array_at x.now n bytes.now) }
{
    let rest = behind(b"struct cp_arr_", bytes)?;
    let rest = behind_name(x, rest)?;
    let rest = behind(b"_", rest)?;
    behind_number(n, rest)
}

// The name of the function that reads an element.
fn pick_name_at<'a>(x: &Name, n: u32, bytes: &'a [u8]) -> Result<&'a [u8], ReadFault>
    ensures { Gives (λ r. r.now) result (spec.pick_name_at x.now n bytes.now) }
{
    let rest = behind(b"static ", bytes)?;
    let rest = behind_element(x, rest)?;
    let rest = behind(b" cp_ix_", rest)?;
    let rest = behind_name(x, rest)?;
    let rest = behind(b"_", rest)?;
    behind_number(n, rest)
}

// The function that reads an element.
fn pick_at<'a>(x: &Name, n: u32, bytes: &'a [u8]) -> Result<&'a [u8], ReadFault>
    ensures { Gives (λ r. r.now) result (spec.pick_at x.now n bytes.now) }
{
    let rest = pick_name_at(x, n, bytes)?;
    let rest = behind(b"(", rest)?;
    let rest = array_at(x, n, rest)?;
    behind(b" cp_a, uint32_t cp_k) { return cp_a.e[cp_k]; }\n", rest)
}

fn pick_of<'a>(def: &CDef, bytes: &'a [u8]) -> Result<&'a [u8], ReadFault>
    ensures { Gives (λ r. r.now) result (spec.pick_of def.now bytes.now) }
{
    match def {
        CDef::Struct { name: _, fields: _ } => Ok(bytes),
        CDef::Array { elem, n } => pick_at(elem, *n, bytes),
    }
}

fn picks_at<'a>(types: &[CDef], bytes: &'a [u8]) -> Result<&'a [u8], ReadFault>
    ensures { Gives (λ r. r.now) result (parts.behind (flat_map pick_line (arrays_in types.now)) bytes.now) }
{
    let mut rest = bytes;
    for def in types {
        let after = pick_of(def, rest)?;
        rest = after;
    }
    Ok(rest)
}

// A type that is known.
fn behind_type<'a>(ty: &CTy, bytes: &'a [u8]) -> Result<&'a [u8], ReadFault>
    ensures { Gives (λ r. r.now) result (parts.behind (type_text ty.now) bytes.now) }
{
    match ty {
        CTy::Scalar(t) => behind(scalar_name(*t), bytes),
        CTy::Struct(x) => behind_struct(x, bytes),
        CTy::Array(x, n) => behind_array(x, *n, bytes),
    }
}

fn behind_array<'a>(x: &Name, n: u32, bytes: &'a [u8]) -> Result<&'a [u8], ReadFault>
    ensures { Gives (λ r. r.now) result (parts.behind (array_text x.now n) bytes.now) }
{
    array_at(x, n, bytes)
}

// The copy of an extern.
fn copy_of<'a>(x: &CVar, bytes: &'a [u8]) -> Result<&'a [u8], ReadFault>
    ensures { Gives (λ r. r.now) result (spec.copy_of x.now bytes.now) }
{
    let rest = behind(b"static ", bytes)?;
    let rest = behind_type(&x.ty, rest)?;
    let rest = behind(b" cp_c_", rest)?;
    let rest = behind_name(&x.name, rest)?;
    behind(b";\n", rest)
}

fn copies_at<'a>(externs: &[CVar], bytes: &'a [u8]) -> Result<&'a [u8], ReadFault>
    ensures { Gives (λ r. r.now) result (parts.behind (flat_map copy_line externs.now) bytes.now) }
{
    let mut rest = bytes;
    for x in externs {
        let after = copy_of(x, rest)?;
        rest = after;
    }
    Ok(rest)
}

fn include_at<'a>(name: &Name, bytes: &'a [u8]) -> Result<&'a [u8], ReadFault>
    ensures { Gives (λ r. r.now) result (parts.behind (codes "#include \"" ++ name.now ++ codes ".h\"\n") bytes.now) }
{
    behind_three(b"#include \"", name.bytes(), b".h\"\n", bytes)
}

// What stands behind the lines that follow from the header.
#[tactic(auto, unfolding(crate::specs::UnitAt::known_at))]
pub fn known_at<'a>(header: &Header, bytes: &'a [u8]) -> Result<&'a [u8], ReadFault>
    ensures { Gives (λ r. r.now) result (units.known_at header.now bytes.now) }
{
    let rest = include_at(&header.name, bytes)?;
    let rest = picks_at(header.types.as_slice(), rest)?;
    copies_at(header.externs.as_slice(), rest)
}
