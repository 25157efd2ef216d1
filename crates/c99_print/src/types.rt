// Types, and the functions on them, as they are written.
ghost use Rattle.std.specs.Prelude.{◌++◌, codes, decimal};
ghost use Rattle.c99_tree.specs.Words.{elem_type};
ghost use Rattle.c99_tree.specs.Spelling.{type_text, array_text};
ghost use Rattle.sm_print.specs.Prints.{Prints};

use c99_tree::{CTy, element_scalar, scalar_name};
use sm_io::{Name, Sink};
use sm_print::Printer;

fn struct_name<K: Sink>(out: &mut Printer<'_, K>, x: &Name)
    ensures { Prints K.taken K.faults out.old (codes "struct " ++ x.now) out.new }
{
    out.put(b"struct ");
    out.put(x.bytes());
}

pub fn array_name<K: Sink>(out: &mut Printer<'_, K>, x: &Name, n: u32)
    ensures { Prints K.taken K.faults out.old (array_text x.now n) out.new }
{
    out.put(b"struct cp_arr_");
    out.put(x.bytes());
    out.put(b"_");
    out.number(u64::from(n));
}

// The name of the function that reads an element of an array.
pub fn pick_name<K: Sink>(out: &mut Printer<'_, K>, x: &Name, n: u32)
    ensures { Prints K.taken K.faults out.old (codes "cp_ix_" ++ x.now ++ codes "_" ++ decimal n) out.new }
{
    out.put(b"cp_ix_");
    out.put(x.bytes());
    out.put(b"_");
    out.number(u64::from(n));
}

pub fn type_name<K: Sink>(out: &mut Printer<'_, K>, ty: &CTy)
    ensures { Prints K.taken K.faults out.old (type_text ty.now) out.new }
{
    match ty {
        CTy::Scalar(t) => out.put(scalar_name(*t)),
        CTy::Struct(x) => struct_name(out, x),
        CTy::Array(x, n) => array_name(out, x, *n),
    }
}

// The type of an array's elements.
pub fn element_name<K: Sink>(out: &mut Printer<'_, K>, x: &Name)
    ensures { Prints K.taken K.faults out.old (type_text (elem_type x.now)) out.new }
{
    match element_scalar(x) {
        Some(t) => out.put(scalar_name(t)),
        None => struct_name(out, x),
    }
}
