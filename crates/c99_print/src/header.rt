// The header.
ghost use Rattle.std.specs.Prelude.{◌++◌, map, codes, decimal, is_ok};
ghost use Rattle.std.specs.List.{flat_map};
ghost use Rattle.sm_io.specs.Written.{WritesText};
ghost use Rattle.c99_tree.specs.Spelling as spelling;
ghost use Rattle.c99_tree.specs.WellFormed.{IsWellFormed};
ghost use Rattle.c99_tree.specs.declared.types.CDef.TheVariants as def;
ghost use Rattle.sm_print.specs.Prints.{Prints};

use crate::types::{array_name, element_name, type_name};
use c99_tree::{CDef, CProto, CTy, CVar, Unit};
use sm_io::{Failed, Name, Sink};
use sm_print::Printer;

fn field<K: Sink>(out: &mut Printer<'_, K>, x: &CVar)
    ensures { Prints K.taken K.faults out.old (spelling.field_text x.now) out.new }
{
    out.put(b" ");
    type_name(out, &x.ty);
    out.put(b" ");
    out.put(x.name.bytes());
    out.put(b";");
}

fn struct_fields<K: Sink>(out: &mut Printer<'_, K>, fields: &[CVar])
    ensures { Prints K.taken K.faults out.old (flat_map spelling.field_text fields.now) out.new }
{
    for x in fields {
        field(out, x);
    }
}

fn struct_line<K: Sink>(out: &mut Printer<'_, K>, x: &Name, fields: &[CVar])
    ensures { Prints K.taken K.faults out.old (spelling.type_line (def.Struct x.now fields.now)) out.new }
{
    out.put(b"struct ");
    out.put(x.bytes());
    out.put(b" {");
    struct_fields(out, fields);
    out.put(b" };\n");
}

fn array_line<K: Sink>(out: &mut Printer<'_, K>, x: &Name, n: u32)
    ensures { Prints K.taken K.faults out.old (spelling.type_line (def.Array x.now n)) out.new }
{
    array_name(out, x, n);
    out.put(b" { ");
    element_name(out, x);
    out.put(b" e[");
    out.number(u64::from(n));
    out.put(b"]; };\n");
}

fn type_line<K: Sink>(out: &mut Printer<'_, K>, def: &CDef)
    ensures { Prints K.taken K.faults out.old (spelling.type_line def.now) out.new }
{
    match def {
        CDef::Struct { name, fields } => struct_line(out, name, fields.as_slice()),
        CDef::Array { elem, n } => array_line(out, elem, *n),
    }
}

fn type_lines<K: Sink>(out: &mut Printer<'_, K>, types: &[CDef])
    ensures { Prints K.taken K.faults out.old (flat_map spelling.type_line types.now) out.new }
{
    for def in types {
        type_line(out, def);
    }
}

fn extern_line<K: Sink>(out: &mut Printer<'_, K>, x: &CVar)
    ensures { Prints K.taken K.faults out.old (spelling.extern_line x.now) out.new }
{
    out.put(b"extern ");
    type_name(out, &x.ty);
    out.put(b" ");
    out.put(x.name.bytes());
    out.put(b";\n");
}

fn extern_lines<K: Sink>(out: &mut Printer<'_, K>, externs: &[CVar])
    ensures { Prints K.taken K.faults out.old (flat_map spelling.extern_line externs.now) out.new }
{
    for x in externs {
        extern_line(out, x);
    }
}

fn type_names<K: Sink>(out: &mut Printer<'_, K>, types: &[CTy])
    ensures { Prints K.taken K.faults out.old (spelling.with_commas (map spelling.type_text types.now)) out.new }
{
    let mut before: &[u8] = b"";
    for t in types {
        out.put(before);
        type_name(out, t);
        before = b", ";
    }
}

fn params<K: Sink>(out: &mut Printer<'_, K>, params: &[CTy])
    ensures { Prints K.taken K.faults out.old (spelling.params_text params.now) out.new }
{
    if params.is_empty() {
        out.put(b"void");
    } else {
        type_names(out, params);
    }
}

fn handler_line<K: Sink>(out: &mut Printer<'_, K>, h: &CProto)
    ensures { Prints K.taken K.faults out.old (spelling.handler_line h.now) out.new }
{
    out.put(b"void ");
    out.put(h.name.bytes());
    out.put(b"(");
    params(out, h.params.as_slice());
    out.put(b");\n");
}

fn handler_lines<K: Sink>(out: &mut Printer<'_, K>, handlers: &[CProto])
    ensures { Prints K.taken K.faults out.old (flat_map spelling.handler_line handlers.now) out.new }
{
    for h in handlers {
        handler_line(out, h);
    }
}

// The line of the guard against a second inclusion.
fn guard_line<K: Sink>(out: &mut Printer<'_, K>, word: &[u8], name: &Name)
    ensures { Prints K.taken K.faults out.old (spelling.line (word.now ++ codes " CP_" ++ name.now ++ codes "_H")) out.new }
{
    out.put(word);
    out.put(b" CP_");
    out.put(name.bytes());
    out.put(b"_H\n");
}

// The line of the storage and of the need.
fn totals_line<K: Sink>(out: &mut Printer<'_, K>, unit: &Unit)
    ensures { let front = codes "enum { cp_storage = " ++ decimal unit.now.storage in
        let text = spelling.line (front ++ codes ", cp_need = " ++ decimal unit.now.need ++ codes " };") in
        Prints K.taken K.faults out.old text out.new }
{
    out.put(b"enum { cp_storage = ");
    out.number(u64::from(unit.storage));
    out.put(b", cp_need = ");
    out.number(u64::from(unit.need));
    out.put(b" };\n");
}

fn header_lines<K: Sink>(out: &mut Printer<'_, K>, unit: &Unit)
    ensures { Prints K.taken K.faults out.old (spelling.header_text unit.now) out.new }
{
    guard_line(out, b"#ifndef", &unit.name);
    guard_line(out, b"#define", &unit.name);
    out.put(b"#include <stdint.h>\n");
    out.put(b"#include <stdbool.h>\n");
    totals_line(out, unit);
    type_lines(out, unit.types.as_slice());
    extern_lines(out, unit.externs.as_slice());
    handler_lines(out, unit.handlers.as_slice());
    out.put(b"void step(void);\n");
    out.put(b"#endif\n");
}

/// Writes the header of a well formed unit, NAME.h: the guard against a second inclusion, the two includes, the numbers
/// `cp_storage` and `cp_need`, a line for each type, extern and handler, and `step`. On `Ok` the sink took exactly this
/// text, and on `Failed` a prefix of it, and its count of faults rose.
pub fn print_header<K: Sink>(unit: &Unit, sink: &mut K) -> Result<(), Failed>
    requires well_formed { IsWellFormed unit.now }
    ensures text { WritesText (K.taken sink.old) (K.taken sink.new) (K.faults sink.old) (K.faults sink.new) (is_ok result) (spelling.header_text unit.now) }
{
    let mut printer = Printer::new(sink);
    header_lines(&mut printer, unit);
    printer.outcome()
}
