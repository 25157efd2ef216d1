// The source.
ghost use Rattle.std.specs.Prelude.{◌≡◌, ◌++◌, [], codes, is_ok, false, IsSome, IsTrue, is_some};
ghost use Rattle.std.specs.Option.{option_map_or};
ghost use Rattle.std.specs.List.{flat_map, list_all};
ghost use Rattle.sm_io.specs.Written.{WritesText};
ghost use Rattle.c99_tree.specs.Lookup.{named_array};
ghost use Rattle.c99_tree.specs.Values.{first_values};
ghost use Rattle.c99_tree.specs.Spelling as spelling;
ghost use Rattle.c99_tree.specs.WellFormed.{IsWellFormed};
ghost use Rattle.sm_print.specs.Prints.{Prints};

use crate::constants::first_values;
use crate::statements::statements;
use crate::types::{array_name, element_name, type_name};
use c99_tree::{CDef, CRing, CVar, Unit};
use sm_io::{Failed, Name, Sink};
use sm_print::Printer;

// The function that reads an element of an array.
fn pick_line<K: Sink>(out: &mut Printer<'_, K>, x: &Name, n: u32)
    ensures { Prints K.taken K.faults out.old (spelling.pick_line (x.now, n)) out.new }
{
    out.put(b"static ");
    element_name(out, x);
    out.put(b" cp_ix_");
    out.put(x.bytes());
    out.put(b"_");
    out.number(u64::from(n));
    out.put(b"(");
    array_name(out, x, n);
    out.put(b" cp_a, uint32_t cp_k) { return cp_a.e[cp_k]; }\n");
}

// A struct has none.
fn pick_line_of<K: Sink>(out: &mut Printer<'_, K>, def: &CDef)
    ensures { Prints K.taken K.faults out.old (option_map_or spelling.pick_line (named_array def.now) []) out.new }
{
    match def {
        CDef::Struct { name, fields } => {}
        CDef::Array { elem, n } => pick_line(out, elem, *n),
    }
}

fn pick_lines<K: Sink>(out: &mut Printer<'_, K>, types: &[CDef])
    ensures { Prints K.taken K.faults out.old (flat_map (λ d. option_map_or spelling.pick_line (named_array d) []) types.now) out.new }
{
    for def in types {
        pick_line_of(out, def);
    }
}

fn copy_line<K: Sink>(out: &mut Printer<'_, K>, x: &CVar)
    ensures { Prints K.taken K.faults out.old (spelling.copy_line x.now) out.new }
{
    out.put(b"static ");
    type_name(out, &x.ty);
    out.put(b" cp_c_");
    out.put(x.name.bytes());
    out.put(b";\n");
}

fn copy_lines<K: Sink>(out: &mut Printer<'_, K>, externs: &[CVar])
    ensures { Prints K.taken K.faults out.old (flat_map spelling.copy_line externs.now) out.new }
{
    for x in externs {
        copy_line(out, x);
    }
}

fn index_line<K: Sink>(out: &mut Printer<'_, K>, r: &Name)
    ensures { Prints K.taken K.faults out.old (spelling.line (codes "static uint32_t cp_i_" ++ r.now ++ codes " = 0U;")) out.new }
{
    out.put(b"static uint32_t cp_i_");
    out.put(r.bytes());
    out.put(b" = 0U;\n");
}

// The array of a ring, and its index.
fn indexed_ring<K: Sink>(out: &mut Printer<'_, K>, types: &[CDef], r: &CRing)
    requires first { IsSome (first_values types.now r.now) }
    requires indexed { IsTrue r.now.indexed }
    ensures { Prints K.taken K.faults out.old (spelling.ring_lines types.now r.now) out.new }
{
    out.put(b"static ");
    type_name(out, &r.ty);
    out.put(b" cp_b_");
    out.put(r.name.bytes());
    out.put(b"[");
    out.number(u64::from(r.len));
    out.put(b"] = { ");
    first_values(out, types, r);
    out.put(b" };\n");
    index_line(out, &r.name);
}

// The one value of a ring without an index.
fn single_ring<K: Sink>(out: &mut Printer<'_, K>, types: &[CDef], r: &CRing)
    requires first { IsSome (first_values types.now r.now) }
    requires single { r.now.indexed ≡ false }
    ensures { Prints K.taken K.faults out.old (spelling.ring_lines types.now r.now) out.new }
{
    out.put(b"static ");
    type_name(out, &r.ty);
    out.put(b" cp_b_");
    out.put(r.name.bytes());
    out.put(b" = ");
    first_values(out, types, r);
    out.put(b";\n");
}

fn ring_lines<K: Sink>(out: &mut Printer<'_, K>, types: &[CDef], r: &CRing)
    requires { IsSome (first_values types.now r.now) }
    ensures { Prints K.taken K.faults out.old (spelling.ring_lines types.now r.now) out.new }
{
    if r.indexed {
        indexed_ring(out, types, r);
    } else {
        single_ring(out, types, r);
    }
}

fn all_ring_lines<K: Sink>(out: &mut Printer<'_, K>, types: &[CDef], rings: &[CRing])
    requires { IsTrue (list_all (λ r. is_some (first_values types.now r)) rings.now) }
    ensures { Prints K.taken K.faults out.old (flat_map (spelling.ring_lines types.now) rings.now) out.new }
{
    for r in rings {
        ring_lines(out, types, r);
    }
}

fn include_line<K: Sink>(out: &mut Printer<'_, K>, name: &Name)
    ensures { Prints K.taken K.faults out.old (spelling.line (codes "#include \"" ++ name.now ++ codes ".h\"")) out.new }
{
    out.put(b"#include \"");
    out.put(name.bytes());
    out.put(b".h\"\n");
}

fn source_lines<K: Sink>(out: &mut Printer<'_, K>, unit: &Unit)
    requires { IsWellFormed unit.now }
    ensures { Prints K.taken K.faults out.old (spelling.source_text unit.now) out.new }
{
    let types = unit.types.as_slice();
    include_line(out, &unit.name);
    pick_lines(out, types);
    copy_lines(out, unit.externs.as_slice());
    all_ring_lines(out, types, unit.rings.as_slice());
    out.put(b"void step(void)\n");
    out.put(b"{\n");
    statements(out, unit, unit.step.as_slice());
    out.put(b"}\n");
}

/// Writes the source of a well formed unit, NAME.c: the include of its header, a function that reads an element of each
/// array type, the copies of the externs, the rings with their first values, and `step`. On `Ok` the sink took exactly
/// this text, and on `Failed` a prefix of it, and its count of faults rose.
pub fn print_source<K: Sink>(unit: &Unit, sink: &mut K) -> Result<(), Failed>
    requires well_formed { IsWellFormed unit.now }
    ensures text { WritesText (K.taken sink.old) (K.taken sink.new) (K.faults sink.old) (K.faults sink.new) (is_ok result) (spelling.source_text unit.now) }
{
    let mut printer = Printer::new(sink);
    source_lines(&mut printer, unit);
    printer.outcome()
}
