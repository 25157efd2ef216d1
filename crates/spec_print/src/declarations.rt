// Declarations as they are written.
ghost use Rattle.std.specs.Prelude.{◌++◌, None, map, codes};
ghost use Rattle.std.specs.List.{flat_map};
ghost use Rattle.spec_text.specs.Form.{form_of_expr, form_of_type, form_of_const, form_of_field, form_of_decl};
ghost use Rattle.spec_text.specs.Form.{headed, word, form, forms, with_two, with_three, more, none};
ghost use Rattle.spec_text.specs.Canonical.{text, decl_line};
ghost use Rattle.sm_print.specs.Prints.{Prints};

use crate::constants::initial;
use crate::expressions::{part, parts};
use crate::lists::{opened, spaced};
use crate::types::spaced_type;
use sm_io::{Name, Sink};
use sm_print::Printer;
use spec_text::{ConstForm, Decl, Expr, FieldForm, TypeForm};

fn field<K: Sink>(out: &mut Printer<'_, K>, x: &FieldForm)
    ensures { Prints K.taken K.faults out.old (codes " " ++ text (form_of_field x.now)) out.new }
{
    out.put(b" (");
    out.put(x.name.name.bytes());
    spaced_type(out, &x.ty);
    out.put(b")");
}

fn fields<K: Sink>(out: &mut Printer<'_, K>, all: &[FieldForm])
    ensures { Prints K.taken K.faults out.old (flat_map (λ x. codes " " ++ text (form_of_field x)) all.now) out.new }
{
    for x in all {
        field(out, x);
    }
}

fn struct_decl<K: Sink>(out: &mut Printer<'_, K>, name: &Name, all: &[FieldForm])
    ensures { Prints K.taken K.faults out.old (text (headed None (codes "struct") (more (word None name.now) (forms (map form_of_field all.now))))) out.new }
{
    opened(out, b"struct");
    spaced(out, name.bytes());
    fields(out, all);
    out.put(b")");
}

fn extern_decl<K: Sink>(out: &mut Printer<'_, K>, name: &Name, ty: &TypeForm)
    ensures { Prints K.taken K.faults out.old (text (with_two 0 (codes "extern") (word None name.now) (form_of_type ty.now))) out.new }
{
    opened(out, b"extern");
    spaced(out, name.bytes());
    spaced_type(out, ty);
    out.put(b")");
}

fn stream_decl<K: Sink>(
    out: &mut Printer<'_, K>,
    name: &Name,
    ty: &TypeForm,
    init: &[ConstForm],
    e: &Expr,
)
    ensures { let values = form None (forms (map form_of_const init.now)) in
        let rest = more (form_of_type ty.now) (more values (more (form_of_expr e.now) none)) in
        Prints K.taken K.faults out.old (text (headed None (codes "stream") (more (word None name.now) rest))) out.new }
{
    opened(out, b"stream");
    spaced(out, name.bytes());
    spaced_type(out, ty);
    initial(out, init);
    part(out, e);
    out.put(b")");
}

fn def_decl<K: Sink>(out: &mut Printer<'_, K>, name: &Name, ty: &TypeForm, e: &Expr)
    ensures { Prints K.taken K.faults out.old (text (with_three 0 (codes "def") (word None name.now) (form_of_type ty.now) (form_of_expr e.now))) out.new }
{
    opened(out, b"def");
    spaced(out, name.bytes());
    spaced_type(out, ty);
    part(out, e);
    out.put(b")");
}

fn trigger_decl<K: Sink>(out: &mut Printer<'_, K>, name: &Name, guard: &Expr, args: &[Expr])
    ensures { let rest = more (form_of_expr guard.now) (forms (map form_of_expr args.now)) in
        Prints K.taken K.faults out.old (text (headed None (codes "trigger") (more (word None name.now) rest))) out.new }
{
    opened(out, b"trigger");
    spaced(out, name.bytes());
    part(out, guard);
    parts(out, args);
    out.put(b")");
}

fn observer_decl<K: Sink>(out: &mut Printer<'_, K>, name: &Name, e: &Expr)
    ensures { Prints K.taken K.faults out.old (text (with_two 0 (codes "observer") (word None name.now) (form_of_expr e.now))) out.new }
{
    opened(out, b"observer");
    spaced(out, name.bytes());
    part(out, e);
    out.put(b")");
}

// One row for each form.
fn decl<K: Sink>(out: &mut Printer<'_, K>, d: &Decl)
    ensures { Prints K.taken K.faults out.old (text (form_of_decl d.now)) out.new }
{
    match d {
        Decl::Struct { name, fields, .. } => struct_decl(out, &name.name, fields.as_slice()),
        Decl::Extern { name, ty, .. } => extern_decl(out, &name.name, ty),
        Decl::Stream {
            name,
            ty,
            init,
            expr,
            ..
        } => {
            stream_decl(out, &name.name, ty, init.as_slice(), expr);
        }
        Decl::Def { name, ty, expr, .. } => def_decl(out, &name.name, ty, expr),
        Decl::Trigger {
            name,
            guard,
            args,
            ..
        } => {
            trigger_decl(out, &name.name, guard, args.as_slice());
        }
        Decl::Observer { name, expr, .. } => observer_decl(out, &name.name, expr),
    }
}

// Each declaration on a line of its own.
pub fn decl_lines<K: Sink>(out: &mut Printer<'_, K>, all: &[Decl])
    ensures { Prints K.taken K.faults out.old (flat_map decl_line all.now) out.new }
{
    for d in all {
        out.put(b"\n  ");
        decl(out, d);
    }
}
