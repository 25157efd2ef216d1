// Expressions as they are written.
ghost use Rattle.std.specs.Prelude.{◌++◌, [], map, codes, decimal};
ghost use Rattle.c99_tree.specs.Tree.{tree, exprs, ring_at, un, cast, field, arr, rec};
ghost use Rattle.c99_tree.specs.Spelling.{text, parted, suffix, operator};
ghost use Rattle.sm_print.specs.Prints.{Prints};

use crate::types::{array_name, pick_name};
use c99_tree::{CBin, CExpr, CLit, CScalar, CUn, operator, scalar_name, sign, suffix};
use sm_io::{Name, Sink};
use sm_print::Printer;

fn literal<K: Sink>(out: &mut Printer<'_, K>, kind: CLit, n: u64)
    ensures { Prints K.taken K.faults out.old (decimal n ++ suffix kind) out.new }
{
    out.number(n);
    out.put(suffix(kind));
}

// A name behind the letters of its kind.
fn named<K: Sink>(out: &mut Printer<'_, K>, kind: &[u8], name: &Name)
    ensures { Prints K.taken K.faults out.old (kind.now ++ name.now) out.new }
{
    out.put(kind);
    out.put(name.bytes());
}

fn spaced_operator<K: Sink>(out: &mut Printer<'_, K>, op: CBin)
    ensures { Prints K.taken K.faults out.old (codes " " ++ operator op ++ codes " ") out.new }
{
    out.put(b" ");
    out.put(operator(op));
    out.put(b" ");
}

// One row for each form.
#[cycle(printing)]
pub fn expr<K: Sink>(out: &mut Printer<'_, K>, e: &CExpr)
    ensures { Prints K.taken K.faults out.old (text (tree e.now)) out.new }
{
    match e {
        CExpr::Lit(kind, n) => literal(out, *kind, *n),
        CExpr::True => out.put(b"true"),
        CExpr::False => out.put(b"false"),
        CExpr::Copy(x) => named(out, b"cp_c_", x),
        CExpr::Head(r) => named(out, b"cp_i_", r),
        CExpr::Cell(r) => named(out, b"cp_b_", r),
        CExpr::RingAt(r, a) => ring_element(out, r, a.get()),
        CExpr::Un(op, a) => unary(out, *op, a.get()),
        CExpr::Bin(op, a, b) => {
            behind(out, b"(", a.get());
            spaced_operator(out, *op);
            expr(out, b.get());
            out.put(b")");
        }
        CExpr::Cond(c, a, b) => {
            behind(out, b"(", c.get());
            behind(out, b" ? ", a.get());
            behind(out, b" : ", b.get());
            out.put(b")");
        }
        CExpr::Cast(ty, a) => cast(out, *ty, a.get()),
        CExpr::Field(a, x) => member(out, a.get(), x),
        CExpr::Pick(x, n, a, i) => {
            pick_name(out, x, *n);
            behind(out, b"(", a.get());
            behind(out, b", ", i.get());
            out.put(b")");
        }
        CExpr::Arr(x, n, all) => array_literal(out, x, *n, all.as_slice()),
        CExpr::Rec(x, all) => struct_literal(out, x, all.as_slice()),
    }
}

// An expression behind some bytes.
#[cycle(printing)]
fn behind<K: Sink>(out: &mut Printer<'_, K>, before: &[u8], e: &CExpr)
    ensures { Prints K.taken K.faults out.old (before.now ++ text (tree e.now)) out.new }
{
    out.put(before);
    expr(out, e);
}

#[cycle(printing)]
fn ring_element<K: Sink>(out: &mut Printer<'_, K>, r: &Name, a: &CExpr)
    ensures { Prints K.taken K.faults out.old (text (ring_at r.now (tree a.now))) out.new }
{
    named(out, b"cp_b_", r);
    out.put(b"[");
    expr(out, a);
    out.put(b"]");
}

#[cycle(printing)]
fn unary<K: Sink>(out: &mut Printer<'_, K>, op: CUn, a: &CExpr)
    ensures { Prints K.taken K.faults out.old (text (un op (tree a.now))) out.new }
{
    out.put(b"(");
    out.put(sign(op));
    expr(out, a);
    out.put(b")");
}

#[cycle(printing)]
fn cast<K: Sink>(out: &mut Printer<'_, K>, ty: CScalar, a: &CExpr)
    ensures { Prints K.taken K.faults out.old (text (cast ty (tree a.now))) out.new }
{
    out.put(b"((");
    out.put(scalar_name(ty));
    out.put(b")");
    expr(out, a);
    out.put(b")");
}

#[cycle(printing)]
fn member<K: Sink>(out: &mut Printer<'_, K>, a: &CExpr, x: &Name)
    ensures { Prints K.taken K.faults out.old (text (field (tree a.now) x.now)) out.new }
{
    out.put(b"(");
    expr(out, a);
    out.put(b".");
    out.put(x.bytes());
    out.put(b")");
}

#[cycle(printing)]
fn array_literal<K: Sink>(out: &mut Printer<'_, K>, x: &Name, n: u32, all: &[CExpr])
    ensures { Prints K.taken K.faults out.old (text (arr x.now n (exprs (map tree all.now)))) out.new }
{
    out.put(b"((");
    array_name(out, x, n);
    out.put(b"){ { ");
    listed(out, all);
    out.put(b" } })");
}

#[cycle(printing)]
fn struct_literal<K: Sink>(out: &mut Printer<'_, K>, x: &Name, all: &[CExpr])
    ensures { Prints K.taken K.faults out.old (text (rec x.now (exprs (map tree all.now)))) out.new }
{
    named(out, b"((struct ", x);
    out.put(b"){ ");
    listed(out, all);
    out.put(b" })");
}

// Some expressions with commas between them.
#[cycle(printing)]
pub fn listed<K: Sink>(out: &mut Printer<'_, K>, all: &[CExpr])
    ensures { Prints K.taken K.faults out.old (parted [] (exprs (map tree all.now))) out.new }
{
    let mut before: &[u8] = b"";
    for e in all {
        out.put(before);
        expr(out, e);
        before = b", ";
    }
}
