// Expressions as they are written.
ghost use Rattle.std.specs.Prelude.{◌++◌, None, map, codes, decimal};
ghost use Rattle.std.specs.List.{flat_map};
ghost use Rattle.spec_text.specs.Form.{form_of_expr, form_of_type, headed, word, number, forms, with_one, with_two, with_three, more};
ghost use Rattle.spec_text.specs.Canonical.{text};
ghost use Rattle.sm_print.specs.Prints.{Prints};

use crate::constants::literal;
use crate::lists::{opened, spaced, spaced_number};
use crate::types::spaced_type;
use sm_io::{Name, Sink};
use sm_print::Printer;
use spec_text::{Expr, TypeForm};
use spec_words::{dir_word, op1_word, op2_word};

fn drop_form<K: Sink>(out: &mut Printer<'_, K>, k: u32, name: &Name)
    ensures { Prints K.taken K.faults out.old (text (with_two 0 (codes "drop") (number k) (word None name.now))) out.new }
{
    opened(out, b"drop");
    spaced_number(out, k);
    spaced(out, name.bytes());
    out.put(b")");
}

fn clock_form<K: Sink>(out: &mut Printer<'_, K>, period: u32, phase: u32)
    ensures { Prints K.taken K.faults out.old (text (with_two 0 (codes "clock") (number period) (number phase))) out.new }
{
    opened(out, b"clock");
    spaced_number(out, period);
    spaced_number(out, phase);
    out.put(b")");
}

// A bracket, the word of a form, and its bounds.
fn bounds<K: Sink>(out: &mut Printer<'_, K>, head: &[u8], low: u32, high: u32)
    ensures { Prints K.taken K.faults out.old (codes "(" ++ head.now ++ (codes " " ++ decimal low) ++ (codes " " ++ decimal high)) out.new }
{
    opened(out, head);
    spaced_number(out, low);
    spaced_number(out, high);
}

// One row for each form.
#[cycle(printing)]
fn expr<K: Sink>(out: &mut Printer<'_, K>, e: &Expr)
    ensures { Prints K.taken K.faults out.old (text (form_of_expr e.now)) out.new }
{
    match e {
        Expr::Lit { scalar, word, .. } => literal(out, *scalar, *word),
        Expr::Name(x) => out.put(x.name.bytes()),
        Expr::Drop { k, name, .. } => drop_form(out, *k, &name.name),
        Expr::Un { op, a, .. } => form_one(out, op1_word(*op), a.get()),
        Expr::Bin { op, a, b, .. } => {
            headed(out, op2_word(*op), a.get());
            closing(out, b.get());
        }
        Expr::Shift { dir, a, count, .. } => {
            headed(out, dir_word(*dir), a.get());
            closing(out, count.get());
        }
        Expr::And { a, b, .. } => {
            headed(out, b"and", a.get());
            closing(out, b.get());
        }
        Expr::Or { a, b, .. } => {
            headed(out, b"or", a.get());
            closing(out, b.get());
        }
        Expr::Implies { a, b, .. } => {
            headed(out, b"implies", a.get());
            closing(out, b.get());
        }
        Expr::If { c, a, b, .. } => {
            headed(out, b"if", c.get());
            part(out, a.get());
            closing(out, b.get());
        }
        Expr::Cast { to, a, .. } => cast_form(out, a.get(), to),
        Expr::Abs { a, .. } => form_one(out, b"abs", a.get()),
        Expr::Sign { a, .. } => form_one(out, b"sign", a.get()),
        Expr::Index { a, i, .. } => {
            headed(out, b"index", a.get());
            closing(out, i.get());
        }
        Expr::Field { a, member, .. } => field_form(out, a.get(), &member.name),
        Expr::Array { items, .. } => items_form(out, b"array", items.as_slice()),
        Expr::Record { name, items, .. } => record_form(out, &name.name, items.as_slice()),
        Expr::Once { p, .. } => form_one(out, b"once", p.get()),
        Expr::Historically { p, .. } => form_one(out, b"historically", p.get()),
        Expr::Yesterday { p, .. } => form_one(out, b"yesterday", p.get()),
        Expr::WeaklyYesterday { p, .. } => form_one(out, b"weakly-yesterday", p.get()),
        Expr::Since { p, q, .. } => {
            headed(out, b"since", p.get());
            closing(out, q.get());
        }
        Expr::OnceIn { low, high, p, .. } => bounded_form(out, b"once-in", *low, *high, p.get()),
        Expr::HistoricallyIn { low, high, p, .. } => {
            bounded_form(out, b"historically-in", *low, *high, p.get());
        }
        Expr::SinceIn {
            low,
            high,
            p,
            q,
            ..
        } => {
            bounds(out, b"since-in", *low, *high);
            part(out, p.get());
            closing(out, q.get());
        }
        Expr::Clock { period, phase, .. } => clock_form(out, *period, *phase),
        Expr::Majority { items, .. } => items_form(out, b"majority", items.as_slice()),
        Expr::Agreed { items, .. } => items_form(out, b"agreed", items.as_slice()),
        Expr::WindowMax { n, e, .. } => window_form(out, b"window-max", *n, e.get()),
        Expr::WindowMin { n, e, .. } => window_form(out, b"window-min", *n, e.get()),
        Expr::WindowSum { n, e, .. } => window_form(out, b"window-sum", *n, e.get()),
    }
}

// A further item that is an expression.
#[cycle(printing)]
pub fn part<K: Sink>(out: &mut Printer<'_, K>, e: &Expr)
    ensures { Prints K.taken K.faults out.old (codes " " ++ text (form_of_expr e.now)) out.new }
{
    out.put(b" ");
    expr(out, e);
}

#[cycle(printing)]
pub fn parts<K: Sink>(out: &mut Printer<'_, K>, all: &[Expr])
    ensures { Prints K.taken K.faults out.old (flat_map (λ x. codes " " ++ text (form_of_expr x)) all.now) out.new }
{
    for e in all {
        part(out, e);
    }
}

// A bracket, the word of a form, and its first operand.
#[cycle(printing)]
fn headed<K: Sink>(out: &mut Printer<'_, K>, head: &[u8], a: &Expr)
    ensures { Prints K.taken K.faults out.old (codes "(" ++ head.now ++ (codes " " ++ text (form_of_expr a.now))) out.new }
{
    opened(out, head);
    part(out, a);
}

// The last operand of a form, and its bracket.
#[cycle(printing)]
fn closing<K: Sink>(out: &mut Printer<'_, K>, a: &Expr)
    ensures { Prints K.taken K.faults out.old (codes " " ++ text (form_of_expr a.now) ++ codes ")") out.new }
{
    part(out, a);
    out.put(b")");
}

#[cycle(printing)]
fn form_one<K: Sink>(out: &mut Printer<'_, K>, head: &[u8], a: &Expr)
    ensures { Prints K.taken K.faults out.old (text (with_one 0 head.now (form_of_expr a.now))) out.new }
{
    headed(out, head, a);
    out.put(b")");
}

#[cycle(printing)]
fn cast_form<K: Sink>(out: &mut Printer<'_, K>, a: &Expr, to: &TypeForm)
    ensures { Prints K.taken K.faults out.old (text (with_two 0 (codes "cast") (form_of_type to.now) (form_of_expr a.now))) out.new }
{
    opened(out, b"cast");
    spaced_type(out, to);
    closing(out, a);
}

#[cycle(printing)]
fn field_form<K: Sink>(out: &mut Printer<'_, K>, a: &Expr, member: &Name)
    ensures { Prints K.taken K.faults out.old (text (with_two 0 (codes "field") (form_of_expr a.now) (word None member.now))) out.new }
{
    headed(out, b"field", a);
    spaced(out, member.bytes());
    out.put(b")");
}

#[cycle(printing)]
fn items_form<K: Sink>(out: &mut Printer<'_, K>, head: &[u8], all: &[Expr])
    ensures { Prints K.taken K.faults out.old (text (headed None head.now (forms (map form_of_expr all.now)))) out.new }
{
    opened(out, head);
    parts(out, all);
    out.put(b")");
}

#[cycle(printing)]
fn record_form<K: Sink>(out: &mut Printer<'_, K>, name: &Name, all: &[Expr])
    ensures { Prints K.taken K.faults out.old (text (headed None (codes "record") (more (word None name.now) (forms (map form_of_expr all.now))))) out.new }
{
    opened(out, b"record");
    spaced(out, name.bytes());
    parts(out, all);
    out.put(b")");
}

#[cycle(printing)]
fn bounded_form<K: Sink>(out: &mut Printer<'_, K>, head: &[u8], low: u32, high: u32, p: &Expr)
    ensures { Prints K.taken K.faults out.old (text (with_three 0 head.now (number low) (number high) (form_of_expr p.now))) out.new }
{
    bounds(out, head, low, high);
    closing(out, p);
}

#[cycle(printing)]
fn window_form<K: Sink>(out: &mut Printer<'_, K>, head: &[u8], n: u32, e: &Expr)
    ensures { Prints K.taken K.faults out.old (text (with_two 0 head.now (number n) (form_of_expr e.now))) out.new }
{
    opened(out, head);
    spaced_number(out, n);
    closing(out, e);
}
