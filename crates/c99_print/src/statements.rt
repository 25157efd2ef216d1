// The statements of `step`.
ghost use Rattle.std.specs.Prelude.{map};
ghost use Rattle.std.specs.List.{flat_map};
ghost use Rattle.c99_tree.specs.Tree.{tree, exprs, statement, copies, calls, nexts, stores, moves, puts};
ghost use Rattle.c99_tree.specs.Spelling.{statement_line, type_of_ring};
ghost use Rattle.sm_print.specs.Prints.{Prints};

use crate::expr::{expr, listed};
use crate::types::type_name;
use c99_tree::{CExpr, CStmt, Unit, ring_of};
use sm_io::{Name, Sink};
use sm_print::Printer;

fn copy_statement<K: Sink>(out: &mut Printer<'_, K>, unit: &Unit, x: &Name)
    ensures { Prints K.taken K.faults out.old (statement_line unit.now (copies x.now)) out.new }
{
    out.put(b"  cp_c_");
    out.put(x.bytes());
    out.put(b" = ");
    out.put(x.bytes());
    out.put(b";\n");
}

fn call_statement<K: Sink>(
    out: &mut Printer<'_, K>,
    unit: &Unit,
    handler: &Name,
    guard: &CExpr,
    args: &[CExpr],
)
    ensures { Prints K.taken K.faults out.old (statement_line unit.now (calls handler.now (tree guard.now) (exprs (map tree args.now)))) out.new }
{
    out.put(b"  if (");
    expr(out, guard);
    out.put(b") { ");
    out.put(handler.bytes());
    out.put(b"(");
    listed(out, args);
    out.put(b"); }\n");
}

// The type of the first ring of this name.
fn ring_type<K: Sink>(out: &mut Printer<'_, K>, unit: &Unit, r: &Name)
    ensures { Prints K.taken K.faults out.old (type_of_ring unit.now r.now) out.new }
{
    match ring_of(unit, r) {
        Some(ring) => type_name(out, &ring.ty),
        None => {}
    }
}

fn next_statement<K: Sink>(out: &mut Printer<'_, K>, unit: &Unit, r: &Name, value: &CExpr)
    ensures { Prints K.taken K.faults out.old (statement_line unit.now (nexts r.now (tree value.now))) out.new }
{
    out.put(b"  ");
    ring_type(out, unit, r);
    out.put(b" cp_n_");
    out.put(r.bytes());
    out.put(b" = ");
    expr(out, value);
    out.put(b";\n");
}

fn store_statement<K: Sink>(out: &mut Printer<'_, K>, unit: &Unit, r: &Name, at: &CExpr)
    ensures { Prints K.taken K.faults out.old (statement_line unit.now (stores r.now (tree at.now))) out.new }
{
    out.put(b"  cp_b_");
    out.put(r.bytes());
    out.put(b"[");
    expr(out, at);
    out.put(b"] = cp_n_");
    out.put(r.bytes());
    out.put(b";\n");
}

fn move_statement<K: Sink>(out: &mut Printer<'_, K>, unit: &Unit, r: &Name, value: &CExpr)
    ensures { Prints K.taken K.faults out.old (statement_line unit.now (moves r.now (tree value.now))) out.new }
{
    out.put(b"  cp_i_");
    out.put(r.bytes());
    out.put(b" = ");
    expr(out, value);
    out.put(b";\n");
}

fn put_statement<K: Sink>(out: &mut Printer<'_, K>, unit: &Unit, r: &Name)
    ensures { Prints K.taken K.faults out.old (statement_line unit.now (puts r.now)) out.new }
{
    out.put(b"  cp_b_");
    out.put(r.bytes());
    out.put(b" = cp_n_");
    out.put(r.bytes());
    out.put(b";\n");
}

fn statement<K: Sink>(out: &mut Printer<'_, K>, unit: &Unit, s: &CStmt)
    ensures { Prints K.taken K.faults out.old (statement_line unit.now (statement s.now)) out.new }
{
    match s {
        CStmt::Copy { name } => copy_statement(out, unit, name),
        CStmt::Call {
            handler,
            guard,
            args,
        } => {
            call_statement(out, unit, handler, guard, args.as_slice());
        }
        CStmt::Next { ring, value } => next_statement(out, unit, ring, value),
        CStmt::Store { ring, at } => store_statement(out, unit, ring, at),
        CStmt::Move { ring, value } => move_statement(out, unit, ring, value),
        CStmt::Put { ring } => put_statement(out, unit, ring),
    }
}

pub fn statements<K: Sink>(out: &mut Printer<'_, K>, unit: &Unit, step: &[CStmt])
    ensures { Prints K.taken K.faults out.old (flat_map (λ s. statement_line unit.now (statement s)) step.now) out.new }
{
    for s in step {
        statement(out, unit, s);
    }
}
