// The types of expressions.
ghost use Rattle.std.specs.Prelude.{◌≡◌, ℕ, List, [], ◌∷◌, map};
ghost use Rattle.spec_text.specs.declared.surface.Expr.TheOpen.{Expr-F};
ghost use Rattle.type_check.specs.declared.order.Order.{Order as OrderValue};
ghost use Rattle.type_check.specs.Judged.{Scope as Names, Judged, judged, type_of, judge_expr, expr_step, truths, integer, on_shift};
ghost use Rattle.type_check.specs.Standing.{IsScope, IsTyped, Gives, GivesParts, items_of};

use crate::fault::TypeFault;
use crate::known::{BOOL, Element, Known};
use crate::names_in::{drop_of, member, name};
use crate::order::Order;
use crate::parts::all_typed;
use crate::scope::Scope;
use crate::structs::record_of;
use crate::verdicts::{
    on_agreed, on_cast, on_choice, on_index, on_integer, on_items, on_one, on_shift, on_truth,
    on_truths, on_two, on_votes,
};
use spec_text::{Expr, NameAt, TypeForm};
use stream_types::{Op1, Op2};

/// The type of an expression, if all of its parts have types.
#[cycle(expressions)]
pub fn expr(scope: &Scope, order: &mut Order, e: &Expr) -> Result<Option<Known>, TypeFault>
    ensures { (names : List (List ℕ)) (s : Names) → IsScope names s scope.now → Gives names scope.now.closed order.old order.new (judge_expr s e.now) result }
{
    match e {
        Expr::Lit { scalar, .. } => scope.node(order, Ok(Known::Element(Element::Scalar(*scalar)))),
        Expr::Name(x) => name(scope, order, x),
        Expr::Drop { at, k, name } => drop_of(scope, order, *at, *k, name),
        Expr::Un { at, op, a } => unary(scope, order, *at, *op, a.get()),
        Expr::Bin { at, op, a, b } => {
            let a = expr(scope, order, a.get())?;
            binary(scope, order, *at, *op, a, b.get())
        }
        Expr::Shift { at, a, count, .. } => {
            let a = expr(scope, order, a.get())?;
            shifted(scope, order, *at, a, count.get())
        }
        Expr::And { at, a, b } => {
            let a = expr(scope, order, a.get())?;
            truths(scope, order, *at, a, b.get())
        }
        Expr::Or { at, a, b } => {
            let a = expr(scope, order, a.get())?;
            truths(scope, order, *at, a, b.get())
        }
        Expr::Implies { at, a, b } => {
            let a = expr(scope, order, a.get())?;
            truths(scope, order, *at, a, b.get())
        }
        Expr::If { at, c, a, b } => {
            let c = expr(scope, order, c.get())?;
            let a = expr(scope, order, a.get())?;
            choice(scope, order, *at, c, a, b.get())
        }
        Expr::Cast { at, to, a } => cast(scope, order, *at, a.get(), to),
        Expr::Abs { at, a } => integer(scope, order, *at, a.get()),
        Expr::Sign { at, a } => integer(scope, order, *at, a.get()),
        Expr::Index { at, a, i } => {
            let a = expr(scope, order, a.get())?;
            index(scope, order, *at, a, i.get())
        }
        Expr::Field { at, a, member } => field(scope, order, *at, a.get(), member),
        Expr::Array { at, items } => array(scope, order, *at, items.as_slice()),
        Expr::Record { at, name, items } => record(scope, order, *at, items.as_slice(), name),
        Expr::Once { at, p } => truth(scope, order, *at, p.get()),
        Expr::Historically { at, p } => truth(scope, order, *at, p.get()),
        Expr::Yesterday { at, p } => truth(scope, order, *at, p.get()),
        Expr::WeaklyYesterday { at, p } => truth(scope, order, *at, p.get()),
        Expr::Since { at, p, q } => {
            let p = expr(scope, order, p.get())?;
            truths(scope, order, *at, p, q.get())
        }
        Expr::OnceIn { at, p, .. } => truth(scope, order, *at, p.get()),
        Expr::HistoricallyIn { at, p, .. } => truth(scope, order, *at, p.get()),
        Expr::SinceIn { at, p, q, .. } => {
            let p = expr(scope, order, p.get())?;
            truths(scope, order, *at, p, q.get())
        }
        Expr::Clock { .. } => scope.node(order, Ok(BOOL)),
        Expr::Majority { at, items } => majority(scope, order, *at, items.as_slice()),
        Expr::Agreed { at, items } => agreed(scope, order, *at, items.as_slice()),
        Expr::WindowMax { at, e, .. } => integer(scope, order, *at, e.get()),
        Expr::WindowMin { at, e, .. } => integer(scope, order, *at, e.get()),
        Expr::WindowSum { at, e, .. } => integer(scope, order, *at, e.get()),
    }
}

/// The types of expressions one after another.
#[cycle(expressions)]
pub fn exprs(
    scope: &Scope,
    order: &mut Order,
    all: &[Expr],
) -> Result<Vec<Option<Known>>, TypeFault>
    ensures { (names : List (List ℕ)) (s : Names) → IsScope names s scope.now
        → GivesParts names scope.now.closed order.old order.new (map (judge_expr s) all.now) (items_of result) }
{
    let mut parts = Vec::new(scope.alloc);
    for e in all {
        let ty = expr(scope, order, e)?;
        parts.push(ty)?;
    }
    Ok(parts)
}

#[cycle(expressions)]
fn unary(
    scope: &Scope,
    order: &mut Order,
    at: u64,
    op: Op1,
    a: &Expr,
) -> Result<Option<Known>, TypeFault>
    ensures { (names : List (List ℕ)) (s : Names) → IsScope names s scope.now
        → Gives names scope.now.closed order.old order.new (expr_step s (Expr-F.Un at op (judge_expr s a.now))) result }
{
    match expr(scope, order, a)? {
        Some(a) => scope.node(order, on_one(at, op, a)),
        None => Ok(None),
    }
}

#[cycle(expressions)]
fn truth(scope: &Scope, order: &mut Order, at: u64, p: &Expr) -> Result<Option<Known>, TypeFault>
    ensures { (names : List (List ℕ)) (s : Names) → IsScope names s scope.now
        → Gives names scope.now.closed order.old order.new (truths at (judge_expr s p.now ∷ [])) result }
{
    match expr(scope, order, p)? {
        Some(p) => scope.node(order, on_truth(at, p)),
        None => Ok(None),
    }
}

#[cycle(expressions)]
fn integer(scope: &Scope, order: &mut Order, at: u64, a: &Expr) -> Result<Option<Known>, TypeFault>
    ensures { (names : List (List ℕ)) (s : Names) → IsScope names s scope.now
        → Gives names scope.now.closed order.old order.new (integer at (judge_expr s a.now)) result }
{
    match expr(scope, order, a)? {
        Some(a) => scope.node(order, on_integer(at, a)),
        None => Ok(None),
    }
}

// With the type of the first operand.
#[cycle(expressions)]
fn binary(
    scope: &Scope,
    order: &mut Order,
    at: u64,
    op: Op2,
    a: Option<Known>,
    b: &Expr,
) -> Result<Option<Known>, TypeFault>
    ensures { (names : List (List ℕ)) (s : Names) (start : OrderValue) (j : Judged) → IsScope names s scope.now
        → IsTyped names scope.now.closed start order.old j a
        → Gives names scope.now.closed start order.new (expr_step s (Expr-F.Bin at op j (judge_expr s b.now))) result }
{
    let b = expr(scope, order, b)?;
    let Some(a) = a else {
        return Ok(None);
    };
    let Some(b) = b else {
        return Ok(None);
    };
    scope.node(order, on_two(at, op, a, b))
}

#[cycle(expressions)]
fn shifted(
    scope: &Scope,
    order: &mut Order,
    at: u64,
    a: Option<Known>,
    count: &Expr,
) -> Result<Option<Known>, TypeFault>
    ensures { (names : List (List ℕ)) (s : Names) (start : OrderValue) (j : Judged) → IsScope names s scope.now
        → IsTyped names scope.now.closed start order.old j a
        → Gives names scope.now.closed start order.new (judged (j ∷ judge_expr s count.now ∷ []) (on_shift at (type_of j) (type_of (judge_expr s count.now)))) result }
{
    let count = expr(scope, order, count)?;
    let Some(a) = a else {
        return Ok(None);
    };
    let Some(count) = count else {
        return Ok(None);
    };
    scope.node(order, on_shift(at, a, count))
}

#[cycle(expressions)]
fn truths(
    scope: &Scope,
    order: &mut Order,
    at: u64,
    p: Option<Known>,
    q: &Expr,
) -> Result<Option<Known>, TypeFault>
    ensures { (names : List (List ℕ)) (s : Names) (start : OrderValue) (j : Judged) → IsScope names s scope.now
        → IsTyped names scope.now.closed start order.old j p
        → Gives names scope.now.closed start order.new (truths at (j ∷ judge_expr s q.now ∷ [])) result }
{
    let q = expr(scope, order, q)?;
    let Some(p) = p else {
        return Ok(None);
    };
    let Some(q) = q else {
        return Ok(None);
    };
    scope.node(order, on_truths(at, p, q))
}

#[cycle(expressions)]
fn index(
    scope: &Scope,
    order: &mut Order,
    at: u64,
    a: Option<Known>,
    i: &Expr,
) -> Result<Option<Known>, TypeFault>
    ensures { (names : List (List ℕ)) (s : Names) (start : OrderValue) (j : Judged) → IsScope names s scope.now
        → IsTyped names scope.now.closed start order.old j a
        → Gives names scope.now.closed start order.new (expr_step s (Expr-F.Index at j (judge_expr s i.now))) result }
{
    let i = expr(scope, order, i)?;
    let Some(a) = a else {
        return Ok(None);
    };
    let Some(i) = i else {
        return Ok(None);
    };
    scope.node(order, on_index(at, a, i))
}

// With the types of the condition and of the first choice.
#[cycle(expressions)]
fn choice(
    scope: &Scope,
    order: &mut Order,
    at: u64,
    c: Option<Known>,
    a: Option<Known>,
    b: &Expr,
) -> Result<Option<Known>, TypeFault>
    ensures { (names : List (List ℕ)) (s : Names) (start mid : OrderValue) (j l : Judged) → IsScope names s scope.now
        → IsTyped names scope.now.closed start mid j c → IsTyped names scope.now.closed mid order.old l a
        → Gives names scope.now.closed start order.new (expr_step s (Expr-F.If at j l (judge_expr s b.now))) result }
{
    let b = expr(scope, order, b)?;
    let Some(c) = c else {
        return Ok(None);
    };
    let Some(a) = a else {
        return Ok(None);
    };
    let Some(b) = b else {
        return Ok(None);
    };
    scope.node(order, on_choice(at, c, a, b))
}

#[cycle(expressions)]
fn cast(
    scope: &Scope,
    order: &mut Order,
    at: u64,
    a: &Expr,
    to: &TypeForm,
) -> Result<Option<Known>, TypeFault>
    ensures { (names : List (List ℕ)) (s : Names) → IsScope names s scope.now
        → Gives names scope.now.closed order.old order.new (expr_step s (Expr-F.Cast at to.now (judge_expr s a.now))) result }
{
    let to = scope.written(order, to)?;
    match expr(scope, order, a)? {
        Some(a) => scope.node(order, on_cast(at, to, a)),
        None => Ok(None),
    }
}

#[cycle(expressions)]
fn field(
    scope: &Scope,
    order: &mut Order,
    at: u64,
    a: &Expr,
    x: &NameAt,
) -> Result<Option<Known>, TypeFault>
    ensures { (names : List (List ℕ)) (s : Names) → IsScope names s scope.now
        → Gives names scope.now.closed order.old order.new (expr_step s (Expr-F.Field at (judge_expr s a.now) x.now)) result }
{
    match expr(scope, order, a)? {
        Some(a) => member(scope, order, at, a, x),
        None => Ok(None),
    }
}

#[cycle(expressions)]
fn array(
    scope: &Scope,
    order: &mut Order,
    at: u64,
    items: &[Expr],
) -> Result<Option<Known>, TypeFault>
    ensures { (names : List (List ℕ)) (s : Names) → IsScope names s scope.now
        → Gives names scope.now.closed order.old order.new (expr_step s (Expr-F.Array at (map (judge_expr s) items.now))) result }
{
    let parts = exprs(scope, order, items)?;
    match all_typed(scope.alloc, parts.as_slice())? {
        Some(types) => scope.node(order, on_items(&scope.structs, at, types.as_slice())),
        None => Ok(None),
    }
}

#[cycle(expressions)]
fn record(
    scope: &Scope,
    order: &mut Order,
    at: u64,
    items: &[Expr],
    name: &NameAt,
) -> Result<Option<Known>, TypeFault>
    ensures { (names : List (List ℕ)) (s : Names) → IsScope names s scope.now
        → Gives names scope.now.closed order.old order.new (expr_step s (Expr-F.Record at name.now (map (judge_expr s) items.now))) result }
{
    let parts = exprs(scope, order, items)?;
    match all_typed(scope.alloc, parts.as_slice())? {
        Some(types) => scope.node(
            order,
            record_of(&scope.structs, scope.closed, at, name, types.as_slice()),
        ),
        None => Ok(None),
    }
}

#[cycle(expressions)]
fn majority(
    scope: &Scope,
    order: &mut Order,
    at: u64,
    items: &[Expr],
) -> Result<Option<Known>, TypeFault>
    ensures { (names : List (List ℕ)) (s : Names) → IsScope names s scope.now
        → Gives names scope.now.closed order.old order.new (expr_step s (Expr-F.Majority at (map (judge_expr s) items.now))) result }
{
    let parts = exprs(scope, order, items)?;
    match all_typed(scope.alloc, parts.as_slice())? {
        Some(types) => scope.node(order, on_votes(at, types.as_slice())),
        None => Ok(None),
    }
}

#[cycle(expressions)]
fn agreed(
    scope: &Scope,
    order: &mut Order,
    at: u64,
    items: &[Expr],
) -> Result<Option<Known>, TypeFault>
    ensures { (names : List (List ℕ)) (s : Names) → IsScope names s scope.now
        → Gives names scope.now.closed order.old order.new (expr_step s (Expr-F.Agreed at (map (judge_expr s) items.now))) result }
{
    let parts = exprs(scope, order, items)?;
    match all_typed(scope.alloc, parts.as_slice())? {
        Some(types) => scope.node(order, on_agreed(at, types.as_slice())),
        None => Ok(None),
    }
}
