// The nodes of expressions.
ghost use Rattle.std.specs.List.{AllByRecursion};
ghost use Rattle.std.specs.Prelude.{◌≡◌, ◌<◌, ◌≤◌, ℕ, List, [], ◌∷◌, length, map, IfOk};
ghost use Rattle.type_check.specs.Judged.{Scope as Names, truths, integer};
ghost use Rattle.typed_text.specs.ReadSpec.{Numbers as Order, library, scalar_of, read_expr};
ghost use Rattle.typed_spec.specs.Made.{Makes, operands};
ghost use Rattle.typed_spec.specs.Texts.{StandsFor};
ghost use Rattle.typed_spec.specs.Windows.{window_form};

use crate::arena::{Arena, Operand};
use crate::forms::{Window, clock, over_samples, over_truth, over_truths};
use crate::nodes::{Operands, agreed, array, earlier, literal, majority, member, name, record};
use crate::operators::{abs, and, bin, choose, convert, element, implies, or, shift, sign, un};
use crate::text::Text;
use spec_text::Expr;
use std::alloc::AllocError;
use stream_core::LibForm;

/// The node of an expression, and its type if it has one.
#[cycle(expressions)]
pub fn expr(text: &Text, arena: &mut Arena, e: &Expr) -> Result<Operand, AllocError>
    ensures within { IfOk result (λ o. o.id < length arena.new.spec.nodes) }
    ensures size { length arena.old.spec.nodes ≤ length arena.new.spec.nodes }
    ensures others { arena.new.spec ≡ record arena.old.spec { nodes = arena.new.spec.nodes } }
    ensures forms { length arena.old.forms.items ≤ length arena.new.forms.items }
    ensures made { (names : List (List ℕ)) (s : Names) (n : Order) → StandsFor names s n text.now
        → IfOk result (λ o. Makes names arena.old arena.new (o ∷ []) (read_expr n s e.now ∷ [])) }
{
    match e {
        Expr::Lit { scalar, word, .. } => literal(arena, *scalar, *word),
        Expr::Name(x) => name(text, arena, x),
        Expr::Drop { at, k, name } => earlier(text, arena, *at, *k, name),
        Expr::Un { at, op, a } => {
            let a = expr(text, arena, a.get())?;
            un(arena, *at, *op, a)
        }
        Expr::Bin { at, op, a, b } => {
            let a = expr(text, arena, a.get())?;
            let b = expr(text, arena, b.get())?;
            bin(arena, *at, *op, a, b)
        }
        Expr::Shift { at, dir, a, count } => {
            let a = expr(text, arena, a.get())?;
            let count = expr(text, arena, count.get())?;
            shift(arena, *at, *dir, a, count)
        }
        Expr::And { at, a, b } => {
            let a = expr(text, arena, a.get())?;
            let b = expr(text, arena, b.get())?;
            and(arena, *at, a, b)
        }
        Expr::Or { at, a, b } => {
            let a = expr(text, arena, a.get())?;
            let b = expr(text, arena, b.get())?;
            or(arena, *at, a, b)
        }
        Expr::Implies { at, a, b } => {
            let a = expr(text, arena, a.get())?;
            let b = expr(text, arena, b.get())?;
            implies(arena, *at, a, b)
        }
        Expr::If { at, c, a, b } => {
            let c = expr(text, arena, c.get())?;
            let a = expr(text, arena, a.get())?;
            let b = expr(text, arena, b.get())?;
            choose(arena, *at, c, a, b)
        }
        Expr::Cast { at, to, a } => {
            let a = expr(text, arena, a.get())?;
            convert(text, arena, *at, to, a)
        }
        Expr::Abs { at, a } => {
            let a = expr(text, arena, a.get())?;
            abs(arena, *at, a)
        }
        Expr::Sign { at, a } => {
            let a = expr(text, arena, a.get())?;
            sign(arena, *at, a)
        }
        Expr::Index { at, a, i } => {
            let a = expr(text, arena, a.get())?;
            let i = expr(text, arena, i.get())?;
            element(text, arena, *at, a, i)
        }
        Expr::Field { a, member: x, .. } => {
            let a = expr(text, arena, a.get())?;
            member(text, arena, a, x)
        }
        Expr::Array { at, items } => {
            let items = exprs(text, arena, items.as_slice())?;
            array(text, arena, *at, items)
        }
        Expr::Record { at, name, items } => {
            let items = exprs(text, arena, items.as_slice())?;
            record(text, arena, *at, name, items)
        }
        Expr::Majority { at, items } => {
            let items = exprs(text, arena, items.as_slice())?;
            majority(text.scope.alloc, arena, *at, items)
        }
        Expr::Agreed { at, items } => {
            let items = exprs(text, arena, items.as_slice())?;
            agreed(text.scope.alloc, arena, *at, items)
        }
        Expr::Clock { at, period, phase } => {
            clock(text.scope.alloc, arena, *at, *period, *phase)
        }
        Expr::Once { at, p } => of_truth(text, arena, *at, LibForm::Once, p.get()),
        Expr::Historically { at, p } => {
            of_truth(text, arena, *at, LibForm::Historically, p.get())
        }
        Expr::Yesterday { at, p } => of_truth(text, arena, *at, LibForm::Yesterday, p.get()),
        Expr::WeaklyYesterday { at, p } => {
            of_truth(text, arena, *at, LibForm::WeaklyYesterday, p.get())
        }
        Expr::OnceIn { at, low, high, p } => {
            of_truth(text, arena, *at, LibForm::OnceIn(*low, *high), p.get())
        }
        Expr::HistoricallyIn { at, low, high, p } => {
            of_truth(
                text,
                arena,
                *at,
                LibForm::HistoricallyIn(*low, *high),
                p.get(),
            )
        }
        Expr::Since { at, p, q } => {
            let number = arena.reserve(text.scope.alloc, *at)?;
            let p = expr(text, arena, p.get())?;
            let q = expr(text, arena, q.get())?;
            over_truths(text.scope.alloc, arena, number, *at, LibForm::Since, p, q)
        }
        Expr::SinceIn {
            at,
            low,
            high,
            p,
            q,
        } => {
            let form = LibForm::SinceIn(*low, *high);
            let number = arena.reserve(text.scope.alloc, *at)?;
            let p = expr(text, arena, p.get())?;
            let q = expr(text, arena, q.get())?;
            over_truths(text.scope.alloc, arena, number, *at, form, p, q)
        }
        Expr::WindowMax { at, n, e } => { of_samples(text, arena, *at, Window::Max, *n, e.get()) }
        Expr::WindowMin { at, n, e } => { of_samples(text, arena, *at, Window::Min, *n, e.get()) }
        Expr::WindowSum { at, n, e } => { of_samples(text, arena, *at, Window::Sum, *n, e.get()) }
    }
}

#[cycle(expressions)]
fn of_truth(
    text: &Text,
    arena: &mut Arena,
    at: u64,
    form: LibForm,
    p: &Expr,
) -> Result<Operand, AllocError>
    ensures within { IfOk result (λ o. o.id < length arena.new.spec.nodes) }
    ensures size { length arena.old.spec.nodes ≤ length arena.new.spec.nodes }
    ensures others { arena.new.spec ≡ record arena.old.spec { nodes = arena.new.spec.nodes } }
    ensures forms { length arena.old.forms.items ≤ length arena.new.forms.items }
    ensures made { (names : List (List ℕ)) (s : Names) (n : Order) → StandsFor names s n text.now
        → IfOk result (λ o. Makes names arena.old arena.new (o ∷ [])
        (library (truths at ((read_expr n s p.now).judged ∷ [])) at form (read_expr n s p.now ∷ []) ∷ [])) }
{
    let number = arena.reserve(text.scope.alloc, at)?;
    let p = expr(text, arena, p)?;
    over_truth(text.scope.alloc, arena, number, at, form, p)
}

#[cycle(expressions)]
fn of_samples(
    text: &Text,
    arena: &mut Arena,
    at: u64,
    window: Window,
    width: u32,
    e: &Expr,
) -> Result<Operand, AllocError>
    ensures within { IfOk result (λ o. o.id < length arena.new.spec.nodes) }
    ensures size { length arena.old.spec.nodes ≤ length arena.new.spec.nodes }
    ensures others { arena.new.spec ≡ record arena.old.spec { nodes = arena.new.spec.nodes } }
    ensures forms { length arena.old.forms.items ≤ length arena.new.forms.items }
    ensures made { (names : List (List ℕ)) (s : Names) (n : Order) → StandsFor names s n text.now
        → IfOk result (λ o. Makes names arena.old arena.new (o ∷ [])
        (library (integer at (read_expr n s e.now).judged) at (window_form window width (scalar_of (read_expr n s e.now)))
        (read_expr n s e.now ∷ []) ∷ [])) }
{
    let number = arena.reserve(text.scope.alloc, at)?;
    let e = expr(text, arena, e)?;
    over_samples(text.scope.alloc, arena, number, at, window, width, e)
}

/// The nodes of expressions one after another.
#[cycle(expressions)]
pub fn exprs(text: &Text, arena: &mut Arena, all: &[Expr]) -> Result<Operands, AllocError>
    ensures there { IfOk result (λ items. AllByRecursion (λ j. j < length arena.new.spec.nodes) items.ids.items) }
    ensures paired { IfOk result (λ items. length items.types.items ≡ length items.ids.items) }
    ensures size { length arena.old.spec.nodes ≤ length arena.new.spec.nodes }
    ensures others { arena.new.spec ≡ record arena.old.spec { nodes = arena.new.spec.nodes } }
    ensures forms { length arena.old.forms.items ≤ length arena.new.forms.items }
    ensures made { (names : List (List ℕ)) (s : Names) (n : Order) → StandsFor names s n text.now
        → IfOk result (λ items. Makes names arena.old arena.new (operands items) (map (read_expr n s) all.now)) }
{
    let mut ids = Vec::new(text.scope.alloc);
    let mut types = Vec::new(text.scope.alloc);
    for e in all {
        let operand = expr(text, arena, e)?;
        ids.push(operand.id)?;
        types.push(operand.ty)?;
    }
    Ok(Operands { ids, types })
}
