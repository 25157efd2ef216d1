// Library forms over operands that are placed behind their number.
ghost use Rattle.std.specs.Prelude.{◌≡◌, ◌<◌, ◌≤◌, ℕ, List, [], ◌∷◌, ◌++◌, length, IfOk};
ghost use Rattle.spec_text.specs.declared.surface.Expr.TheOpen.{Expr-F};
ghost use Rattle.stream_core.specs.declared.spec.LibItem.{LibItem as LibItemValue};
ghost use Rattle.type_check.specs.Judged.{Scope as Names, truths, integer};
ghost use Rattle.type_check.specs.Standing.{IsDistinct};
ghost use Rattle.typed_spec.specs.declared.arena.Arena.{Arena as ArenaValue};
ghost use Rattle.typed_text.specs.ReadSpec.{Numbers as Order, Read, library, scalar_of, read_step};
ghost use Rattle.typed_spec.specs.Made.{Makes};
ghost use Rattle.typed_spec.specs.Windows.{window_form};

use crate::arena::{Arena, Operand};
use crate::types::{integer, scalar_of, truth, truths};
use sm_io::Seq;
use std::alloc::{AllocError, Global};
use stream_core::{LibForm, LibItem, NodeId};
use stream_types::Scalar;
use type_check::known::BOOL;

// One operand.
fn only(alloc: Global, p: NodeId) -> Result<Seq<NodeId>, AllocError>
    ensures { IfOk result (λ ids. ids ≡ p ∷ []) }
{
    let mut ids = Seq::new(alloc);
    ids.push(p)?;
    Ok(ids)
}

// Two operands.
fn pair(alloc: Global, p: NodeId, q: NodeId) -> Result<Seq<NodeId>, AllocError>
    ensures { IfOk result (λ ids. ids ≡ p ∷ q ∷ []) }
{
    let mut ids = Seq::new(alloc);
    ids.push(p)?;
    ids.push(q)?;
    Ok(ids)
}

pub fn clock(
    alloc: Global,
    arena: &mut Arena,
    at: u64,
    period: u32,
    phase: u32,
) -> Result<Operand, AllocError>
    ensures within { IfOk result (λ o. o.id < length arena.new.spec.nodes) }
    ensures size { length arena.old.spec.nodes ≤ length arena.new.spec.nodes }
    ensures others { arena.new.spec ≡ record arena.old.spec { nodes = arena.new.spec.nodes } }
    ensures forms { length arena.old.forms.items ≤ length arena.new.forms.items }
    ensures made { (names : List (List ℕ)) (s : Names) (n : Order)
        → IfOk result (λ o. Makes names arena.old arena.new (o ∷ []) (read_step n s (Expr-F.Clock at period phase) ∷ [])) }
{
    let number = arena.reserve(alloc, at)?;
    let item = LibItem {
        form: LibForm::Clock(period, phase),
        args: Seq::new(alloc),
        at,
    };
    let id = arena.fill(number, item)?;
    Ok(Operand { id, ty: Some(BOOL) })
}

/// A form over one truth.
pub fn over_truth(
    alloc: Global,
    arena: &mut Arena,
    number: usize,
    at: u64,
    form: LibForm,
    p: Operand,
) -> Result<Operand, AllocError>
    requires p { p.id < length arena.old.spec.nodes }
    requires number { number < length arena.old.forms.items }
    ensures within { IfOk result (λ o. o.id < length arena.new.spec.nodes) }
    ensures size { length arena.old.spec.nodes ≤ length arena.new.spec.nodes }
    ensures others { arena.new.spec ≡ record arena.old.spec { nodes = arena.new.spec.nodes } }
    ensures forms { length arena.old.forms.items ≤ length arena.new.forms.items }
    ensures made { (names : List (List ℕ)) (start mid : ArenaValue) (x : Read) (blank : LibItemValue) → IsDistinct names
        → number ≡ length start.forms.items → mid.spec ≡ start.spec → mid.forms.items ≡ start.forms.items ++ blank ∷ []
        → Makes names mid arena.old (p ∷ []) (x ∷ [])
        → IfOk result (λ o. Makes names start arena.new (o ∷ []) (library (truths at (x.judged ∷ [])) at form (x ∷ []) ∷ [])) }
{
    let ty = truth(at, p.ty);
    let args = only(alloc, p.id)?;
    let id = arena.fill(number, LibItem { form, args, at })?;
    Ok(Operand { id, ty })
}

/// A form over two truths.
pub fn over_truths(
    alloc: Global,
    arena: &mut Arena,
    number: usize,
    at: u64,
    form: LibForm,
    p: Operand,
    q: Operand,
) -> Result<Operand, AllocError>
    requires p { p.id < length arena.old.spec.nodes }
    requires q { q.id < length arena.old.spec.nodes }
    requires number { number < length arena.old.forms.items }
    ensures within { IfOk result (λ o. o.id < length arena.new.spec.nodes) }
    ensures size { length arena.old.spec.nodes ≤ length arena.new.spec.nodes }
    ensures others { arena.new.spec ≡ record arena.old.spec { nodes = arena.new.spec.nodes } }
    ensures forms { length arena.old.forms.items ≤ length arena.new.forms.items }
    ensures made { (names : List (List ℕ)) (start mid late : ArenaValue) (x y : Read) (blank : LibItemValue) → IsDistinct names
        → number ≡ length start.forms.items → mid.spec ≡ start.spec → mid.forms.items ≡ start.forms.items ++ blank ∷ []
        → Makes names mid late (p ∷ []) (x ∷ []) → Makes names late arena.old (q ∷ []) (y ∷ [])
        → IfOk result (λ o. Makes names start arena.new (o ∷ []) (library (truths at (x.judged ∷ y.judged ∷ [])) at form (x ∷ y ∷ []) ∷ [])) }
{
    let ty = truths(at, p.ty, q.ty);
    let args = pair(alloc, p.id, q.id)?;
    let id = arena.fill(number, LibItem { form, args, at })?;
    Ok(Operand { id, ty })
}

/// Which number of a window is told.
#[derive(Clone, Copy)]
pub enum Window {
    Max,
    Min,
    Sum,
}

fn window_form(window: Window, n: u32, scalar: Scalar) -> LibForm
    ensures { result ≡ window_form window n scalar }
{
    match window {
        Window::Max => LibForm::WindowMax(n, scalar),
        Window::Min => LibForm::WindowMin(n, scalar),
        Window::Sum => LibForm::WindowSum(n, scalar),
    }
}

/// A form over the latest samples of a number.
pub fn over_samples(
    alloc: Global,
    arena: &mut Arena,
    number: usize,
    at: u64,
    window: Window,
    n: u32,
    e: Operand,
) -> Result<Operand, AllocError>
    requires e { e.id < length arena.old.spec.nodes }
    requires number { number < length arena.old.forms.items }
    ensures within { IfOk result (λ o. o.id < length arena.new.spec.nodes) }
    ensures size { length arena.old.spec.nodes ≤ length arena.new.spec.nodes }
    ensures others { arena.new.spec ≡ record arena.old.spec { nodes = arena.new.spec.nodes } }
    ensures forms { length arena.old.forms.items ≤ length arena.new.forms.items }
    ensures made { (names : List (List ℕ)) (start mid : ArenaValue) (x : Read) (blank : LibItemValue) → IsDistinct names
        → number ≡ length start.forms.items → mid.spec ≡ start.spec → mid.forms.items ≡ start.forms.items ++ blank ∷ []
        → Makes names mid arena.old (e ∷ []) (x ∷ [])
        → IfOk result (λ o. Makes names start arena.new (o ∷ []) (library (integer at x.judged) at (window_form window n (scalar_of x)) (x ∷ []) ∷ [])) }
{
    let ty = integer(at, e.ty);
    let form = window_form(window, n, scalar_of(e.ty));
    let args = only(alloc, e.id)?;
    let id = arena.fill(number, LibItem { form, args, at })?;
    Ok(Operand { id, ty })
}
