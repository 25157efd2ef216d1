// Nodes of operators over operands that are placed.
ghost use Rattle.std.specs.Prelude.{◌≡◌, ◌<◌, ◌≤◌, ℕ, List, [], ◌∷◌, length, IfOk};
ghost use Rattle.spec_text.specs.declared.surface.Expr.TheOpen.{Expr-F};
ghost use Rattle.type_check.specs.Judged.{Scope as Names};
ghost use Rattle.type_check.specs.Standing.{IsDistinct};
ghost use Rattle.typed_spec.specs.declared.arena.Arena.{Arena as ArenaValue};
ghost use Rattle.typed_text.specs.ReadSpec.{Numbers as Order, Read, read_step};
ghost use Rattle.typed_spec.specs.Made.{Makes};
ghost use Rattle.typed_spec.specs.Texts.{StandsFor};

use crate::arena::{Arena, Operand};
use crate::text::Text;
use crate::types::{cast, choice, index, integer, one, scalar_of, shifted, truths, two};
use spec_text::TypeForm;
use std::alloc::AllocError;
use stream_core::Node;
use stream_types::{Dir, Op1, Op2};

pub fn un(arena: &mut Arena, at: u64, op: Op1, a: Operand) -> Result<Operand, AllocError>
    requires a { a.id < length arena.old.spec.nodes }
    ensures within { IfOk result (λ o. o.id < length arena.new.spec.nodes) }
    ensures size { length arena.old.spec.nodes ≤ length arena.new.spec.nodes }
    ensures others { arena.new.spec ≡ record arena.old.spec { nodes = arena.new.spec.nodes } }
    ensures forms { length arena.old.forms.items ≤ length arena.new.forms.items }
    ensures made { (names : List (List ℕ)) (s : Names) (n : Order) (start : ArenaValue) (p : Read) → IsDistinct names
        → Makes names start arena.old (a ∷ []) (p ∷ [])
        → IfOk result (λ o. Makes names start arena.new (o ∷ []) (read_step n s (Expr-F.Un at op p) ∷ [])) }
{
    let ty = one(at, op, a.ty);
    let id = arena.put(Node::Un(op, scalar_of(a.ty), a.id))?;
    Ok(Operand { id, ty })
}

pub fn bin(
    arena: &mut Arena,
    at: u64,
    op: Op2,
    a: Operand,
    b: Operand,
) -> Result<Operand, AllocError>
    requires a { a.id < length arena.old.spec.nodes }
    requires b { b.id < length arena.old.spec.nodes }
    ensures within { IfOk result (λ o. o.id < length arena.new.spec.nodes) }
    ensures size { length arena.old.spec.nodes ≤ length arena.new.spec.nodes }
    ensures others { arena.new.spec ≡ record arena.old.spec { nodes = arena.new.spec.nodes } }
    ensures forms { length arena.old.forms.items ≤ length arena.new.forms.items }
    ensures made { (names : List (List ℕ)) (s : Names) (n : Order) (start mid : ArenaValue) (p q : Read) → IsDistinct names
        → Makes names start mid (a ∷ []) (p ∷ []) → Makes names mid arena.old (b ∷ []) (q ∷ [])
        → IfOk result (λ o. Makes names start arena.new (o ∷ []) (read_step n s (Expr-F.Bin at op p q) ∷ [])) }
{
    let ty = two(at, op, a.ty, b.ty);
    let id = arena.put(Node::Bin(op, scalar_of(a.ty), a.id, b.id))?;
    Ok(Operand { id, ty })
}

pub fn shift(
    arena: &mut Arena,
    at: u64,
    dir: Dir,
    a: Operand,
    count: Operand,
) -> Result<Operand, AllocError>
    requires a { a.id < length arena.old.spec.nodes }
    requires count { count.id < length arena.old.spec.nodes }
    ensures within { IfOk result (λ o. o.id < length arena.new.spec.nodes) }
    ensures size { length arena.old.spec.nodes ≤ length arena.new.spec.nodes }
    ensures others { arena.new.spec ≡ record arena.old.spec { nodes = arena.new.spec.nodes } }
    ensures forms { length arena.old.forms.items ≤ length arena.new.forms.items }
    ensures made { (names : List (List ℕ)) (s : Names) (n : Order) (start mid : ArenaValue) (p q : Read) → IsDistinct names
        → Makes names start mid (a ∷ []) (p ∷ []) → Makes names mid arena.old (count ∷ []) (q ∷ [])
        → IfOk result (λ o. Makes names start arena.new (o ∷ []) (read_step n s (Expr-F.Shift at dir p q) ∷ [])) }
{
    let ty = shifted(at, a.ty, count.ty);
    let node = Node::Shift {
        dir,
        ty: scalar_of(a.ty),
        a: a.id,
        cty: scalar_of(count.ty),
        count: count.id,
    };
    let id = arena.put(node)?;
    Ok(Operand { id, ty })
}

pub fn and(arena: &mut Arena, at: u64, a: Operand, b: Operand) -> Result<Operand, AllocError>
    requires a { a.id < length arena.old.spec.nodes }
    requires b { b.id < length arena.old.spec.nodes }
    ensures within { IfOk result (λ o. o.id < length arena.new.spec.nodes) }
    ensures size { length arena.old.spec.nodes ≤ length arena.new.spec.nodes }
    ensures others { arena.new.spec ≡ record arena.old.spec { nodes = arena.new.spec.nodes } }
    ensures forms { length arena.old.forms.items ≤ length arena.new.forms.items }
    ensures made { (names : List (List ℕ)) (s : Names) (n : Order) (start mid : ArenaValue) (p q : Read) → IsDistinct names
        → Makes names start mid (a ∷ []) (p ∷ []) → Makes names mid arena.old (b ∷ []) (q ∷ [])
        → IfOk result (λ o. Makes names start arena.new (o ∷ []) (read_step n s (Expr-F.And at p q) ∷ [])) }
{
    let ty = truths(at, a.ty, b.ty);
    let id = arena.put(Node::And(a.id, b.id))?;
    Ok(Operand { id, ty })
}

pub fn or(arena: &mut Arena, at: u64, a: Operand, b: Operand) -> Result<Operand, AllocError>
    requires a { a.id < length arena.old.spec.nodes }
    requires b { b.id < length arena.old.spec.nodes }
    ensures within { IfOk result (λ o. o.id < length arena.new.spec.nodes) }
    ensures size { length arena.old.spec.nodes ≤ length arena.new.spec.nodes }
    ensures others { arena.new.spec ≡ record arena.old.spec { nodes = arena.new.spec.nodes } }
    ensures forms { length arena.old.forms.items ≤ length arena.new.forms.items }
    ensures made { (names : List (List ℕ)) (s : Names) (n : Order) (start mid : ArenaValue) (p q : Read) → IsDistinct names
        → Makes names start mid (a ∷ []) (p ∷ []) → Makes names mid arena.old (b ∷ []) (q ∷ [])
        → IfOk result (λ o. Makes names start arena.new (o ∷ []) (read_step n s (Expr-F.Or at p q) ∷ [])) }
{
    let ty = truths(at, a.ty, b.ty);
    let id = arena.put(Node::Or(a.id, b.id))?;
    Ok(Operand { id, ty })
}

pub fn implies(arena: &mut Arena, at: u64, a: Operand, b: Operand) -> Result<Operand, AllocError>
    requires a { a.id < length arena.old.spec.nodes }
    requires b { b.id < length arena.old.spec.nodes }
    ensures within { IfOk result (λ o. o.id < length arena.new.spec.nodes) }
    ensures size { length arena.old.spec.nodes ≤ length arena.new.spec.nodes }
    ensures others { arena.new.spec ≡ record arena.old.spec { nodes = arena.new.spec.nodes } }
    ensures forms { length arena.old.forms.items ≤ length arena.new.forms.items }
    ensures made { (names : List (List ℕ)) (s : Names) (n : Order) (start mid : ArenaValue) (p q : Read) → IsDistinct names
        → Makes names start mid (a ∷ []) (p ∷ []) → Makes names mid arena.old (b ∷ []) (q ∷ [])
        → IfOk result (λ o. Makes names start arena.new (o ∷ []) (read_step n s (Expr-F.Implies at p q) ∷ [])) }
{
    let ty = truths(at, a.ty, b.ty);
    let id = arena.put(Node::Implies(a.id, b.id))?;
    Ok(Operand { id, ty })
}

pub fn choose(
    arena: &mut Arena,
    at: u64,
    c: Operand,
    a: Operand,
    b: Operand,
) -> Result<Operand, AllocError>
    requires c { c.id < length arena.old.spec.nodes }
    requires a { a.id < length arena.old.spec.nodes }
    requires b { b.id < length arena.old.spec.nodes }
    ensures within { IfOk result (λ o. o.id < length arena.new.spec.nodes) }
    ensures size { length arena.old.spec.nodes ≤ length arena.new.spec.nodes }
    ensures others { arena.new.spec ≡ record arena.old.spec { nodes = arena.new.spec.nodes } }
    ensures forms { length arena.old.forms.items ≤ length arena.new.forms.items }
    ensures made { (names : List (List ℕ)) (s : Names) (n : Order) (start mid late : ArenaValue) (p q r : Read) → IsDistinct names
        → Makes names start mid (c ∷ []) (p ∷ []) → Makes names mid late (a ∷ []) (q ∷ []) → Makes names late arena.old (b ∷ []) (r ∷ [])
        → IfOk result (λ o. Makes names start arena.new (o ∷ []) (read_step n s (Expr-F.If at p q r) ∷ [])) }
{
    let ty = choice(at, c.ty, a.ty, b.ty);
    let id = arena.put(Node::If(c.id, a.id, b.id))?;
    Ok(Operand { id, ty })
}

pub fn convert(
    text: &Text,
    arena: &mut Arena,
    at: u64,
    to: &TypeForm,
    a: Operand,
) -> Result<Operand, AllocError>
    requires a { a.id < length arena.old.spec.nodes }
    ensures within { IfOk result (λ o. o.id < length arena.new.spec.nodes) }
    ensures size { length arena.old.spec.nodes ≤ length arena.new.spec.nodes }
    ensures others { arena.new.spec ≡ record arena.old.spec { nodes = arena.new.spec.nodes } }
    ensures forms { length arena.old.forms.items ≤ length arena.new.forms.items }
    ensures made { (names : List (List ℕ)) (s : Names) (n : Order) (start : ArenaValue) (p : Read) → StandsFor names s n text.now
        → Makes names start arena.old (a ∷ []) (p ∷ [])
        → IfOk result (λ o. Makes names start arena.new (o ∷ []) (read_step n s (Expr-F.Cast at to.now p) ∷ [])) }
{
    let ty = cast(at, text.written(to), a.ty);
    let node = Node::Cast {
        from: scalar_of(a.ty),
        to: scalar_of(ty),
        a: a.id,
    };
    let id = arena.put(node)?;
    Ok(Operand { id, ty })
}

pub fn abs(arena: &mut Arena, at: u64, a: Operand) -> Result<Operand, AllocError>
    requires a { a.id < length arena.old.spec.nodes }
    ensures within { IfOk result (λ o. o.id < length arena.new.spec.nodes) }
    ensures size { length arena.old.spec.nodes ≤ length arena.new.spec.nodes }
    ensures others { arena.new.spec ≡ record arena.old.spec { nodes = arena.new.spec.nodes } }
    ensures forms { length arena.old.forms.items ≤ length arena.new.forms.items }
    ensures made { (names : List (List ℕ)) (s : Names) (n : Order) (start : ArenaValue) (p : Read) → IsDistinct names
        → Makes names start arena.old (a ∷ []) (p ∷ [])
        → IfOk result (λ o. Makes names start arena.new (o ∷ []) (read_step n s (Expr-F.Abs at p) ∷ [])) }
{
    let ty = integer(at, a.ty);
    let id = arena.put(Node::Abs(scalar_of(a.ty), a.id))?;
    Ok(Operand { id, ty })
}

pub fn sign(arena: &mut Arena, at: u64, a: Operand) -> Result<Operand, AllocError>
    requires a { a.id < length arena.old.spec.nodes }
    ensures within { IfOk result (λ o. o.id < length arena.new.spec.nodes) }
    ensures size { length arena.old.spec.nodes ≤ length arena.new.spec.nodes }
    ensures others { arena.new.spec ≡ record arena.old.spec { nodes = arena.new.spec.nodes } }
    ensures forms { length arena.old.forms.items ≤ length arena.new.forms.items }
    ensures made { (names : List (List ℕ)) (s : Names) (n : Order) (start : ArenaValue) (p : Read) → IsDistinct names
        → Makes names start arena.old (a ∷ []) (p ∷ [])
        → IfOk result (λ o. Makes names start arena.new (o ∷ []) (read_step n s (Expr-F.Sign at p) ∷ [])) }
{
    let ty = integer(at, a.ty);
    let id = arena.put(Node::Sign(scalar_of(a.ty), a.id))?;
    Ok(Operand { id, ty })
}

/// An element of an array.
pub fn element(
    text: &Text,
    arena: &mut Arena,
    at: u64,
    a: Operand,
    i: Operand,
) -> Result<Operand, AllocError>
    requires a { a.id < length arena.old.spec.nodes }
    requires i { i.id < length arena.old.spec.nodes }
    ensures within { IfOk result (λ o. o.id < length arena.new.spec.nodes) }
    ensures size { length arena.old.spec.nodes ≤ length arena.new.spec.nodes }
    ensures others { arena.new.spec ≡ record arena.old.spec { nodes = arena.new.spec.nodes } }
    ensures forms { length arena.old.forms.items ≤ length arena.new.forms.items }
    ensures made { (names : List (List ℕ)) (s : Names) (n : Order) (start mid : ArenaValue) (p q : Read) → StandsFor names s n text.now
        → Makes names start mid (a ∷ []) (p ∷ []) → Makes names mid arena.old (i ∷ []) (q ∷ [])
        → IfOk result (λ o. Makes names start arena.new (o ∷ []) (read_step n s (Expr-F.Index at p q) ∷ [])) }
{
    let ty = index(at, a.ty, i.ty);
    let id = arena.put(Node::Index(text.ty(a.ty), a.id, i.id))?;
    Ok(Operand { id, ty })
}
