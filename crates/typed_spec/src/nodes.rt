// Nodes of literals, names, members and lists.
ghost use Rattle.std.specs.List.{AllByRecursion};
ghost use Rattle.std.specs.Prelude.{◌≡◌, ◌<◌, ◌≤◌, ℕ, List, [], ◌∷◌, length, map, IfOk};
ghost use Rattle.spec_text.specs.declared.surface.Expr.TheOpen.{Expr-F};
ghost use Rattle.type_check.specs.Judged.{Scope as Names};
ghost use Rattle.type_check.specs.Standing.{IsDistinct, AllMeanOption};
ghost use Rattle.typed_spec.specs.declared.arena.Arena.{Arena as ArenaValue};
ghost use Rattle.typed_text.specs.ReadSpec.{Numbers as Order, Read, first_scalar, read_step};
ghost use Rattle.typed_spec.specs.Made.{Makes, operands, type_in};
ghost use Rattle.typed_spec.specs.Texts.{StandsFor};

use crate::arena::{Arena, Operand};
use crate::members::{member_number, member_type, struct_of};
use crate::text::Text;
use crate::types::{agreement, declared, dropped, items_type, majority_of, record_type, scalar_of};
use sm_io::Seq;
use spec_text::NameAt;
use std::alloc::{AllocError, Global};
use stream_core::{Node, NodeId};
use stream_types::Scalar;
use type_check::known::{BOOL, Element, Known};

/// Expressions one after another: their nodes, and their types if they have some.
#[derive(Drop)]
pub struct Operands {
    pub ids: Vec<NodeId>,
    pub types: Vec<Option<Known>>,
}

pub fn literal(arena: &mut Arena, scalar: Scalar, word: u64) -> Result<Operand, AllocError>
    ensures within { IfOk result (λ o. o.id < length arena.new.spec.nodes) }
    ensures size { length arena.old.spec.nodes ≤ length arena.new.spec.nodes }
    ensures others { arena.new.spec ≡ record arena.old.spec { nodes = arena.new.spec.nodes } }
    ensures forms { length arena.old.forms.items ≤ length arena.new.forms.items }
    ensures made { (names : List (List ℕ)) (s : Names) (n : Order) (at : ℕ)
        → IfOk result (λ o. Makes names arena.old arena.new (o ∷ []) (read_step n s (Expr-F.Lit at scalar word) ∷ [])) }
{
    let id = arena.put(Node::Lit(scalar, word))?;
    let ty = Some(Known::Element(Element::Scalar(scalar)));
    Ok(Operand { id, ty })
}

pub fn name(text: &Text, arena: &mut Arena, x: &NameAt) -> Result<Operand, AllocError>
    ensures within { IfOk result (λ o. o.id < length arena.new.spec.nodes) }
    ensures size { length arena.old.spec.nodes ≤ length arena.new.spec.nodes }
    ensures others { arena.new.spec ≡ record arena.old.spec { nodes = arena.new.spec.nodes } }
    ensures forms { length arena.old.forms.items ≤ length arena.new.forms.items }
    ensures made { (names : List (List ℕ)) (s : Names) (n : Order) → StandsFor names s n text.now
        → IfOk result (λ o. Makes names arena.old arena.new (o ∷ []) (read_step n s (Expr-F.Name x.now) ∷ [])) }
{
    let ty = declared(&text.scope, x);
    let id = arena.put(text.named(&x.name))?;
    Ok(Operand { id, ty })
}

pub fn earlier(
    text: &Text,
    arena: &mut Arena,
    at: u64,
    k: u32,
    x: &NameAt,
) -> Result<Operand, AllocError>
    ensures within { IfOk result (λ o. o.id < length arena.new.spec.nodes) }
    ensures size { length arena.old.spec.nodes ≤ length arena.new.spec.nodes }
    ensures others { arena.new.spec ≡ record arena.old.spec { nodes = arena.new.spec.nodes } }
    ensures forms { length arena.old.forms.items ≤ length arena.new.forms.items }
    ensures made { (names : List (List ℕ)) (s : Names) (n : Order) → StandsFor names s n text.now
        → IfOk result (λ o. Makes names arena.old arena.new (o ∷ []) (read_step n s (Expr-F.Drop at k x.now) ∷ [])) }
{
    let ty = dropped(&text.scope, at, k, x);
    let stream = text.streams.number(&x.name);
    let id = arena.put(Node::Drop { stream, k })?;
    Ok(Operand { id, ty })
}

pub fn member(text: &Text, arena: &mut Arena, a: Operand, x: &NameAt) -> Result<Operand, AllocError>
    requires a { a.id < length arena.old.spec.nodes }
    ensures within { IfOk result (λ o. o.id < length arena.new.spec.nodes) }
    ensures size { length arena.old.spec.nodes ≤ length arena.new.spec.nodes }
    ensures others { arena.new.spec ≡ record arena.old.spec { nodes = arena.new.spec.nodes } }
    ensures forms { length arena.old.forms.items ≤ length arena.new.forms.items }
    ensures made { (names : List (List ℕ)) (s : Names) (n : Order) (at : ℕ) (start : ArenaValue) (p : Read) → StandsFor names s n text.now
        → Makes names start arena.old (a ∷ []) (p ∷ [])
        → IfOk result (λ o. Makes names start arena.new (o ∷ []) (read_step n s (Expr-F.Field at p x.now) ∷ [])) }
{
    let found = struct_of(text, a.ty);
    let ty = member_type(found, &x.name);
    let node = Node::Field {
        of: text.ty(a.ty),
        member: member_number(found, &x.name),
        a: a.id,
    };
    let id = arena.put(node)?;
    Ok(Operand { id, ty })
}

pub fn array(
    text: &Text,
    arena: &mut Arena,
    at: u64,
    items: Operands,
) -> Result<Operand, AllocError>
    requires there { AllByRecursion (λ j. j < length arena.old.spec.nodes) items.ids.items }
    requires paired { length items.types.items ≡ length items.ids.items }
    ensures within { IfOk result (λ o. o.id < length arena.new.spec.nodes) }
    ensures size { length arena.old.spec.nodes ≤ length arena.new.spec.nodes }
    ensures others { arena.new.spec ≡ record arena.old.spec { nodes = arena.new.spec.nodes } }
    ensures forms { length arena.old.forms.items ≤ length arena.new.forms.items }
    ensures made { (names : List (List ℕ)) (s : Names) (n : Order) (start : ArenaValue) (ps : List Read) → StandsFor names s n text.now
        → Makes names start arena.old (operands items) ps
        → IfOk result (λ o. Makes names start arena.new (o ∷ []) (read_step n s (Expr-F.Array at ps) ∷ [])) }
{
    let ty = items_type(&text.scope, at, items.types.as_slice())?;
    let id = arena.put(Node::Array(text.ty(ty), Seq::of(items.ids)))?;
    Ok(Operand { id, ty })
}

pub fn record(
    text: &Text,
    arena: &mut Arena,
    at: u64,
    name: &NameAt,
    items: Operands,
) -> Result<Operand, AllocError>
    requires there { AllByRecursion (λ j. j < length arena.old.spec.nodes) items.ids.items }
    requires paired { length items.types.items ≡ length items.ids.items }
    ensures within { IfOk result (λ o. o.id < length arena.new.spec.nodes) }
    ensures size { length arena.old.spec.nodes ≤ length arena.new.spec.nodes }
    ensures others { arena.new.spec ≡ record arena.old.spec { nodes = arena.new.spec.nodes } }
    ensures forms { length arena.old.forms.items ≤ length arena.new.forms.items }
    ensures made { (names : List (List ℕ)) (s : Names) (n : Order) (start : ArenaValue) (ps : List Read) → StandsFor names s n text.now
        → Makes names start arena.old (operands items) ps
        → IfOk result (λ o. Makes names start arena.new (o ∷ []) (read_step n s (Expr-F.Record at name.now ps) ∷ [])) }
{
    let ty = record_type(&text.scope, at, name, items.types.as_slice())?;
    let id = arena.put(Node::Record(text.ty(ty), Seq::of(items.ids)))?;
    Ok(Operand { id, ty })
}

// The scalar of the first of some votes, and Bool where there are none.
fn first_scalar(types: &[Option<Known>]) -> Scalar
    ensures { (names : List (List ℕ)) (ps : List Read) → AllMeanOption names types.now (map type_in ps) → result ≡ first_scalar ps }
{
    match types.first() {
        Some(ty) => scalar_of(*ty),
        None => Scalar::Bool,
    }
}

pub fn majority(
    alloc: Global,
    arena: &mut Arena,
    at: u64,
    items: Operands,
) -> Result<Operand, AllocError>
    requires there { AllByRecursion (λ j. j < length arena.old.spec.nodes) items.ids.items }
    requires paired { length items.types.items ≡ length items.ids.items }
    ensures within { IfOk result (λ o. o.id < length arena.new.spec.nodes) }
    ensures size { length arena.old.spec.nodes ≤ length arena.new.spec.nodes }
    ensures others { arena.new.spec ≡ record arena.old.spec { nodes = arena.new.spec.nodes } }
    ensures forms { length arena.old.forms.items ≤ length arena.new.forms.items }
    ensures made { (names : List (List ℕ)) (s : Names) (n : Order) (start : ArenaValue) (ps : List Read) → IsDistinct names
        → Makes names start arena.old (operands items) ps
        → IfOk result (λ o. Makes names start arena.new (o ∷ []) (read_step n s (Expr-F.Majority at ps) ∷ [])) }
{
    let ty = majority_of(alloc, at, items.types.as_slice())?;
    let scalar = first_scalar(items.types.as_slice());
    let id = arena.put(Node::Majority(scalar, Seq::of(items.ids)))?;
    Ok(Operand { id, ty })
}

pub fn agreed(
    alloc: Global,
    arena: &mut Arena,
    at: u64,
    items: Operands,
) -> Result<Operand, AllocError>
    requires there { AllByRecursion (λ j. j < length arena.old.spec.nodes) items.ids.items }
    requires paired { length items.types.items ≡ length items.ids.items }
    ensures within { IfOk result (λ o. o.id < length arena.new.spec.nodes) }
    ensures size { length arena.old.spec.nodes ≤ length arena.new.spec.nodes }
    ensures others { arena.new.spec ≡ record arena.old.spec { nodes = arena.new.spec.nodes } }
    ensures forms { length arena.old.forms.items ≤ length arena.new.forms.items }
    ensures made { (names : List (List ℕ)) (s : Names) (n : Order) (start : ArenaValue) (ps : List Read) → IsDistinct names
        → Makes names start arena.old (operands items) ps
        → IfOk result (λ o. Makes names start arena.new (o ∷ []) (read_step n s (Expr-F.Agreed at ps) ∷ [])) }
{
    let ty = agreement(alloc, at, items.types.as_slice())?;
    let scalar = first_scalar(items.types.as_slice());
    let id = arena.put(Node::Agreed(scalar, Seq::of(items.ids)))?;
    Ok(Operand { id, ty })
}
