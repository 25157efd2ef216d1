// How many words an evaluation keeps at once.
ghost use Rattle.std.specs.Prelude.{◌≡◌, ◌+◌, ◌<◌, length, All, IfOk};
ghost use Rattle.std.specs.List.{AllByRecursion};
ghost use Rattle.stream_core.specs.Acyclic.{WellFounded};
ghost use Rattle.stream_core.specs.Parts.{parts};
ghost use Rattle.stream_core.specs.Term.{build, closed, closed_def, def, tree, trees};
ghost use Rattle.stream_core.specs.Signature.{signature_of};
ghost use Rattle.stream_core.specs.WellTyped.{HasType, WellTyped};
ghost use Rattle.stream_core.specs.Weights.{IsTriggerThere};
ghost use Rattle.stream_core.specs.declared.spec.Root.{Root as AnyRoot};
ghost use Rattle.stream_core.specs.declared.spec.ObserverItem.{ObserverItem as AnyObserver};
ghost use Rattle.stream_core.specs.declared.spec.StreamItem.{StreamItem as AnyStream};
ghost use Rattle.stream_types.specs.declared.scalar.Ty.{Ty as AnyType};
ghost use Rattle.stream_types.specs.TypeList.{Stands};
ghost use Rattle.stream_types.specs.Types.{words};
ghost use Rattle.stream_lib.specs.PlainSpecs.{IsSoundPlain};
ghost use Rattle.stream_interp.specs.Reading.{IsNoDef};
ghost use Rattle.stream_interp.specs.Room.{node_room, nodes_room, observers_room, room, roots_room, spec_room, streams_room, triggers_room};

use crate::layout::added;
use crate::names::behind;
use std::alloc::AllocError;
use stream_core::{Node, NodeId, ObserverItem, Root, Spec, StreamItem, TriggerItem};
use stream_types::Ty;

// So many words and those of a value of a type.
fn beside(spec: &Spec, of: Ty, n: usize) -> Result<usize, AllocError>
    requires { Stands spec.now.types of }
    ensures { IfOk result (λ m. m ≡ words spec.now.types of + n) }
{
    added(spec.types().words(of) as usize, n)
}

#[cycle(measuring)]
fn room_at(spec: &Spec, id: NodeId) -> Result<usize, AllocError>
    requires founded { WellFounded spec.now }
    requires typed { WellTyped spec.now }
    requires there { id < length spec.now.nodes }
    ensures { IfOk result (λ n. n ≡ node_room spec.now id) }
{
    let end = behind(spec, id);
    room_of(spec, spec.node(end))
}

#[cycle(measuring)]
fn room_of(spec: &Spec, node: &Node) -> Result<usize, AllocError>
    requires founded { WellFounded spec.now }
    requires typed { WellTyped spec.now }
    requires parts { AllByRecursion (λ j. j < length spec.now.nodes) (parts node.now) }
    requires no_def { IsNoDef node.now }
    requires has { (t : AnyType) × HasType (signature_of (trees spec.now)) (build spec.now.libs def (tree spec.now.nodes spec.now.libs) node.now) t }
    ensures { IfOk result (λ n. n ≡ room spec.now.types (build spec.now.libs (closed_def spec.now) (closed spec.now) node.now)) }
{
    match node {
        Node::Un(_, _, a) | Node::Cast { from: _, to: _, a } => room_at(spec, *a),
        Node::Bin(_, _, a, b) | Node::And(a, b) | Node::Or(a, b) | Node::Implies(a, b) => {
            greatest(spec, &[*a, *b])
        }
        Node::Shift {
            dir: _,
            ty: _,
            a,
            cty: _,
            count,
        } => greatest(spec, &[*a, *count]),
        Node::If(c, a, b) => greatest(spec, &[*c, *a, *b]),
        Node::Index(of, a, i) => beside(spec, *of, greatest(spec, &[*a, *i])?),
        Node::Field { of, member: _, a } => beside(spec, *of, room_at(spec, *a)?),
        Node::Array(_, es) | Node::Record(_, es) => greatest(spec, es.as_slice()),
        _ => Ok(0),
    }
}

// The greatest room of these nodes.
#[cycle(measuring)]
fn greatest(spec: &Spec, ids: &[NodeId]) -> Result<usize, AllocError>
    requires founded { WellFounded spec.now }
    requires typed { WellTyped spec.now }
    requires there { AllByRecursion (λ j. j < length spec.now.nodes) ids.now }
    ensures { IfOk result (λ n. n ≡ nodes_room spec.now ids.now) }
{
    let mut most = 0;
    for id in ids {
        most = room_at(spec, *id)?.max(most);
    }
    Ok(most)
}

fn of_roots(spec: &Spec, items: &[Root]) -> Result<usize, AllocError>
    requires founded { WellFounded spec.now }
    requires typed { WellTyped spec.now }
    requires there { All (λ (r : AnyRoot). r.expr < length spec.now.nodes) items.now }
    ensures { IfOk result (λ n. n ≡ roots_room spec.now items.now) }
{
    let mut most = 0;
    for root in items {
        most = room_at(spec, root.expr)?.max(most);
    }
    Ok(most)
}

fn of_triggers(spec: &Spec, items: &[TriggerItem]) -> Result<usize, AllocError>
    requires founded { WellFounded spec.now }
    requires typed { WellTyped spec.now }
    requires there { All (IsTriggerThere spec.now) items.now }
    ensures { IfOk result (λ n. n ≡ triggers_room spec.now items.now) }
{
    let mut most = 0;
    for x in items {
        let guard = room_at(spec, x.guard.expr)?;
        let args = of_roots(spec, x.args.as_slice())?;
        most = guard.max(args).max(most);
    }
    Ok(most)
}

fn of_observers(spec: &Spec, items: &[ObserverItem]) -> Result<usize, AllocError>
    requires founded { WellFounded spec.now }
    requires typed { WellTyped spec.now }
    requires there { All (λ (x : AnyObserver). x.root.expr < length spec.now.nodes) items.now }
    ensures { IfOk result (λ n. n ≡ observers_room spec.now items.now) }
{
    let mut most = 0;
    for x in items {
        most = room_at(spec, x.root.expr)?.max(most);
    }
    Ok(most)
}

fn of_streams(spec: &Spec, items: &[StreamItem]) -> Result<usize, AllocError>
    requires founded { WellFounded spec.now }
    requires typed { WellTyped spec.now }
    requires there { All (λ (x : AnyStream). x.expr < length spec.now.nodes) items.now }
    ensures { IfOk result (λ n. n ≡ streams_room spec.now items.now) }
{
    let mut most = 0;
    for x in items {
        most = room_at(spec, x.expr)?.max(most);
    }
    Ok(most)
}

/// The greatest room that an expression of a specification takes.
#[tactic(auto, unfolding(crate::specs::Room::spec_room))]
pub(crate) fn greatest_room(spec: &Spec) -> Result<usize, AllocError>
    requires { IsSoundPlain spec.now }
    ensures { IfOk result (λ n. n ≡ spec_room spec.now) }
{
    let fired = of_triggers(spec, spec.triggers())?;
    let shown = of_observers(spec, spec.observers())?;
    let kept = of_streams(spec, spec.streams())?;
    Ok(fired.max(shown).max(kept))
}
