// The nodes that names stand for.
ghost use Rattle.std.specs.Prelude.{◌<◌, length, slice_get, IfNone, IfSome};
ghost use Rattle.stream_core.specs.Acyclic.{WellFounded};
ghost use Rattle.stream_core.specs.Limits.{tree_size};
ghost use Rattle.stream_core.specs.Term.{closed};
ghost use Rattle.stream_core.specs.WellTyped.{WellTyped};
ghost use Rattle.stream_interp.specs.Reading.{IsBehind, IsNoDef};

use stream_core::{Node, NodeId, Spec};

// The expression of the def that a node names.
fn named_by(spec: &Spec, id: NodeId) -> Option<NodeId>
    requires founded { WellFounded spec.now }
    requires typed { WellTyped spec.now }
    requires there { id < length spec.now.nodes }
    ensures none { IfNone result (IfSome (slice_get spec.now.nodes id) IsNoDef) }
    ensures some { IfSome result (λ j. IsBehind spec.now id j) }
    ensures smaller { IfSome result (λ j. tree_size (closed spec.now j) < tree_size (closed spec.now id)) }
{
    match spec.node(id) {
        Node::Def(d) => Some(spec.defs()[*d as usize].expr),
        _ => None,
    }
}

/// The node that a chain of names ends at.
pub(crate) fn behind(spec: &Spec, id: NodeId) -> NodeId
    requires founded { WellFounded spec.now }
    requires typed { WellTyped spec.now }
    requires there { id < length spec.now.nodes }
    ensures behind { IsBehind spec.now id result }
    ensures no_def { IfSome (slice_get spec.now.nodes result) IsNoDef }
{
    let mut at = id;
    'chain: loop {
        match named_by(spec, at) {
            Some(next) => at = next,
            None => return at,
        }
    }
}
