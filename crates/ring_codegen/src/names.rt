// The nodes that names stand for.
ghost use Rattle.std.specs.Prelude.{◌≡◌, ◌<◌, ◌≤◌, length, slice_get, IfNone, IfSome};
ghost use Rattle.stream_core.specs.Acyclic.{WellFounded};
ghost use Rattle.stream_core.specs.Limits.{tree_size};
ghost use Rattle.stream_core.specs.Term.{closed};
ghost use Rattle.ring_codegen.specs.Items.{IsNoDef, expression_of};

use stream_core::{Node, NodeId, Spec};

// The expression of the def that a node names.
fn named_by(spec: &Spec, id: NodeId) -> Option<NodeId>
    requires founded { WellFounded spec.now }
    requires there { id < length spec.now.nodes }
    ensures none { IfNone result (IfSome (slice_get spec.now.nodes id) IsNoDef) }
    ensures there { IfSome result (λ j. j < length spec.now.nodes) }
    ensures same { IfSome result (λ j. expression_of spec.now j ≡ expression_of spec.now id) }
    ensures smaller { IfSome result (λ j. tree_size (closed spec.now j) < tree_size (closed spec.now id)) }
{
    match spec.node(id) {
        Node::Def(d) => Some(spec.defs()[*d as usize].expr),
        _ => None,
    }
}

/// The node that a chain of names ends at.
pub(crate) fn behind(spec: &Spec, id: NodeId) -> NodeId
    requires founded { WellFounded spec.now }
    requires there { id < length spec.now.nodes }
    ensures there { result < length spec.now.nodes }
    ensures no_def { IfSome (slice_get spec.now.nodes result) IsNoDef }
    ensures same { expression_of spec.now result ≡ expression_of spec.now id }
    ensures smaller { tree_size (closed spec.now result) ≤ tree_size (closed spec.now id) }
{
    let mut at = id;
    'chain: loop {
        match named_by(spec, at) {
            Some(next) => at = next,
            None => return at,
        }
    }
}
