// Where the places of the graph lead.
ghost use Rattle.std.specs.Prelude.{◌≡◌, ◌+◌, ◌<◌, ◌^◌, ◌++◌, length, map, slice_get, Some, OnOk};
ghost use Rattle.std.specs.List.{AllByRecursion};
ghost use Rattle.stream_core.specs.Ordered.{all_parts};
ghost use Rattle.stream_core.specs.WellTyped.{WellTyped};
ghost use Rattle.recursion_check.specs.Graph.{next, node_next, places};
ghost use Rattle.recursion_check.specs.Walked.{edge};

use std::alloc::AllocError;
use stream_core::{DefItem, Node, NodeId, Spec};

/// A step that is still to be taken: from the open place of this number on the path to a place.
#[derive(Clone, Copy, Debug)]
pub(crate) struct Edge {
    pub(crate) from: usize,
    pub(crate) to: usize,
}

// Adds a step to each place to which place `v` leads.
pub(crate) fn push_edges(
    todo: &mut Vec<Edge>,
    spec: &Spec,
    v: usize,
    from: usize,
) -> Result<(), AllocError>
    requires typed { WellTyped spec.now }
    requires there { v < places spec.now }
    requires room { places spec.now < 2 ^ 64 }
    ensures { OnOk result (todo.new.items ≡ todo.old.items ++ map (edge from) (next spec.now v)) }
{
    let defs = spec.defs();
    if v < defs.len() {
        let expr = expr_of(&defs[v]);
        todo.push(Edge {
            from,
            to: defs.len() + expr.0,
        })?;
        return Ok(());
    }
    push_node(todo, spec, NodeId(v - defs.len()), from)
}

fn expr_of(def: &DefItem) -> NodeId
    ensures { result ≡ def.now.expr }
{
    def.expr
}

fn push_node(todo: &mut Vec<Edge>, spec: &Spec, id: NodeId, from: usize) -> Result<(), AllocError>
    requires typed { WellTyped spec.now }
    requires there { id < length spec.now.nodes }
    requires room { places spec.now < 2 ^ 64 }
    ensures { OnOk result (todo.new.items ≡ todo.old.items ++ map (edge from) (node_next spec.now (slice_get spec.now.nodes id))) }
{
    let defs = spec.defs().len();
    match spec.node(id) {
        Node::Lit(_, _) | Node::Extern(_) | Node::Stream(_) | Node::Drop { stream: _, k: _ } => {}
        Node::Def(d) => todo.push(Edge {
            from,
            to: *d as usize,
        })?,
        Node::Un(_, _, a)
        | Node::Cast { from: _, to: _, a }
        | Node::Field {
            of: _,
            member: _,
            a,
        }
        | Node::Abs(_, a)
        | Node::Sign(_, a) => push_all(todo, &[*a], defs, from)?,
        Node::Shift {
            dir: _,
            ty: _,
            a,
            cty: _,
            count,
        } => push_all(todo, &[*a, *count], defs, from)?,
        Node::Bin(_, _, a, b)
        | Node::And(a, b)
        | Node::Or(a, b)
        | Node::Implies(a, b)
        | Node::Index(_, a, b) => push_all(todo, &[*a, *b], defs, from)?,
        Node::If(c, a, b) => push_all(todo, &[*c, *a, *b], defs, from)?,
        Node::Array(_, es) | Node::Record(_, es) | Node::Majority(_, es) | Node::Agreed(_, es) => {
            push_all(todo, es.as_slice(), defs, from)?
        }
        Node::Lib(k) => push_all(todo, spec.libs()[*k as usize].args.as_slice(), defs, from)?,
    }
    Ok(())
}

// Adds a step to each of these nodes, which come behind the defs.
fn push_all(
    todo: &mut Vec<Edge>,
    ids: &[NodeId],
    defs: usize,
    from: usize,
) -> Result<(), AllocError>
    requires { AllByRecursion (λ j. defs + j < 2 ^ 64) ids.now }
    ensures { OnOk result (todo.new.items ≡ todo.old.items ++ map (edge from) (map (λ j. defs + j) ids.now)) }
{
    for id in ids {
        todo.push(Edge {
            from,
            to: defs + id.0,
        })?;
    }
    Ok(())
}
