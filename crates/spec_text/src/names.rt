// Names in a forest.
ghost use Rattle.std.specs.Prelude.{◌≡◌, IfOk, true};
ghost use Rattle.sm_io.specs.Words.{is_name};
ghost use Rattle.spec_forest.specs.Node.{node};
ghost use Rattle.spec_text.specs.Shape.{name};
ghost use Rattle.spec_text.specs.FirstFault.{fault_in};
ghost use Rattle.spec_text.specs.Holds.{HoldsName};
ghost use Rattle.spec_text.specs.Parses.{Parses};

use crate::fault::ShapeFault;
use crate::surface::NameAt;
use sm_io::{Name, is_name};
use spec_forest::Tree;
use std::alloc::{AllocError, Global};

/// The name of these bytes.
pub fn name_of(alloc: Global, bytes: &[u8]) -> Result<Name, AllocError>
    requires { is_name bytes.now ≡ true }
    ensures { IfOk result (λ x. x ≡ bytes.now) }
{
    let bytes = Vec::from_slice(alloc, bytes)?;
    Ok(Name::new(bytes))
}

/// Reads a name.
#[tactic(auto, using(spec_forest::specs::NodeLaws::node_laws))]
pub fn read_name(alloc: Global, tree: &Tree) -> Result<NameAt, ShapeFault>
    ensures { Parses (fault_in name (node tree.now)) (HoldsName (node tree.now)) result }
{
    match tree {
        Tree::Atom { at, text } => {
            if !is_name(text.bytes()) {
                return Err(ShapeFault::BadName(*at));
            }
            let name = name_of(alloc, text.bytes())?;
            Ok(NameAt { at: *at, name })
        }
        Tree::List { at, .. } => Err(ShapeFault::BadName(*at)),
    }
}
