// Types in a forest.
ghost use Rattle.spec_forest.specs.Node.{node, nodes, atom, list};
ghost use Rattle.std.specs.Prelude.{map};
ghost use Rattle.spec_text.specs.Shape.{ty, type_items};
ghost use Rattle.spec_text.specs.FirstFault.{fault_in};
ghost use Rattle.spec_text.specs.Holds.{HoldsType};
ghost use Rattle.spec_text.specs.Parses.{Parses, ParsesForm};
ghost use Rattle.spec_text.specs.Form.{form_of_type};
ghost use Rattle.spec_text.specs.KeepsTable.{keeps_type};
ghost use Rattle.spec_words.specs.Words.{array_word};

use crate::fault::ShapeFault;
use crate::names::name_of;
use crate::parts::{headed, read_number, two};
use crate::surface::{NameAt, TypeForm};
use sm_io::is_name;
use spec_forest::Tree;
use spec_words::{is_array_word, scalar_of};
use sqlite_items::Boxed;
use std::alloc::Global;

#[tactic(auto, using(crate::specs::FoldRows::type_rows, spec_words::proofs::WordLaws::found_words), unfolding(crate::specs::Form::form_of_type, crate::specs::KeepsTable::keeps_type))]
fn type_atom(alloc: Global, at: u64, text: &[u8]) -> Result<TypeForm, ShapeFault>
    ensures { Parses (fault_in ty (atom at text.now)) (HoldsType (atom at text.now)) result }
{
    if let Some(scalar) = scalar_of(text) {
        return Ok(TypeForm::Scalar { at, scalar });
    }
    if !is_name(text) {
        return Err(ShapeFault::BadName(at));
    }
    let name = name_of(alloc, text)?;
    Ok(TypeForm::Named(NameAt { at, name }))
}

#[cycle(typing)]
#[tactic(auto, using(crate::specs::FoldRows::type_rows), unfolding(crate::specs::Form::form_of_type, crate::specs::KeepsTable::keeps_type))]
fn array_type(alloc: Global, at: u64, parts: &[Tree]) -> Result<TypeForm, ShapeFault>
    ensures { ParsesForm form_of_type keeps_type at array_word type_items (nodes (map node parts.now)) result }
{
    let (elem, n) = two(at, parts)?;
    let elem = read_type(alloc, elem)?;
    let n = read_number(n, 1, 1024)?;
    let elem = Boxed::new(alloc, elem)?;
    Ok(TypeForm::Array { at, elem, n })
}

#[cycle(typing)]
fn type_list(alloc: Global, at: u64, items: &[Tree]) -> Result<TypeForm, ShapeFault>
    ensures { Parses (fault_in ty (list at (nodes (map node items.now)))) (HoldsType (list at (nodes (map node items.now)))) result }
{
    let Some((word, parts)) = headed(items) else {
        return Err(ShapeFault::BadForm(at));
    };
    if !is_array_word(word) {
        return Err(ShapeFault::BadForm(at));
    }
    array_type(alloc, at, parts)
}

/// Reads a type.
#[cycle(typing)]
#[tactic(auto, using(spec_forest::specs::NodeLaws::node_laws))]
pub fn read_type(alloc: Global, tree: &Tree) -> Result<TypeForm, ShapeFault>
    ensures { Parses (fault_in ty (node tree.now)) (HoldsType (node tree.now)) result }
{
    match tree {
        Tree::Atom { at, text } => type_atom(alloc, *at, text.bytes()),
        Tree::List { at, items } => type_list(alloc, *at, items.as_slice()),
    }
}
