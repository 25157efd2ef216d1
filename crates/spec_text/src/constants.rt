// Constants in a forest.
ghost use Rattle.std.specs.Prelude.{map};
ghost use Rattle.spec_forest.specs.Node.{node, nodes, atom, list};
ghost use Rattle.spec_text.specs.Shape.{constant};
ghost use Rattle.spec_text.specs.FirstFault.{fault_in};
ghost use Rattle.spec_text.specs.Holds.{HoldsConst};
ghost use Rattle.spec_text.specs.Parses.{Parses, ParsesConst, ParsesEach};
ghost use Rattle.spec_text.specs.Form.{form_of_const};
ghost use Rattle.spec_text.specs.KeepsTable.{keeps_const};
ghost use Rattle.spec_words.specs.Words.{const_word};
ghost use Rattle.spec_words.specs.declared.head.ConstHead.TheVariants as const_head_of;

use crate::fault::ShapeFault;
use crate::names::read_name;
use crate::parts::{first, headed, some_item, some_up_to};
use crate::surface::ConstForm;
use spec_forest::Tree;
use spec_words::{ConstHead, const_head, literal};
use sqlite_items::Items;
use std::alloc::Global;

#[tactic(auto, using(crate::specs::FoldRows::const_rows, spec_words::proofs::LiteralLaws::read_literals), unfolding(crate::specs::Form::form_of_const, crate::specs::KeepsTable::keeps_const))]
fn const_atom(at: u64, text: &[u8]) -> Result<ConstForm, ShapeFault>
    ensures { Parses (fault_in constant (atom at text.now)) (HoldsConst (atom at text.now)) result }
{
    match literal(text) {
        Some((scalar, word)) => Ok(ConstForm::Lit { at, scalar, word }),
        None => Err(ShapeFault::BadLiteral(at)),
    }
}

#[cycle(constants)]
#[tactic(auto, using(crate::specs::FoldRows::const_rows, crate::proofs::Counts::kept_counts), unfolding(crate::specs::Form::form_of_const, crate::specs::KeepsTable::keeps_const))]
fn array_const(alloc: Global, at: u64, parts: &[Tree]) -> Result<ConstForm, ShapeFault>
    ensures { ParsesConst at const_head_of.Array (nodes (map node parts.now)) result }
{
    some_up_to(at, parts, 1024)?;
    let items = read_constants(alloc, parts)?;
    let items = Items::from_vec(items);
    Ok(ConstForm::Array { at, items })
}

#[cycle(constants)]
#[tactic(auto, using(crate::specs::FoldRows::const_rows, crate::proofs::Counts::kept_counts), unfolding(crate::specs::Form::form_of_const, crate::specs::KeepsTable::keeps_const))]
fn record_const(alloc: Global, at: u64, parts: &[Tree]) -> Result<ConstForm, ShapeFault>
    ensures { ParsesConst at const_head_of.Record (nodes (map node parts.now)) result }
{
    let (name, rest) = first(at, parts)?;
    some_item(at, rest)?;
    let name = read_name(alloc, name)?;
    let items = read_constants(alloc, rest)?;
    let items = Items::from_vec(items);
    Ok(ConstForm::Record { at, name, items })
}

#[cycle(constants)]
fn const_form(
    alloc: Global,
    at: u64,
    head: ConstHead,
    parts: &[Tree],
) -> Result<ConstForm, ShapeFault>
    ensures { ParsesConst at head (nodes (map node parts.now)) result }
{
    match head {
        ConstHead::Array => array_const(alloc, at, parts),
        ConstHead::Record => record_const(alloc, at, parts),
    }
}

#[cycle(constants)]
fn const_list(alloc: Global, at: u64, items: &[Tree]) -> Result<ConstForm, ShapeFault>
    ensures { Parses (fault_in constant (list at (nodes (map node items.now)))) (HoldsConst (list at (nodes (map node items.now)))) result }
{
    let Some((word, parts)) = headed(items) else {
        return Err(ShapeFault::BadForm(at));
    };
    let Some(head) = const_head(word) else {
        return Err(ShapeFault::BadForm(at));
    };
    const_form(alloc, at, head, parts)
}

/// Reads a constant.
#[cycle(constants)]
#[tactic(auto, using(spec_forest::specs::NodeLaws::node_laws))]
fn read_constant(alloc: Global, tree: &Tree) -> Result<ConstForm, ShapeFault>
    ensures { Parses (fault_in constant (node tree.now)) (HoldsConst (node tree.now)) result }
{
    match tree {
        Tree::Atom { at, text } => const_atom(*at, text.bytes()),
        Tree::List { at, items } => const_list(alloc, *at, items.as_slice()),
    }
}

/// Reads constants one after another.
#[cycle(constants)]
pub fn read_constants(alloc: Global, trees: &[Tree]) -> Result<Vec<ConstForm>, ShapeFault>
    ensures { ParsesEach constant form_of_const keeps_const (nodes (map node trees.now)) result }
{
    let mut all = Vec::new(alloc);
    for tree in trees {
        let item = read_constant(alloc, tree)?;
        all.push(item)?;
    }
    Ok(all)
}
