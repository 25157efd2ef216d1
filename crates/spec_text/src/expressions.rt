// Expressions in a forest.
ghost use Rattle.std.specs.Prelude.{◌≡◌, map, false, IsTrue};
ghost use Rattle.spec_forest.specs.Node.{node, nodes, atom, list};
ghost use Rattle.spec_text.specs.Shape.{expression};
ghost use Rattle.spec_text.specs.FirstFault.{fault_in};
ghost use Rattle.spec_text.specs.Holds.{HoldsExpr};
ghost use Rattle.spec_text.specs.Parses.{Parses, ParsesExpr, ParsesEach};
ghost use Rattle.spec_text.specs.Form.{form_of_expr};
ghost use Rattle.spec_words.specs.Literals.{is_numeric};
ghost use Rattle.spec_text.specs.KeepsTable.{keeps_expr};
ghost use Rattle.spec_words.specs.Words.{head_word, single_word, pair_word, bounded_word, vote_word, window_word};
ghost use Rattle.spec_words.specs.declared.head.Head.TheVariants as h;

use crate::fault::ShapeFault;
use crate::forms::{bounded, pair, single, vote, window};
use crate::names::{name_of, read_name};
use crate::parts::{
    first, four, headed, one, read_bounds, read_clock, read_number, some_item, some_up_to, three,
    two,
};
use crate::surface::{Expr, NameAt};
use crate::types::read_type;
use sm_io::is_name;
use spec_forest::Tree;
use spec_words::{
    Bounded, Head, Pair, Single, Vote, Window, head_of, is_numeric, literal, truth_of,
};
use sqlite_items::{Boxed, Items};
use std::alloc::Global;
use stream_types::Scalar;

#[tactic(auto, using(crate::specs::FoldRows::expr_rows, spec_words::proofs::LiteralLaws::read_literals), unfolding(crate::specs::Form::form_of_expr, crate::specs::KeepsTable::keeps_expr))]
fn literal_atom(at: u64, text: &[u8]) -> Result<Expr, ShapeFault>
    requires { IsTrue (is_numeric text.now) }
    ensures { Parses (fault_in expression (atom at text.now)) (HoldsExpr (atom at text.now)) result }
{
    match literal(text) {
        Some((scalar, word)) => Ok(Expr::Lit { at, scalar, word }),
        None => Err(ShapeFault::BadLiteral(at)),
    }
}

#[tactic(auto, using(crate::specs::FoldRows::expr_rows, spec_words::proofs::LiteralLaws::read_truths), unfolding(crate::specs::Form::form_of_expr, crate::specs::KeepsTable::keeps_expr))]
fn word_atom(alloc: Global, at: u64, text: &[u8]) -> Result<Expr, ShapeFault>
    requires { is_numeric text.now ≡ false }
    ensures { Parses (fault_in expression (atom at text.now)) (HoldsExpr (atom at text.now)) result }
{
    if let Some(word) = truth_of(text) {
        let scalar = Scalar::Bool;
        return Ok(Expr::Lit { at, scalar, word });
    }
    if !is_name(text) {
        return Err(ShapeFault::BadName(at));
    }
    let name = name_of(alloc, text)?;
    Ok(Expr::Name(NameAt { at, name }))
}

fn expr_atom(alloc: Global, at: u64, text: &[u8]) -> Result<Expr, ShapeFault>
    ensures { Parses (fault_in expression (atom at text.now)) (HoldsExpr (atom at text.now)) result }
{
    if is_numeric(text) {
        literal_atom(at, text)
    } else {
        word_atom(alloc, at, text)
    }
}

#[tactic(auto, using(crate::specs::FoldRows::expr_rows), unfolding(crate::specs::Form::form_of_expr, crate::specs::KeepsTable::keeps_expr))]
fn drop_form(alloc: Global, at: u64, parts: &[Tree]) -> Result<Expr, ShapeFault>
    ensures { ParsesExpr at h.Drop (nodes (map node parts.now)) result }
{
    let (k, name) = two(at, parts)?;
    let k = read_number(k, 0, u32::MAX)?;
    let name = read_name(alloc, name)?;
    Ok(Expr::Drop { at, k, name })
}

#[tactic(auto, using(crate::specs::FoldRows::expr_rows), unfolding(crate::specs::Form::form_of_expr, crate::specs::KeepsTable::keeps_expr))]
fn clock_form(at: u64, parts: &[Tree]) -> Result<Expr, ShapeFault>
    ensures { ParsesExpr at h.Clock (nodes (map node parts.now)) result }
{
    let (period, phase) = two(at, parts)?;
    let (period, phase) = read_clock(period, phase)?;
    Ok(Expr::Clock { at, period, phase })
}

#[cycle(expressions)]
fn single_form(alloc: Global, at: u64, head: Single, parts: &[Tree]) -> Result<Expr, ShapeFault>
    ensures { ParsesExpr at (h.Single head) (nodes (map node parts.now)) result }
{
    let a = one(at, parts)?;
    let a = read_boxed(alloc, a)?;
    Ok(single(at, head, a))
}

#[cycle(expressions)]
fn pair_form(alloc: Global, at: u64, head: Pair, parts: &[Tree]) -> Result<Expr, ShapeFault>
    ensures { ParsesExpr at (h.Pair head) (nodes (map node parts.now)) result }
{
    let (a, b) = two(at, parts)?;
    let a = read_boxed(alloc, a)?;
    let b = read_boxed(alloc, b)?;
    Ok(pair(at, head, a, b))
}

#[cycle(expressions)]
#[tactic(auto, using(crate::specs::FoldRows::expr_rows), unfolding(crate::specs::Form::form_of_expr, crate::specs::KeepsTable::keeps_expr))]
fn if_form(alloc: Global, at: u64, parts: &[Tree]) -> Result<Expr, ShapeFault>
    ensures { ParsesExpr at h.If (nodes (map node parts.now)) result }
{
    let (c, a, b) = three(at, parts)?;
    let c = read_boxed(alloc, c)?;
    let a = read_boxed(alloc, a)?;
    let b = read_boxed(alloc, b)?;
    Ok(Expr::If { at, c, a, b })
}

#[cycle(expressions)]
#[tactic(auto, using(crate::specs::FoldRows::expr_rows), unfolding(crate::specs::Form::form_of_expr, crate::specs::KeepsTable::keeps_expr))]
fn cast_form(alloc: Global, at: u64, parts: &[Tree]) -> Result<Expr, ShapeFault>
    ensures { ParsesExpr at h.Cast (nodes (map node parts.now)) result }
{
    let (to, a) = two(at, parts)?;
    let to = read_type(alloc, to)?;
    let a = read_boxed(alloc, a)?;
    Ok(Expr::Cast { at, to, a })
}

#[cycle(expressions)]
#[tactic(auto, using(crate::specs::FoldRows::expr_rows), unfolding(crate::specs::Form::form_of_expr, crate::specs::KeepsTable::keeps_expr))]
fn field_form(alloc: Global, at: u64, parts: &[Tree]) -> Result<Expr, ShapeFault>
    ensures { ParsesExpr at h.Field (nodes (map node parts.now)) result }
{
    let (a, member) = two(at, parts)?;
    let a = read_boxed(alloc, a)?;
    let member = read_name(alloc, member)?;
    Ok(Expr::Field { at, a, member })
}

#[cycle(expressions)]
#[tactic(auto, using(crate::specs::FoldRows::expr_rows, crate::proofs::Counts::kept_counts), unfolding(crate::specs::Form::form_of_expr, crate::specs::KeepsTable::keeps_expr))]
fn array_form(alloc: Global, at: u64, parts: &[Tree]) -> Result<Expr, ShapeFault>
    ensures { ParsesExpr at h.Array (nodes (map node parts.now)) result }
{
    some_up_to(at, parts, 1024)?;
    let items = read_exprs(alloc, parts)?;
    let items = Items::from_vec(items);
    Ok(Expr::Array { at, items })
}

#[cycle(expressions)]
#[tactic(auto, using(crate::specs::FoldRows::expr_rows, crate::proofs::Counts::kept_counts), unfolding(crate::specs::Form::form_of_expr, crate::specs::KeepsTable::keeps_expr))]
fn record_form(alloc: Global, at: u64, parts: &[Tree]) -> Result<Expr, ShapeFault>
    ensures { ParsesExpr at h.Record (nodes (map node parts.now)) result }
{
    let (name, rest) = first(at, parts)?;
    some_item(at, rest)?;
    let name = read_name(alloc, name)?;
    let items = read_exprs(alloc, rest)?;
    let items = Items::from_vec(items);
    Ok(Expr::Record { at, name, items })
}

#[cycle(expressions)]
fn bounded_form(alloc: Global, at: u64, head: Bounded, parts: &[Tree]) -> Result<Expr, ShapeFault>
    ensures { ParsesExpr at (h.Bounded head) (nodes (map node parts.now)) result }
{
    let (low, high, p) = three(at, parts)?;
    let (low, high) = read_bounds(low, high)?;
    let p = read_boxed(alloc, p)?;
    Ok(bounded(at, head, low, high, p))
}

#[cycle(expressions)]
#[tactic(auto, using(crate::specs::FoldRows::expr_rows), unfolding(crate::specs::Form::form_of_expr, crate::specs::KeepsTable::keeps_expr))]
fn since_in_form(alloc: Global, at: u64, parts: &[Tree]) -> Result<Expr, ShapeFault>
    ensures { ParsesExpr at h.SinceIn (nodes (map node parts.now)) result }
{
    let (low, high, p, q) = four(at, parts)?;
    let (low, high) = read_bounds(low, high)?;
    let p = read_boxed(alloc, p)?;
    let q = read_boxed(alloc, q)?;
    Ok(Expr::SinceIn {
        at,
        low,
        high,
        p,
        q,
    })
}

#[cycle(expressions)]
#[tactic(auto, using(crate::proofs::Counts::kept_counts))]
fn vote_form(alloc: Global, at: u64, head: Vote, parts: &[Tree]) -> Result<Expr, ShapeFault>
    ensures { ParsesExpr at (h.Vote head) (nodes (map node parts.now)) result }
{
    some_up_to(at, parts, 9)?;
    let items = read_exprs(alloc, parts)?;
    Ok(vote(at, head, Items::from_vec(items)))
}

#[cycle(expressions)]
fn window_form(alloc: Global, at: u64, head: Window, parts: &[Tree]) -> Result<Expr, ShapeFault>
    ensures { ParsesExpr at (h.Window head) (nodes (map node parts.now)) result }
{
    let (n, e) = two(at, parts)?;
    let n = read_number(n, 1, 12)?;
    let e = read_boxed(alloc, e)?;
    Ok(window(at, head, n, e))
}

#[cycle(expressions)]
fn expr_form(alloc: Global, at: u64, head: Head, parts: &[Tree]) -> Result<Expr, ShapeFault>
    ensures { ParsesExpr at head (nodes (map node parts.now)) result }
{
    match head {
        Head::Drop => drop_form(alloc, at, parts),
        Head::Single(head) => single_form(alloc, at, head, parts),
        Head::Pair(head) => pair_form(alloc, at, head, parts),
        Head::If => if_form(alloc, at, parts),
        Head::Cast => cast_form(alloc, at, parts),
        Head::Field => field_form(alloc, at, parts),
        Head::Array => array_form(alloc, at, parts),
        Head::Record => record_form(alloc, at, parts),
        Head::Bounded(head) => bounded_form(alloc, at, head, parts),
        Head::SinceIn => since_in_form(alloc, at, parts),
        Head::Clock => clock_form(at, parts),
        Head::Vote(head) => vote_form(alloc, at, head, parts),
        Head::Window(head) => window_form(alloc, at, head, parts),
    }
}

#[cycle(expressions)]
fn expr_list(alloc: Global, at: u64, items: &[Tree]) -> Result<Expr, ShapeFault>
    ensures { Parses (fault_in expression (list at (nodes (map node items.now)))) (HoldsExpr (list at (nodes (map node items.now)))) result }
{
    let Some((word, parts)) = headed(items) else {
        return Err(ShapeFault::BadForm(at));
    };
    let Some(head) = head_of(word) else {
        return Err(ShapeFault::BadForm(at));
    };
    expr_form(alloc, at, head, parts)
}

/// Reads an expression.
#[cycle(expressions)]
#[tactic(auto, using(spec_forest::specs::NodeLaws::node_laws))]
pub fn read_expr(alloc: Global, tree: &Tree) -> Result<Expr, ShapeFault>
    ensures { Parses (fault_in expression (node tree.now)) (HoldsExpr (node tree.now)) result }
{
    match tree {
        Tree::Atom { at, text } => expr_atom(alloc, *at, text.bytes()),
        Tree::List { at, items } => expr_list(alloc, *at, items.as_slice()),
    }
}

#[cycle(expressions)]
fn read_boxed(alloc: Global, tree: &Tree) -> Result<Boxed<Expr>, ShapeFault>
    ensures { Parses (fault_in expression (node tree.now)) (HoldsExpr (node tree.now)) result }
{
    let e = read_expr(alloc, tree)?;
    Ok(Boxed::new(alloc, e)?)
}

/// Reads expressions one after another.
#[cycle(expressions)]
pub fn read_exprs(alloc: Global, trees: &[Tree]) -> Result<Vec<Expr>, ShapeFault>
    ensures { ParsesEach expression form_of_expr keeps_expr (nodes (map node trees.now)) result }
{
    let mut all = Vec::new(alloc);
    for tree in trees {
        let item = read_expr(alloc, tree)?;
        all.push(item)?;
    }
    Ok(all)
}
