// Declarations and the whole specification in a forest.
ghost use Rattle.std.specs.Prelude.{◌≡◌, ◌==◌, ◌||◌, ℕ, map, IsTrue, IfOk, IfSome, IsSomeAnd, true, None, Some};
ghost use Rattle.spec_forest.specs.Node.{node, nodes, list, forest_nodes};
ghost use Rattle.spec_forest.specs.Extents.{nesting as nesting_of, list_count as lists_of, item_count as items_of};
ghost use Rattle.spec_text.specs.Extent.{nesting, list_count, item_count};
ghost use Rattle.spec_text.specs.Shape.{top, declaration, field, initial, spec_items, most_initial, shape_fault, extra};
ghost use Rattle.spec_text.specs.FirstFault.{fault_in, top_fault};
ghost use Rattle.spec_text.specs.Holds.{HoldsField, HoldsDecl, Holds};
ghost use Rattle.spec_text.specs.Parses.{Parses, ParsesForm, ParsesDecl, ParsesEach, syntax_fault};
ghost use Rattle.spec_text.specs.Form.{form, forms, form_of, form_of_const, form_of_field, form_of_decl, Matches, AllMatch, none, more, IsSurfaceOf};
ghost use Rattle.spec_text.specs.KeepsTable.{keeps_const, keeps_field, keeps_decl, keeps_table, kept_from, KeepsTable};
ghost use Rattle.spec_words.specs.Words.{decl_word, version_of, spec_word};
ghost use Rattle.spec_words.specs.declared.head.DeclHead.TheVariants as h;

use crate::constants::read_constants;
use crate::expressions::{read_expr, read_exprs};
use crate::fault::ShapeFault;
use crate::names::read_name;
use crate::parts::{first, four, headed, some_up_to, three, two, up_to};
use crate::surface::{ConstForm, Decl, FieldForm, Surface};
use crate::types::read_type;
use sm_io::Seq;
use spec_forest::{Forest, Tree};
use spec_words::{DeclHead, decl_head, version_of};
use std::alloc::Global;

#[tactic(auto, using(spec_forest::specs::NodeLaws::node_laws))]
fn read_field(alloc: Global, tree: &Tree) -> Result<FieldForm, ShapeFault>
    ensures { Parses (fault_in field (node tree.now)) (HoldsField (node tree.now)) result }
{
    match tree {
        Tree::Atom { at, .. } => Err(ShapeFault::BadForm(*at)),
        Tree::List { at, items } => {
            let at = *at;
            let (name, ty) = two(at, items.as_slice())?;
            let name = read_name(alloc, name)?;
            let ty = read_type(alloc, ty)?;
            Ok(FieldForm { at, name, ty })
        }
    }
}

fn read_fields(alloc: Global, trees: &[Tree]) -> Result<Vec<FieldForm>, ShapeFault>
    ensures { ParsesEach field form_of_field keeps_field (nodes (map node trees.now)) result }
{
    let mut all = Vec::new(alloc);
    for tree in trees {
        let item = read_field(alloc, tree)?;
        all.push(item)?;
    }
    Ok(all)
}

// The most initial values of a stream in a text of this version.
fn most_initial(version: u32) -> usize
    ensures { result ≡ most_initial version }
{
    if version == 1 { 4096 } else { 65536 }
}

// Reads a stream's list of constants.
#[tactic(auto, using(spec_forest::specs::NodeLaws::node_laws, crate::proofs::Counts::kept_counts))]
fn read_initial(alloc: Global, version: u32, tree: &Tree) -> Result<Vec<ConstForm>, ShapeFault>
    ensures { Parses (fault_in (initial version) (node tree.now)) (λ v. Matches (form None (forms (map form_of_const v.items))) (node tree.now)
        × IsTrue (kept_from 1 (most_initial version) (map keeps_const v.items))) result }
{
    match tree {
        Tree::Atom { at, .. } => Err(ShapeFault::BadForm(*at)),
        Tree::List { at, items } => {
            some_up_to(*at, items.as_slice(), most_initial(version))?;
            read_constants(alloc, items.as_slice())
        }
    }
}

#[tactic(auto, using(crate::proofs::Counts::kept_counts))]
fn struct_decl(alloc: Global, at: u64, parts: &[Tree]) -> Result<Decl, ShapeFault>
    ensures { (version : ℕ) → ParsesDecl version at h.Struct (nodes (map node parts.now)) result }
{
    let (name, fields) = first(at, parts)?;
    some_up_to(at, fields, 64)?;
    let name = read_name(alloc, name)?;
    let fields = read_fields(alloc, fields)?;
    let fields = Seq::of(fields);
    Ok(Decl::Struct { at, name, fields })
}

fn extern_decl(alloc: Global, at: u64, parts: &[Tree]) -> Result<Decl, ShapeFault>
    ensures { (version : ℕ) → ParsesDecl version at h.Extern (nodes (map node parts.now)) result }
{
    let (name, ty) = two(at, parts)?;
    let name = read_name(alloc, name)?;
    let ty = read_type(alloc, ty)?;
    Ok(Decl::Extern { at, name, ty })
}

fn stream_decl(alloc: Global, at: u64, version: u32, parts: &[Tree]) -> Result<Decl, ShapeFault>
    ensures { ParsesDecl version at h.Stream (nodes (map node parts.now)) result }
{
    let (name, ty, init, expr) = four(at, parts)?;
    let name = read_name(alloc, name)?;
    let ty = read_type(alloc, ty)?;
    let init = read_initial(alloc, version, init)?;
    let init = Seq::of(init);
    let expr = read_expr(alloc, expr)?;
    Ok(Decl::Stream {
        at,
        name,
        ty,
        init,
        expr,
    })
}

fn def_decl(alloc: Global, at: u64, parts: &[Tree]) -> Result<Decl, ShapeFault>
    ensures { (version : ℕ) → ParsesDecl version at h.Def (nodes (map node parts.now)) result }
{
    let (name, ty, expr) = three(at, parts)?;
    let name = read_name(alloc, name)?;
    let ty = read_type(alloc, ty)?;
    let expr = read_expr(alloc, expr)?;
    Ok(Decl::Def { at, name, ty, expr })
}

#[tactic(auto, using(crate::proofs::Counts::kept_counts))]
fn trigger_decl(alloc: Global, at: u64, parts: &[Tree]) -> Result<Decl, ShapeFault>
    ensures { (version : ℕ) → ParsesDecl version at h.Trigger (nodes (map node parts.now)) result }
{
    let (name, rest) = first(at, parts)?;
    let (guard, args) = first(at, rest)?;
    up_to(at, args, 16)?;
    let name = read_name(alloc, name)?;
    let guard = read_expr(alloc, guard)?;
    let args = read_exprs(alloc, args)?;
    let args = Seq::of(args);
    Ok(Decl::Trigger {
        at,
        name,
        guard,
        args,
    })
}

fn observer_decl(alloc: Global, at: u64, parts: &[Tree]) -> Result<Decl, ShapeFault>
    ensures { (version : ℕ) → ParsesDecl version at h.Observer (nodes (map node parts.now)) result }
{
    let (name, expr) = two(at, parts)?;
    let name = read_name(alloc, name)?;
    let expr = read_expr(alloc, expr)?;
    Ok(Decl::Observer { at, name, expr })
}

fn decl_form(
    alloc: Global,
    version: u32,
    at: u64,
    head: DeclHead,
    parts: &[Tree],
) -> Result<Decl, ShapeFault>
    ensures { ParsesDecl version at head (nodes (map node parts.now)) result }
{
    match head {
        DeclHead::Struct => struct_decl(alloc, at, parts),
        DeclHead::Extern => extern_decl(alloc, at, parts),
        DeclHead::Stream => stream_decl(alloc, at, version, parts),
        DeclHead::Def => def_decl(alloc, at, parts),
        DeclHead::Trigger => trigger_decl(alloc, at, parts),
        DeclHead::Observer => observer_decl(alloc, at, parts),
    }
}

fn decl_list(alloc: Global, version: u32, at: u64, items: &[Tree]) -> Result<Decl, ShapeFault>
    ensures { Parses (fault_in (declaration version) (list at (nodes (map node items.now)))) (HoldsDecl version (list at (nodes (map node items.now)))) result }
{
    let Some((word, parts)) = headed(items) else {
        return Err(ShapeFault::BadForm(at));
    };
    let Some(head) = decl_head(word) else {
        return Err(ShapeFault::BadForm(at));
    };
    decl_form(alloc, version, at, head, parts)
}

#[tactic(auto, using(spec_forest::specs::NodeLaws::node_laws))]
fn read_decl(alloc: Global, version: u32, tree: &Tree) -> Result<Decl, ShapeFault>
    ensures { Parses (fault_in (declaration version) (node tree.now)) (HoldsDecl version (node tree.now)) result }
{
    match tree {
        Tree::Atom { at, .. } => Err(ShapeFault::BadForm(*at)),
        Tree::List { at, items } => decl_list(alloc, version, *at, items.as_slice()),
    }
}

fn read_decls(alloc: Global, version: u32, trees: &[Tree]) -> Result<Vec<Decl>, ShapeFault>
    ensures { ParsesEach (declaration version) form_of_decl (keeps_decl version) (nodes (map node trees.now)) result }
{
    let mut all = Vec::new(alloc);
    for tree in trees {
        let item = read_decl(alloc, version, tree)?;
        all.push(item)?;
    }
    Ok(all)
}

// Reads what stands behind the word: the name and the declarations.
#[tactic(auto, unfolding(crate::specs::KeepsTable::keeps_table))]
fn read_body(alloc: Global, version: u32, parts: &[Tree]) -> Result<Surface, ShapeFault>
    requires { (version == 1 || version == 2) ≡ true }
    ensures { ParsesForm form_of keeps_table 0 (spec_word version) (spec_items version) (nodes (map node parts.now)) result }
{
    let (name, rest) = first(0, parts)?;
    let name = read_name(alloc, name)?.name;
    let decls = read_decls(alloc, version, rest)?;
    let decls = Seq::of(decls);
    Ok(Surface {
        version,
        name,
        decls,
    })
}

fn spec_list(alloc: Global, at: u64, items: &[Tree]) -> Result<Surface, ShapeFault>
    ensures { Parses (fault_in top (list at (nodes (map node items.now)))) (Holds form_of keeps_table (list at (nodes (map node items.now)))) result }
{
    let _at = at;
    let Some((word, parts)) = headed(items) else {
        return Err(ShapeFault::BadForm(0));
    };
    let Some(version) = version_of(word) else {
        return Err(ShapeFault::BadForm(0));
    };
    read_body(alloc, version, parts)
}

#[tactic(auto, using(spec_forest::specs::NodeLaws::node_laws))]
fn read_spec(alloc: Global, tree: &Tree) -> Result<Surface, ShapeFault>
    ensures { Parses (fault_in top (node tree.now)) (Holds form_of keeps_table (node tree.now)) result }
{
    match tree {
        Tree::Atom { .. } => Err(ShapeFault::BadForm(0)),
        Tree::List { at, items } => spec_list(alloc, *at, items.as_slice()),
    }
}

// The fault of a further item at the top.
#[tactic(auto, using(spec_forest::specs::NodeLaws::node_laws))]
fn extra_fault(tree: &Tree) -> ShapeFault
    ensures { IsSomeAnd (syntax_fault result) (λ f. fault_in extra (node tree.now) ≡ Some f) }
{
    match tree {
        Tree::Atom { at, .. } => ShapeFault::BadForm(*at),
        Tree::List { at, .. } => ShapeFault::BadForm(*at),
    }
}

// Reads the one item at the top.
fn read_top(alloc: Global, trees: &[Tree]) -> Result<Surface, ShapeFault>
    ensures { Parses (top_fault (nodes (map node trees.now))) (λ s. AllMatch (more (form_of s) none) (nodes (map node trees.now)) × KeepsTable s) result }
{
    let (spec, rest) = first(0, trees)?;
    let surface = read_spec(alloc, spec)?;
    match rest.split_first() {
        Some((further, _)) => Err(extra_fault(further)),
        None => Ok(surface),
    }
}

/// Reads the specification that a forest holds, or tells the first node in preorder that doesn't fit its place. The
/// specification nests as many lists as the forest, and has as many lists and atoms.
pub fn declarations(alloc: Global, forest: &Forest) -> Result<Surface, ShapeFault>
    ensures parses { Parses (shape_fault forest.now) (λ s. IsSurfaceOf forest.now s × KeepsTable s) result }
    ensures nesting { IfOk result (λ s. nesting (form_of s) ≡ nesting_of (forest_nodes forest.now)) }
    ensures lists { IfOk result (λ s. list_count (form_of s) ≡ lists_of (forest_nodes forest.now)) }
    ensures items { IfOk result (λ s. item_count (form_of s) ≡ items_of (forest_nodes forest.now)) }
{
    read_top(alloc, forest.items.as_slice())
}
