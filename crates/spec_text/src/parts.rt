// The items of a list, and numbers in their places.
ghost use Rattle.std.specs.Prelude.{◌≡◌, ◌-◌, ◌≤◌, ◌<◌, ◌^◌, ◌&&◌, ℕ, true, false, map, IsSomeAnd, MatchResult, Some, nat_le};
ghost use Rattle.std.specs.Option.{option_map};
ghost use Rattle.spec_forest.specs.Node.{node, nodes, none, more};
ghost use Rattle.spec_words.specs.Magnitudes.{magnitude_of};
ghost use Rattle.spec_words.specs.declared.magnitudes.Magnitude.TheVariants.{Beyond};
ghost use Rattle.spec_text.specs.Shape.{decimal, number, number_in, end, has_items};
ghost use Rattle.spec_text.specs.FirstFault.{or_else, fault_in};
ghost use Rattle.spec_text.specs.Holds.{HoldsNumber, HoldsDecimal, HoldsBounds, HoldsClock, word_and_parts};
ghost use Rattle.spec_text.specs.Parses.{Parses, FormIff, has_between, syntax_fault};
ghost use Rattle.spec_text.specs.declared.fault.ShapeFault.TheVariants.{BadForm};

use crate::fault::ShapeFault;
use spec_forest::Tree;
use spec_words::{Magnitude, decimal_between, decimal_of};

/// The word that begins a list, and the items behind it.
#[tactic(auto, using(spec_forest::specs::NodeLaws::node_laws))]
pub fn headed(items: &[Tree]) -> Option<(&[u8], &[Tree])>
    ensures { option_map (λ p. (p.0.now, nodes (map node p.1.now))) result ≡ word_and_parts (nodes (map node items.now)) }
{
    let (first, parts) = items.split_first()?;
    match first {
        Tree::Atom { text, .. } => Some((text.bytes(), parts)),
        Tree::List { .. } => None,
    }
}

/// The first item and the others.
pub fn first(at: u64, parts: &[Tree]) -> Result<(&Tree, &[Tree]), ShapeFault>
    ensures { MatchResult result (λ p. nodes (map node parts.now) ≡ more (node p.0.now) (nodes (map node p.1.now)))
        (λ e. (e ≡ BadForm at) × (nodes (map node parts.now) ≡ none)) }
{
    parts.split_first().ok_or(ShapeFault::BadForm(at))
}

/// The one item.
pub fn one(at: u64, parts: &[Tree]) -> Result<&Tree, ShapeFault>
    ensures { MatchResult result (λ a. nodes (map node parts.now) ≡ more (node a.now) none)
        (λ e. (e ≡ BadForm at) × (has_items 1 end (nodes (map node parts.now)) ≡ false)) }
{
    let (a, rest) = first(at, parts)?;
    match rest.split_first() {
        Some(_) => Err(ShapeFault::BadForm(at)),
        None => Ok(a),
    }
}

/// The two items.
#[tactic(auto, using(crate::proofs::Counts::one_more))]
pub fn two(at: u64, parts: &[Tree]) -> Result<(&Tree, &Tree), ShapeFault>
    ensures { MatchResult result (λ a. nodes (map node parts.now) ≡ more (node a.0.now) (more (node a.1.now) none))
        (λ e. (e ≡ BadForm at) × (has_items 2 end (nodes (map node parts.now)) ≡ false)) }
{
    let (a, rest) = first(at, parts)?;
    let b = one(at, rest)?;
    Ok((a, b))
}

/// The three items.
#[tactic(auto, using(crate::proofs::Counts::one_more))]
pub fn three(at: u64, parts: &[Tree]) -> Result<(&Tree, &Tree, &Tree), ShapeFault>
    ensures { MatchResult result (λ a. nodes (map node parts.now) ≡ more (node a.0.now) (more (node a.1.now) (more (node a.2.now) none)))
        (λ e. (e ≡ BadForm at) × (has_items 3 end (nodes (map node parts.now)) ≡ false)) }
{
    let (a, rest) = first(at, parts)?;
    let (b, c) = two(at, rest)?;
    Ok((a, b, c))
}

/// The four items.
#[tactic(auto, using(crate::proofs::Counts::one_more))]
pub fn four(at: u64, parts: &[Tree]) -> Result<(&Tree, &Tree, &Tree, &Tree), ShapeFault>
    ensures { MatchResult result (λ a. nodes (map node parts.now)
        ≡ more (node a.0.now) (more (node a.1.now) (more (node a.2.now) (more (node a.3.now) none))))
        (λ e. (e ≡ BadForm at) × (has_items 4 end (nodes (map node parts.now)) ≡ false)) }
{
    let (a, rest) = first(at, parts)?;
    let (b, c, d) = three(at, rest)?;
    Ok((a, b, c, d))
}

/// Reads a decimal from `low` to `high`.
#[tactic(auto, using(spec_forest::specs::NodeLaws::node_laws))]
pub fn read_number(tree: &Tree, low: u64, high: u32) -> Result<u32, ShapeFault>
    ensures { Parses (fault_in (number low high) (node tree.now)) (HoldsNumber low high (node tree.now)) result }
{
    match tree {
        Tree::Atom { at, text } => match decimal_between(text.bytes(), low, high) {
            Some(n) => Ok(n),
            None => Err(ShapeFault::BadLiteral(*at)),
        },
        Tree::List { at, .. } => Err(ShapeFault::BadLiteral(*at)),
    }
}

// Reads a decimal of any size.
#[tactic(auto, using(spec_forest::specs::NodeLaws::node_laws))]
fn read_decimal(tree: &Tree) -> Result<Magnitude, ShapeFault>
    ensures { Parses (fault_in decimal (node tree.now)) (HoldsDecimal (node tree.now)) result }
{
    match tree {
        Tree::Atom { at, text } => match decimal_of(text.bytes()) {
            Some(n) => Ok(n),
            None => Err(ShapeFault::BadLiteral(*at)),
        },
        Tree::List { at, .. } => Err(ShapeFault::BadLiteral(*at)),
    }
}

// Refuses a second bound that is below the first.
#[tactic(auto, using(spec_forest::specs::NodeLaws::node_laws))]
fn below_bound(high: &Tree) -> ShapeFault
    ensures { (low : ℕ) → magnitude_of low ≡ Beyond → IsSomeAnd (syntax_fault result) (λ f. fault_in (number low 128) (node high.now) ≡ Some f) }
{
    match high {
        Tree::Atom { at, .. } => ShapeFault::BadLiteral(*at),
        Tree::List { at, .. } => ShapeFault::BadLiteral(*at),
    }
}

/// Reads the two bounds of a form: the first a decimal of any size, the second from the first to 128.
pub fn read_bounds(low: &Tree, high: &Tree) -> Result<(u32, u32), ShapeFault>
    ensures { Parses (or_else (fault_in decimal (node low.now)) (fault_in (number (number_in (node low.now)) 128) (node high.now)))
        (HoldsBounds (node low.now) (node high.now)) result }
{
    let Magnitude::Of(least) = read_decimal(low)? else {
        return Err(below_bound(high));
    };
    let most = read_number(high, least, 128)?;
    Ok((least as u32, most))
}

/// Reads a period, from 1 on, and a phase below it.
pub fn read_clock(period: &Tree, phase: &Tree) -> Result<(u32, u32), ShapeFault>
    ensures { Parses (or_else (fault_in (number 1 4294967295) (node period.now)) (fault_in (number 0 (number_in (node period.now) - 1)) (node phase.now)))
        (HoldsClock (node period.now) (node phase.now)) result }
{
    let steps = read_number(period, 1, u32::MAX)?;
    let phase = read_number(phase, 0, steps - 1)?;
    Ok((steps, phase))
}

/// One item at least.
#[tactic(auto, using(crate::proofs::Counts::counts))]
pub fn some_item(at: u64, parts: &[Tree]) -> Result<(), ShapeFault>
    ensures { FormIff at (has_between 1 None (nodes (map node parts.now))) result }
{
    if parts.is_empty() {
        return Err(ShapeFault::BadForm(at));
    }
    Ok(())
}

/// One item at least, and at most so many.
#[tactic(auto, using(crate::proofs::Counts::counts))]
pub fn some_up_to(at: u64, parts: &[Tree], most: usize) -> Result<(), ShapeFault>
    ensures { FormIff at (has_between 1 (Some most) (nodes (map node parts.now))) result }
{
    if parts.is_empty() {
        return Err(ShapeFault::BadForm(at));
    }
    if parts.len() > most {
        return Err(ShapeFault::BadForm(at));
    }
    Ok(())
}

/// At most so many items.
#[tactic(auto, using(crate::proofs::Counts::counts))]
pub fn up_to(at: u64, parts: &[Tree], most: usize) -> Result<(), ShapeFault>
    ensures { FormIff at (has_between 0 (Some most) (nodes (map node parts.now))) result }
{
    if parts.len() > most {
        return Err(ShapeFault::BadForm(at));
    }
    Ok(())
}
