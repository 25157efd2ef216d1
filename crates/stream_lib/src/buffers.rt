// The buffers of the forms as streams.
ghost use Rattle.std.specs.Prelude.{◌≡◌, ◌-◌, ◌<◌, ◌≤◌, [], ◌∷◌, length, map, max, IfOk};
ghost use Rattle.std.specs.List.{AllByRecursion};
ghost use Rattle.stream_core.specs.declared.spec.LibItem.{LibItem};
ghost use Rattle.stream_core.specs.Term.{trees};
ghost use Rattle.stream_core.specs.Lower.{all_buffers, bool_buffer, buffers_of, form_term, lowered};
ghost use Rattle.stream_core.specs.declared.node.LibForm.TheVariants as form;
ghost use Rattle.stream_lib.specs.Built.{AreThere, trees_at};
ghost use Rattle.stream_lib.specs.Renamed.{AreLowered, new_of, starts_of};
ghost use Rattle.stream_lib.specs.Room.{IsSmall};
ghost use Rattle.stream_lib.specs.Made.{MakesStreams, both_taken, buffer_item, first_taken};

use crate::forms::{form_term, tick};
use crate::numerals::{buffer, greatest_word, least_word};
use crate::rename::all_new;
use crate::starts::buffers;
use crate::windows::at_least_one;
use std::alloc::{AllocError, Global};
use stream_core::{LibForm, LibItem, NodeId, Spec, StreamItem};
use stream_types::Scalar;

// One buffer.
fn one(
    alloc: Global,
    number: u32,
    s: Scalar,
    m: u32,
    w: u64,
    expr: NodeId,
    at: u64,
) -> Result<Vec<StreamItem>, AllocError>
    ensures { IfOk result (λ xs. xs.items ≡ buffer_item number s m w expr at ∷ []) }
{
    let mut all = Vec::new(alloc);
    let x = buffer(alloc, number, s, m, w, expr, at)?;
    all.push(x)?;
    Ok(all)
}

// A buffer that takes the form's own value.
fn own(
    alloc: Global,
    spec: &mut Spec,
    form: LibForm,
    number: u32,
    b: u32,
    w: u64,
    at: u64,
    ps: &[NodeId],
) -> Result<Vec<StreamItem>, AllocError>
    requires there { AreThere spec.old ps.now }
    requires next { b < 4294967295 }
    ensures made { IfOk result (λ xs. MakesStreams spec.old spec.new xs.items (bool_buffer number 1 w (form_term form b (trees_at spec.old ps.now)) at ∷ [])) }
    ensures size { length spec.old.nodes ≤ length spec.new.nodes }
{
    let id = form_term(alloc, spec, form, b, ps)?;
    let all = one(alloc, number, Scalar::Bool, 1, w, id, at)?;
    Ok(all)
}

// The buffer of a clock.
fn counter(
    alloc: Global,
    spec: &mut Spec,
    number: u32,
    b: u32,
    period: u32,
    phase: u32,
    at: u64,
    ps: &[NodeId],
) -> Result<Vec<StreamItem>, AllocError>
    ensures made { IfOk result (λ xs. MakesStreams spec.old spec.new xs.items (buffers_of (form.Clock period phase) number b at (trees_at spec.old ps.now))) }
    ensures size { length spec.old.nodes ≤ length spec.new.nodes }
{
    let id = tick(spec, b, period)?;
    let all = one(alloc, number, Scalar::Word32, 1, 0, id, at)?;
    Ok(all)
}

// A buffer that takes the first operand.
fn first_taken(
    alloc: Global,
    spec: &Spec,
    number: u32,
    s: Scalar,
    m: u32,
    w: u64,
    at: u64,
    ps: &[NodeId],
) -> Result<Vec<StreamItem>, AllocError>
    requires there { AreThere spec.now ps.now }
    ensures { IfOk result (λ xs. MakesStreams spec.now spec.now xs.items (first_taken number s m w at (trees_at spec.now ps.now))) }
{
    let _ = spec;
    match ps {
        [] => Ok(Vec::new(alloc)),
        [p, ..] => {
            let all = one(alloc, number, s, m, w, *p, at)?;
            Ok(all)
        }
    }
}

// Two buffers, which take the first operand and the second.
fn both_taken(
    alloc: Global,
    spec: &Spec,
    number: u32,
    m: u32,
    at: u64,
    ps: &[NodeId],
) -> Result<Vec<StreamItem>, AllocError>
    requires there { AreThere spec.now ps.now }
    requires number { number < 4294967295 }
    ensures { IfOk result (λ xs. MakesStreams spec.now spec.now xs.items (both_taken number m at (trees_at spec.now ps.now))) }
{
    let _ = spec;
    match ps {
        [] => Ok(Vec::new(alloc)),
        [_] => Ok(Vec::new(alloc)),
        [p, q, ..] => {
            let mut all = one(alloc, number, Scalar::Bool, m, 1, *p, at)?;
            let second = buffer(alloc, number + 1, Scalar::Bool, m, 0, *q, at)?;
            all.push(second)?;
            Ok(all)
        }
    }
}

// How many older values a window has, and one at least.
fn older(n: u32) -> u32
    ensures { result ≡ max (n - 1) 1 }
{
    at_least_one(n.saturating_sub(1))
}

/// The buffers of a form at a place, of which the first is stream b and has this number.
pub(crate) fn buffers_of(
    alloc: Global,
    spec: &mut Spec,
    form: LibForm,
    number: u32,
    b: u32,
    at: u64,
    ps: &[NodeId],
) -> Result<Vec<StreamItem>, AllocError>
    requires there { AreThere spec.old ps.now }
    requires next { b < 4294967295 }
    requires number { number < 4294967295 }
    ensures made { IfOk result (λ xs. MakesStreams spec.old spec.new xs.items (buffers_of form number b at (trees_at spec.old ps.now))) }
    ensures size { length spec.old.nodes ≤ length spec.new.nodes }
{
    match form {
        LibForm::Once => own(alloc, spec, form, number, b, 0, at, ps),
        LibForm::Historically => own(alloc, spec, form, number, b, 1, at, ps),
        LibForm::Since => own(alloc, spec, form, number, b, 0, at, ps),
        LibForm::Clock(period, phase) => counter(alloc, spec, number, b, period, phase, at, ps),
        LibForm::SinceIn(_, high) => both_taken(alloc, spec, number, at_least_one(high), at, ps),
        LibForm::Yesterday => first_taken(alloc, spec, number, Scalar::Bool, 1, 0, at, ps),
        LibForm::WeaklyYesterday => first_taken(alloc, spec, number, Scalar::Bool, 1, 1, at, ps),
        LibForm::OnceIn(_, high) => {
            first_taken(
                alloc,
                spec,
                number,
                Scalar::Bool,
                at_least_one(high),
                0,
                at,
                ps,
            )
        }
        LibForm::HistoricallyIn(_, high) => {
            first_taken(
                alloc,
                spec,
                number,
                Scalar::Bool,
                at_least_one(high),
                1,
                at,
                ps,
            )
        }
        LibForm::WindowMax(n, s) => {
            first_taken(alloc, spec, number, s, older(n), least_word(s), at, ps)
        }
        LibForm::WindowMin(n, s) => {
            first_taken(alloc, spec, number, s, older(n), greatest_word(s), at, ps)
        }
        LibForm::WindowSum(n, s) => first_taken(alloc, spec, number, s, older(n), 0, at, ps),
    }
}

// The buffers of a form of a specification, over the new numbers of its operands.
fn item_buffers(
    alloc: Global,
    source: &Spec,
    news: &[NodeId],
    spec: &mut Spec,
    item: &LibItem,
    number: u32,
    b: u32,
) -> Result<Vec<StreamItem>, AllocError>
    requires lowered { AreLowered source.now spec.old news.now }
    requires below { AllByRecursion (λ j. j < length news.now) item.now.args }
    requires next { b < 4294967295 }
    requires number { number < 4294967295 }
    ensures made { IfOk result (λ xs. MakesStreams spec.old spec.new xs.items
        (buffers_of item.now.form number b item.now.at (trees_at spec.old (map (new_of news.now) item.now.args)))) }
    ensures size { length spec.old.nodes ≤ length spec.new.nodes }
{
    let ps = all_new(alloc, news, item.args.as_slice())?;
    let all = buffers_of(alloc, spec, item.form, number, b, item.at, ps.as_slice())?;
    Ok(all)
}

/// The buffers of all forms of a specification, numbered from 1, behind its streams.
pub(crate) fn all_buffers(
    alloc: Global,
    source: &Spec,
    news: &[NodeId],
    spec: &mut Spec,
) -> Result<Vec<StreamItem>, AllocError>
    requires lowered { AreLowered source.now spec.old news.now }
    requires below { AllByRecursion (λ (x : LibItem). AllByRecursion (λ j. j < length news.now) x.args) source.now.libs }
    requires few { IsSmall source.now }
    ensures { IfOk result (λ xs. MakesStreams spec.old spec.new xs.items
        (all_buffers (lowered (starts_of source.now)) 1 (length source.now.streams) (trees source.now).libs)) }
{
    let mut all = Vec::new(alloc);
    let mut number: u32 = 1;
    let mut b = source.streams().len() as u32;
    for item in source.libs() {
        let mut xs = item_buffers(alloc, source, news, spec, item, number, b)?;
        all.append(&mut xs)?;
        number += buffers(item.form);
        b += buffers(item.form);
    }
    Ok(all)
}
