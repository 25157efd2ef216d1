// Streams as rings: what is read of them, and what is declared.
ghost use Rattle.std.specs.Prelude.{◌≡◌, nat_le, IfOk, Some};
ghost use Rattle.stream_core.specs.Term.{value_count};
ghost use Rattle.ring_codegen.specs.Items.{IsRingItem, closed_stream, item_ring};
ghost use Rattle.ring_codegen.specs.Translation.{place_behind, stream_value};

use crate::c_types::c_type;
use crate::forms::{bin, ring_at};
use c99_tree::{CBin, CExpr, CLit, CRing};
use sm_io::Seq;
use std::alloc::{AllocError, Global};
use stream_core::{Spec, StreamItem};
use stream_types::Types;

// How many initial values a stream has.
fn initial_count(types: &Types, x: &StreamItem) -> u32
    requires { IsRingItem types.now x.now }
    ensures { result ≡ value_count types.now x.now.ty x.now.init }
{
    let wide = types.words(x.ty) as usize;
    let words = x.init.as_slice().len();
    (words / wide) as u32
}

/// Whether a stream's values are kept with an index.
pub(crate) fn is_indexed(types: &Types, x: &StreamItem) -> bool
    requires { IsRingItem types.now x.now }
    ensures { result ≡ nat_le 2 (value_count types.now x.now.ty x.now.init) }
{
    2 <= initial_count(types, x)
}

/// `((cp_i_r + nU) % lenU)`
pub(crate) fn place_behind(
    alloc: Global,
    spec: &Spec,
    x: &StreamItem,
    n: u32,
) -> Result<CExpr, AllocError>
    requires { IsRingItem spec.now.types x.now }
    ensures { IfOk result (λ e. e ≡ place_behind spec.now.types (closed_stream spec.now x.now) n) }
{
    let len = initial_count(spec.types(), x);
    let head = CExpr::Head(x.name.copy(alloc)?);
    let place = bin(alloc, CBin::Add, head, CExpr::Lit(CLit::U, u64::from(n)))?;
    bin(alloc, CBin::Rem, place, CExpr::Lit(CLit::U, u64::from(len)))
}

/// A stream's value n steps ahead of its first.
pub(crate) fn stream_value(
    alloc: Global,
    spec: &Spec,
    x: &StreamItem,
    n: u32,
) -> Result<CExpr, AllocError>
    requires { IsRingItem spec.now.types x.now }
    ensures { IfOk result (λ e. e ≡ stream_value spec.now.types n (Some (closed_stream spec.now x.now))) }
{
    let name = x.name.copy(alloc)?;
    if is_indexed(spec.types(), x) {
        let place = place_behind(alloc, spec, x, n)?;
        return ring_at(alloc, name, place);
    }
    Ok(CExpr::Cell(name))
}

/// The ring of a stream.
pub(crate) fn ring(alloc: Global, spec: &Spec, x: &StreamItem) -> Result<CRing, AllocError>
    requires { IsRingItem spec.now.types x.now }
    ensures { IfOk result (λ ring. ring ≡ item_ring spec.now x.now) }
{
    let name = x.name.copy(alloc)?;
    let ty = c_type(alloc, spec.types(), x.ty)?;
    let init = Vec::from_slice(alloc, x.init.as_slice())?;
    Ok(CRing {
        name,
        ty,
        len: initial_count(spec.types(), x),
        indexed: is_indexed(spec.types(), x),
        init: Seq::of(init),
    })
}
