// Where the values of a program lie among words. A count of words that isn't below 2^32 is refused as one that there is no
// memory for.
ghost use Rattle.std.specs.Prelude.{◌≡◌, ◌+◌, ◌*◌, IfOk};
ghost use Rattle.std.specs.List.{sum_by};
ghost use Rattle.c99_tree.specs.Words as words;
ghost use Rattle.c_exec.specs.Layout as spec;

use c99_tree::{CDef, CRing, CTy, CVar, Unit, element_scalar, fields_of, is_same};
use sm_io::Name;
use std::alloc::AllocError;

/// The sum of two counts of words.
pub(crate) fn sum(a: u32, b: u32) -> Result<u32, AllocError>
    ensures { IfOk result (λ n. n ≡ a + b) }
{
    match a.checked_add(b) {
        Some(n) => Ok(n),
        None => Err(AllocError),
    }
}

fn times(n: u32, a: u32) -> Result<u32, AllocError>
    ensures { IfOk result (λ k. k ≡ n * a) }
{
    match n.checked_mul(a) {
        Some(k) => Ok(k),
        None => Err(AllocError),
    }
}

/// How many words a value of a type has.
pub(crate) fn width(types: &[CDef], ty: &CTy) -> Result<u32, AllocError>
    ensures { IfOk result (λ n. n ≡ spec.width_of types.now ty.now) }
{
    width_within(types.len() + 1, types, ty)
}

/// How many words an array's element has.
#[tactic(auto, using(crate::proofs::Widths::width_of_elem))]
pub(crate) fn element_width(types: &[CDef], x: &Name) -> Result<u32, AllocError>
    ensures { IfOk result (λ n. n ≡ spec.width_of types.now (words.elem_type x.now)) }
{
    width_of_element(types.len(), types, x)
}

// The same of a type in which at most `depth` types stand one in another.
#[cycle(measuring)]
#[tactic(auto, using(crate::proofs::Widths::width_steps))]
fn width_within(depth: usize, types: &[CDef], ty: &CTy) -> Result<u32, AllocError>
    ensures { IfOk result (λ n. n ≡ spec.width_within depth types.now ty.now) }
{
    let Some(inner) = depth.checked_sub(1) else {
        return Ok(0);
    };
    match ty {
        CTy::Scalar(_) => Ok(1),
        CTy::Struct(x) => width_of_struct(inner, types, x),
        CTy::Array(x, n) => times(*n, width_of_element(inner, types, x)?),
    }
}

#[cycle(measuring)]
#[tactic(auto, using(crate::proofs::Widths::width_steps))]
fn width_of_element(inner: usize, types: &[CDef], x: &Name) -> Result<u32, AllocError>
    ensures { IfOk result (λ n. n ≡ spec.element_width (spec.width_within inner types.now) types.now (words.elem_type x.now)) }
{
    match element_scalar(x) {
        Some(_) => Ok(1),
        None => width_of_struct(inner, types, x),
    }
}

#[cycle(measuring)]
#[tactic(auto, using(crate::proofs::Widths::width_steps))]
fn width_of_struct(inner: usize, types: &[CDef], x: &Name) -> Result<u32, AllocError>
    ensures { IfOk result (λ n. n ≡ spec.struct_width (spec.width_within inner types.now) types.now x.now) }
{
    match fields_of(types, x) {
        Some(fields) => width_of_fields(inner, types, fields),
        None => Ok(0),
    }
}

#[cycle(measuring)]
#[tactic(auto, using(crate::proofs::Widths::width_steps))]
fn width_of_fields(inner: usize, types: &[CDef], fields: &[CVar]) -> Result<u32, AllocError>
    ensures { IfOk result (λ n. n ≡ sum_by (λ v. spec.width_within inner types.now v.ty) fields.now) }
{
    let mut total = 0;
    for field in fields {
        total = sum(total, width_within(inner, types, &field.ty)?)?;
    }
    Ok(total)
}

/// Where the words of the variable of this name begin among those of all, and how many there are.
pub(crate) fn var_place(types: &[CDef], vars: &[CVar], x: &Name) -> Result<(u32, u32), AllocError>
    ensures { IfOk result (λ p. (p.0 ≡ spec.var_start types.now vars.now x.now) × (p.1 ≡ spec.var_length types.now vars.now x.now)) }
{
    let mut at = 0;
    for v in vars {
        let n = width(types, &v.ty)?;
        if is_same(x, &v.name) {
            return Ok((at, n));
        }
        at = sum(at, n)?;
    }
    Ok((at, 0))
}

/// How many words the copies of all externs have.
pub(crate) fn copies_width(types: &[CDef], vars: &[CVar]) -> Result<u32, AllocError>
    ensures { IfOk result (λ n. n ≡ sum_by (spec.var_width types.now) vars.now) }
{
    let mut at = 0;
    for v in vars {
        at = sum(at, width(types, &v.ty)?)?;
    }
    Ok(at)
}

/// Where a ring lies.
#[derive(Clone, Copy)]
pub(crate) struct RingPlace {
    /// Where its index stands among the statics.
    pub(crate) index: u32,
    /// Where its values begin there.
    pub(crate) at: u32,
    /// How many words a value has.
    pub(crate) n: u32,
    /// How many values there are.
    pub(crate) len: u32,
    /// Where its local begins among the locals.
    pub(crate) local: u32,
}

/// How many words the index and the values of a ring have.
pub(crate) fn ring_words(types: &[CDef], ring: &CRing) -> Result<u32, AllocError>
    ensures { IfOk result (λ n. n ≡ spec.ring_words types.now ring.now) }
{
    let n = width(types, &ring.ty)?;
    sum(1, times(ring.len, n)?)
}

/// Where the ring of this name lies.
pub(crate) fn ring_place(unit: &Unit, r: &Name) -> Result<RingPlace, AllocError>
    ensures index { IfOk result (λ p. p.index ≡ spec.index_start unit.now r.now) }
    ensures at { IfOk result (λ p. p.at ≡ spec.index_start unit.now r.now + 1) }
    ensures n { IfOk result (λ p. p.n ≡ spec.value_width unit.now r.now) }
    ensures len { IfOk result (λ p. p.len ≡ spec.ring_length unit.now r.now) }
    ensures local { IfOk result (λ p. p.local ≡ spec.local_start unit.now r.now) }
{
    let types = unit.types.as_slice();
    let mut index = copies_width(types, unit.externs.as_slice())?;
    let mut local = 0;
    for ring in unit.rings.as_slice() {
        let n = width(types, &ring.ty)?;
        if is_same(r, &ring.name) {
            let at = sum(index, 1)?;
            let len = ring.len;
            return Ok(RingPlace {
                index,
                at,
                n,
                len,
                local,
            });
        }
        index = sum(index, ring_words(types, ring)?)?;
        local = sum(local, n)?;
    }
    let at = sum(index, 1)?;
    Ok(RingPlace {
        index,
        at,
        n: 0,
        len: 0,
        local,
    })
}
