// The operators on words of scalar types. A word of a bool or of an unsigned type is its number, and a word of a signed
// type is its number modulo 2^64.
ghost use Rattle.std.specs.Prelude.{◌≡◌, ◌^◌, ◌-◌, ◌/◌, ◌<◌, ◌≤◌, ◌*ℤ◌, ◌≤ℤ◌, ◌<ℤ◌, pos, unsigned_abs, int_div, int_rem, bit_and, bit_or, bit_xor, false, IsTrue, not, ◌+ℤ◌, ◌-ℤ◌, ◌&&◌, negsuc};
ghost use Rattle.std.specs.Bool.{OnTrue};
ghost use Rattle.std.specs.Ordering.{int_eq};
ghost use Rattle.c99_tree.specs.declared.undefined.Undefined.TheVariants.{Overflow};
ghost use Rattle.c99_tree.specs.CTypes as types;
ghost use Rattle.c99_tree.specs.Values.{number_of_word};
ghost use Rattle.c99_tree.specs.Evaluation as meaning;
ghost use Rattle.c_exec.specs.WordNumbers as spec;
ghost use Rattle.c_exec.specs.WordNumbers.{as_word, truth_word, word};

use c99_tree::{CBin, CScalar, CUn, Undefined};

fn bits(t: CScalar) -> u32
    ensures value { result ≡ types.bits t }
    ensures some { 1 ≤ result }
    ensures most { result ≤ 64 }
{
    match t {
        CScalar::Bool => 1,
        CScalar::I8 | CScalar::U8 => 8,
        CScalar::I16 | CScalar::U16 => 16,
        CScalar::I32 | CScalar::U32 => 32,
        CScalar::I64 | CScalar::U64 => 64,
    }
}

fn is_signed(t: CScalar) -> bool
    ensures { result ≡ types.is_signed t }
{
    match t {
        CScalar::I8 | CScalar::I16 | CScalar::I32 | CScalar::I64 => true,
        _ => false,
    }
}

fn promoted(t: CScalar) -> CScalar
    ensures { result ≡ types.promoted t }
{
    match t {
        CScalar::I64 | CScalar::U32 | CScalar::U64 => t,
        _ => CScalar::I32,
    }
}

fn common(a: CScalar, b: CScalar) -> CScalar
    ensures { result ≡ types.common a b }
{
    if bits(a) < bits(b) {
        return b;
    }
    if bits(b) < bits(a) {
        return a;
    }
    if is_signed(a) { b } else { a }
}

fn usual(a: CScalar, b: CScalar) -> CScalar
    ensures { result ≡ types.usual a b }
{
    common(promoted(a), promoted(b))
}

// A power of two.
fn power(count: u32) -> i128
    requires { count ≤ 64 }
    ensures value { result ≡ pos (2 ^ count) }
    ensures some { 0 < 2 ^ count }
    ensures most { 2 ^ count ≤ 2 ^ 64 }
{
    1 << count
}

// How many numbers the bits of a type stand for.
fn modulus(t: CScalar) -> i128
    ensures value { result ≡ pos (2 ^ types.bits t) }
    ensures some { 0 < 2 ^ types.bits t }
    ensures most { 2 ^ types.bits t ≤ 2 ^ 64 }
{
    power(bits(t))
}

// Half as many.
fn half(t: CScalar) -> i128
    ensures value { result ≡ pos (2 ^ (types.bits t - 1)) }
    ensures some { 0 < 2 ^ (types.bits t - 1) }
    ensures most { 2 ^ (types.bits t - 1) ≤ 2 ^ 63 }
{
    power(bits(t) - 1)
}

// The number of a word.
fn read(t: CScalar, w: u64) -> i128
    ensures value { result ≡ (number_of_word t w).n }
    ensures small { unsigned_abs result < 2 ^ 64 }
{
    if is_signed(t) && 0x8000_0000_0000_0000 <= w {
        w as i128 - 0x1_0000_0000_0000_0000
    } else {
        w as i128
    }
}

// The word of a number of at most 64 bits.
fn write(z: i128) -> u64
    requires { unsigned_abs z < 2 ^ 64 }
    ensures { result ≡ word z }
{
    if z < 0 {
        (z + 0x1_0000_0000_0000_0000) as u64
    } else {
        z as u64
    }
}

// Whether a signed type holds the number.
fn holds(t: CScalar, z: i128) -> bool
    ensures value { result ≡ types.holds t z }
    ensures small { OnTrue result (unsigned_abs z < 2 ^ 64) }
{
    let half = half(t);
    0 - half <= z && z < half
}

// The number modulo the bits of a type.
fn wrapped(t: CScalar, z: i128) -> i128
    ensures value { result ≡ types.wrapped t z }
    ensures low { pos 0 ≤ℤ result }
    ensures small { unsigned_abs result < 2 ^ 64 }
{
    z.rem_euclid(modulus(t))
}

// An exact result, as a type has it.
fn in_type(why: Undefined, t: CScalar, z: i128) -> Result<u64, Undefined>
    ensures { result ≡ as_word (types.in_type why t z) }
{
    if !is_signed(t) {
        return Ok(write(wrapped(t, z)));
    }
    if holds(t, z) {
        return Ok(write(z));
    }
    Err(why)
}

/// The word of a truth value.
pub(crate) fn truth_word(b: bool) -> u64
    ensures value { result ≡ truth_word b }
    ensures truth { result ≡ word (types.truth b).n }
{
    if b { 1 } else { 0 }
}

// A number, less what is at most 2^64.
fn less(a: i128, b: i128) -> i128
    requires a { unsigned_abs a ≤ 2 ^ 64 }
    requires b { unsigned_abs b ≤ 2 ^ 64 }
    ensures { result ≡ a -ℤ b }
{
    a - b
}

fn more(a: i128, b: i128) -> i128
    requires a { unsigned_abs a ≤ 2 ^ 64 }
    requires b { unsigned_abs b ≤ 2 ^ 64 }
    ensures { result ≡ a +ℤ b }
{
    a + b
}

// The complement of a word's number, and its opposite.
fn flipped(t: CScalar, w: u64) -> i128
    ensures { result ≡ pos 0 -ℤ (number_of_word t w).n -ℤ pos 1 }
{
    let z = negated(t, w);
    less(z, 1)
}

fn negated(t: CScalar, w: u64) -> i128
    ensures value { result ≡ pos 0 -ℤ (number_of_word t w).n }
    ensures small { unsigned_abs result < 2 ^ 64 }
{
    let z = read(t, w);
    less(0, z)
}

/// A unary operator on a word of a type.
#[tactic(auto, using(crate::proofs::TypedWords::number_typed))]
pub(crate) fn unary(op: CUn, t: CScalar, w: u64) -> Result<u64, Undefined>
    ensures { result ≡ spec.unary_word op t w }
{
    match op {
        CUn::Not => Ok(truth_word(!is_truth(t, w))),
        CUn::BitNot => {
            let z = flipped(t, w);
            in_type(Undefined::Overflow, promoted(t), z)
        }
        CUn::Neg => {
            let z = negated(t, w);
            in_type(Undefined::Overflow, promoted(t), z)
        }
    }
}

/// A word of a type, converted to another.
pub(crate) fn converted(from: CScalar, to: CScalar, w: u64) -> Result<u64, Undefined>
    ensures { result ≡ spec.converted_word from to w }
{
    let z = read(from, w);
    match to {
        CScalar::Bool => Ok(truth_word(z != 0)),
        _ => in_type(Undefined::BadConversion, to, z),
    }
}

// The number of an operand, converted to the common type.
fn widened(t: CScalar, from: CScalar, w: u64) -> i128
    ensures value { result ≡ types.widened t (number_of_word from w) }
    ensures small { unsigned_abs result < 2 ^ 64 }
    ensures low { types.is_signed t ≡ false → pos 0 ≤ℤ result }
{
    let z = read(from, w);
    if is_signed(t) { z } else { wrapped(t, z) }
}

// A product in an unsigned type, of numbers that are not negative.
fn unsigned_product(t: CScalar, a: i128, b: i128) -> u64
    requires a { unsigned_abs a < 2 ^ 64 }
    requires b { unsigned_abs b < 2 ^ 64 }
    requires left { pos 0 ≤ℤ a }
    requires right { pos 0 ≤ℤ b }
    ensures { result ≡ word (types.wrapped t (a *ℤ b)) }
{
    let z = a as u128 * b as u128;
    (z % (1u128 << bits(t))) as u64
}

// A product in a signed type. One that needs more than 127 bits is out of its range.
fn signed_product(t: CScalar, a: i128, b: i128) -> Result<u64, Undefined>
    requires { IsTrue (types.is_signed t) }
    ensures { result ≡ as_word (types.in_type Overflow t (a *ℤ b)) }
{
    match a.checked_mul(b) {
        Some(z) => in_type(Undefined::Overflow, t, z),
        None => Err(Undefined::Overflow),
    }
}

// Whether this is the least number of a signed type, divided by -1.
fn is_too_large(t: CScalar, a: i128, b: i128) -> bool
    ensures { result ≡ (types.is_signed t && int_eq b (negsuc 0) && int_eq a (negsuc (2 ^ (types.bits t - 1) - 1))) }
{
    is_signed(t) && b == -1 && a == least(t)
}

fn least(t: CScalar) -> i128
    ensures { result ≡ negsuc (2 ^ (types.bits t - 1) - 1) }
{
    let half = half(t);
    0 - half
}

// `/` or `%` of two numbers in a type, after the operands have been brought to it.
fn quotient(t: CScalar, a: i128, b: i128) -> Result<u64, Undefined>
    requires a { unsigned_abs a < 2 ^ 64 }
    requires b { unsigned_abs b < 2 ^ 64 }
    ensures { result ≡ as_word (meaning.divided int_div t a b) }
{
    if b == 0 {
        return Err(Undefined::ZeroDivisor);
    }
    if is_too_large(t, a, b) {
        return Err(Undefined::Overflow);
    }
    Ok(write(over(a, b)))
}

fn remainder(t: CScalar, a: i128, b: i128) -> Result<u64, Undefined>
    requires a { unsigned_abs a < 2 ^ 64 }
    requires b { unsigned_abs b < 2 ^ 64 }
    ensures { result ≡ as_word (meaning.divided int_rem t a b) }
{
    if b == 0 {
        return Err(Undefined::ZeroDivisor);
    }
    if is_too_large(t, a, b) {
        return Err(Undefined::Overflow);
    }
    Ok(write(left_over(a, b)))
}

// The quotient of numbers of at most 64 bits, towards zero.
fn over(a: i128, b: i128) -> i128
    requires a { unsigned_abs a < 2 ^ 64 }
    requires nonzero { 0 < unsigned_abs b }
    requires b { unsigned_abs b < 2 ^ 64 }
    ensures value { result ≡ int_div a b }
    ensures small { unsigned_abs result < 2 ^ 64 }
{
    a / b
}

// What that quotient leaves over.
fn left_over(a: i128, b: i128) -> i128
    requires a { unsigned_abs a < 2 ^ 64 }
    requires nonzero { 0 < unsigned_abs b }
    requires b { unsigned_abs b < 2 ^ 64 }
    ensures value { result ≡ int_rem a b }
    ensures small { unsigned_abs result < 2 ^ 64 }
{
    a % b
}

// The bits of a number of a type.
fn bits_of(t: CScalar, z: i128) -> u64
    ensures value { result ≡ meaning.bits_of t z }
    ensures below { result < 2 ^ types.bits t }
{
    z.rem_euclid(modulus(t)) as u64
}

// The word of the number that has these bits.
fn of_bits(t: CScalar, b: u64) -> u64
    requires { b < 2 ^ types.bits t }
    ensures { result ≡ word (meaning.of_bits t b) }
{
    if is_signed(t) && half(t) <= b as i128 {
        return write(b as i128 - modulus(t));
    }
    b
}

// The operators on the bits of two numbers of a type.
#[tactic(auto, using(crate::proofs::Operators::bit_lemmas))]
fn bits_in_both(t: CScalar, a: i128, b: i128) -> u64
    ensures { result ≡ word (meaning.of_bits t (bit_and (meaning.bits_of t a) (meaning.bits_of t b))) }
{
    of_bits(t, bits_of(t, a) & bits_of(t, b))
}

#[tactic(auto, using(crate::proofs::Operators::bit_lemmas))]
fn bits_in_either(t: CScalar, a: i128, b: i128) -> u64
    ensures { result ≡ word (meaning.of_bits t (bit_or (meaning.bits_of t a) (meaning.bits_of t b))) }
{
    of_bits(t, bits_of(t, a) | bits_of(t, b))
}

#[tactic(auto, using(crate::proofs::Operators::bit_lemmas))]
fn bits_in_one(t: CScalar, a: i128, b: i128) -> u64
    ensures { result ≡ word (meaning.of_bits t (bit_xor (meaning.bits_of t a) (meaning.bits_of t b))) }
{
    of_bits(t, bits_of(t, a) ^ bits_of(t, b))
}

fn is_bad_shift(t: CScalar, a: i128, count: i128) -> bool
    ensures value { result ≡ spec.is_bad_shift t a count }
    ensures from { result ≡ false → pos 0 ≤ℤ count }
    ensures below { result ≡ false → unsigned_abs count < 64 }
{
    count < 0 || bits(t) as i128 <= count || is_signed(t) && a < 0
}

// A number of at most 64 bits, times a power of two.
fn times_power(a: i128, count: u32) -> i128
    requires a { unsigned_abs a < 2 ^ 64 }
    requires count { count < 64 }
    ensures { result ≡ a *ℤ pos (2 ^ count) }
{
    a * power(count)
}

fn shifted_left(t: CScalar, a: i128, count: i128) -> Result<u64, Undefined>
    requires { unsigned_abs a < 2 ^ 64 }
    ensures { result ≡ as_word (meaning.shifted_left (spec.is_bad_shift t a count) t a (unsigned_abs count)) }
{
    if is_bad_shift(t, a, count) {
        return Err(Undefined::BadShift);
    }
    in_type(Undefined::Overflow, t, times_power(a, count as u32))
}

fn shifted_right(t: CScalar, a: i128, count: i128) -> Result<u64, Undefined>
    requires { unsigned_abs a < 2 ^ 64 }
    ensures { result ≡ as_word (meaning.shifted_right (spec.is_bad_shift t a count) t a (unsigned_abs count)) }
{
    if is_bad_shift(t, a, count) {
        return Err(Undefined::BadShift);
    }
    Ok(a.unsigned_abs() as u64 >> (count as u32))
}

fn product(t: CScalar, a: i128, b: i128) -> Result<u64, Undefined>
    requires a { unsigned_abs a < 2 ^ 64 }
    requires b { unsigned_abs b < 2 ^ 64 }
    requires left { types.is_signed t ≡ false → pos 0 ≤ℤ a }
    requires right { types.is_signed t ≡ false → pos 0 ≤ℤ b }
    ensures { result ≡ as_word (types.in_type Overflow t (a *ℤ b)) }
{
    if is_signed(t) {
        return signed_product(t, a, b);
    }
    Ok(unsigned_product(t, a, b))
}

/// A binary operator on words of two types; of `&&` and `||` where both operands are evaluated.
#[tactic(auto, using(crate::proofs::TypedWords::number_typed))]
pub(crate) fn binary(op: CBin, s: CScalar, t: CScalar, v: u64, w: u64) -> Result<u64, Undefined>
    ensures { result ≡ spec.binary_word op s t v w }
{
    let c = usual(s, t);
    let a = widened(c, s, v);
    let b = widened(c, t, w);
    match op {
        CBin::Add => in_type(Undefined::Overflow, c, more(a, b)),
        CBin::Sub => in_type(Undefined::Overflow, c, less(a, b)),
        CBin::Mul => product(c, a, b),
        CBin::Div => quotient(c, a, b),
        CBin::Rem => remainder(c, a, b),
        CBin::BitAnd => Ok(bits_in_both(c, a, b)),
        CBin::BitOr => Ok(bits_in_either(c, a, b)),
        CBin::BitXor => Ok(bits_in_one(c, a, b)),
        CBin::Shl => shifted_left(promoted(s), read(s, v), read(t, w)),
        CBin::Shr => shifted_right(promoted(s), read(s, v), read(t, w)),
        CBin::Eq => Ok(truth_word(a == b)),
        CBin::Ne => Ok(truth_word(a != b)),
        CBin::Lt => Ok(truth_word(a < b)),
        CBin::Le => Ok(truth_word(a <= b)),
        CBin::Gt => Ok(truth_word(a > b)),
        CBin::Ge => Ok(truth_word(a >= b)),
        CBin::And => Ok(truth_word(is_truth(s, v) && is_truth(t, w))),
        CBin::Or => Ok(truth_word(is_truth(s, v) || is_truth(t, w))),
    }
}

// Whether the number of a word isn't 0.
fn is_truth(t: CScalar, w: u64) -> bool
    ensures { result ≡ not (types.is_zero (number_of_word t w)) }
{
    read(t, w) != 0
}

/// Whether the word decides the operator, so that the right operand isn't evaluated.
pub(crate) fn is_decided(op: CBin, w: u64) -> bool
    ensures { result ≡ spec.is_decided op w }
{
    match op {
        CBin::And => w == 0,
        CBin::Or => w != 0,
        _ => false,
    }
}

/// The word that such an operator then gives.
pub(crate) fn decision(op: CBin) -> u64
    ensures { result ≡ spec.decision op }
{
    match op {
        CBin::Or => 1,
        _ => 0,
    }
}

/// The place of the element that a word of a type names, where it is one of so many.
pub(crate) fn subscript(t: CScalar, w: u64, len: u32) -> Result<u32, Undefined>
    ensures value { result ≡ spec.subscript t w len }
{
    let z = read(t, w);
    if 0 <= z && z < len as i128 {
        return Ok(z as u32);
    }
    Err(Undefined::BadIndex)
}
