// The operators on words.
ghost use Rattle.std.specs.Prelude.{◌≡◌, ◌+◌, ◌^◌, ◌<◌, IsTrue, IfOk, unsigned_abs};
ghost use Rattle.stream_types.specs.Scalars.{bits, signed, op1_fits, op2_fits, op2_gives, shift_fits, cast_fits};
ghost use Rattle.stream_types.specs.Numbers.{number, number_at, word, is_word, as_word, op1_number, op2_number, op1_word, op2_word, shift_word, cast_word};

use crate::arithmetic::{add, mul, quot, rem, sub};
use crate::bitwise::{and, bit_not, or, xor};
use crate::comparison::{eq, le, lt, ne, not};
use crate::int_ty::IntTy;
use crate::number::{put, read};
use crate::scalar::{Dir, Hazard, Op1, Op2, Scalar};
use crate::shifts::shifted;
use sm_io::Steps;
use std::sync::ledger::Ledger;

// A generic function at the integer type of a scalar. A truth value is an unsigned number of 8 bits.
macro_rules! at_scalar {
    ($ty:expr, $f:ident($($arg:expr),*)) => {
        match $ty {
            Scalar::Bool => $f::<u8>($($arg),*),
            Scalar::Int8 => $f::<i8>($($arg),*),
            Scalar::Int16 => $f::<i16>($($arg),*),
            Scalar::Int32 => $f::<i32>($($arg),*),
            Scalar::Int64 => $f::<i64>($($arg),*),
            Scalar::Word8 => $f::<u8>($($arg),*),
            Scalar::Word16 => $f::<u16>($($arg),*),
            Scalar::Word32 => $f::<u32>($($arg),*),
            Scalar::Word64 => $f::<u64>($($arg),*),
        }
    };
}

fn op1_at<T: IntTy>(op: Op1, a: u64) -> u64
    ensures { result ≡ word (op1_number op T.BITS T.SIGNED (number_at T.SIGNED a)) }
{
    match op {
        Op1::Not => not::<T>(a),
        Op1::BitNot => bit_not::<T>(a),
    }
}

fn op2_at<T: IntTy>(op: Op2, a: u64, b: u64) -> Result<u64, Hazard>
    ensures { result ≡ as_word (op2_number op T.BITS T.SIGNED (number_at T.SIGNED a) (number_at T.SIGNED b)) }
{
    match op {
        Op2::Add => add::<T>(a, b),
        Op2::Sub => sub::<T>(a, b),
        Op2::Mul => mul::<T>(a, b),
        Op2::Quot => quot::<T>(a, b),
        Op2::Rem => rem::<T>(a, b),
        Op2::BitAnd => and::<T>(a, b),
        Op2::BitOr => or::<T>(a, b),
        Op2::BitXor => xor::<T>(a, b),
        Op2::Eq => Ok(eq::<T>(a, b)),
        Op2::Ne => Ok(ne::<T>(a, b)),
        Op2::Lt => Ok(lt::<T>(a, b)),
        Op2::Le => Ok(le::<T>(a, b)),
        Op2::Gt => Ok(lt::<T>(b, a)),
        Op2::Ge => Ok(le::<T>(b, a)),
    }
}

// The number of a word of a scalar.
fn number_of(ty: Scalar, w: u64) -> i128
    ensures value { result ≡ number ty w }
    ensures small { unsigned_abs result < 2 ^ 64 }
{
    at_scalar!(ty, read(w))
}

/// An operator on one word, by the table of numbers. One step.
pub fn op1<L: Ledger>(op: Op1, ty: Scalar, a: u64, steps: &mut Steps<L>) -> u64
    requires fits { IsTrue (op1_fits op ty) }
    requires a { IsTrue (is_word ty a) }
    ensures value { result ≡ op1_word op ty a }
    ensures step { steps.new ≡ steps.old + 1 }
    ensures word { IsTrue (is_word ty result) }
{
    steps.tick();
    at_scalar!(ty, op1_at(op, a))
}

/// An operator on two words of one scalar, by the table of numbers. One step.
///
/// `Overflow` where a signed result is out of range, `ZeroDivisor` where the divisor is zero.
pub fn op2<L: Ledger>(
    op: Op2,
    ty: Scalar,
    a: u64,
    b: u64,
    steps: &mut Steps<L>,
) -> Result<u64, Hazard>
    requires fits { IsTrue (op2_fits op ty) }
    requires a { IsTrue (is_word ty a) }
    requires b { IsTrue (is_word ty b) }
    ensures value { result ≡ op2_word op ty a b }
    ensures step { steps.new ≡ steps.old + 1 }
    ensures word { IfOk result (λ w. IsTrue (is_word (op2_gives op ty) w)) }
{
    steps.tick();
    at_scalar!(ty, op2_at(op, a, b))
}

/// A word shifted by a count, whose type may be another. One step.
///
/// `BadShift` where the count is negative or not below the width, or the operand is negative; else
/// `Overflow` where a signed result is out of range.
pub fn shift<L: Ledger>(
    dir: Dir,
    ty: Scalar,
    a: u64,
    cty: Scalar,
    count: u64,
    steps: &mut Steps<L>,
) -> Result<u64, Hazard>
    requires fits { IsTrue (shift_fits ty cty) }
    requires a { IsTrue (is_word ty a) }
    requires count { IsTrue (is_word cty count) }
    ensures value { result ≡ shift_word dir ty a cty count }
    ensures step { steps.new ≡ steps.old + 1 }
    ensures word { IfOk result (λ w. IsTrue (is_word ty w)) }
{
    steps.tick();
    let operand = number_of(ty, a);
    let count = number_of(cty, count);
    at_scalar!(ty, shifted(dir, operand, count))
}

/// A word's number as a word of another scalar, modulo its range where it is unsigned. One step.
///
/// `Overflow` where a signed type does not have the number.
pub fn cast<L: Ledger>(
    from: Scalar,
    to: Scalar,
    a: u64,
    steps: &mut Steps<L>,
) -> Result<u64, Hazard>
    requires fits { IsTrue (cast_fits from to) }
    requires a { IsTrue (is_word from a) }
    ensures value { result ≡ cast_word from to a }
    ensures step { steps.new ≡ steps.old + 1 }
    ensures word { IfOk result (λ w. IsTrue (is_word to w)) }
{
    steps.tick();
    let z = number_of(from, a);
    at_scalar!(to, put(z))
}
