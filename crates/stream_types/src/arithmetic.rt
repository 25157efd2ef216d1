// Sum, difference, product, quotient and remainder.
ghost use Rattle.std.specs.Prelude.{◌≡◌, ◌^◌, ◌<◌, ◌≤◌, ◌+ℤ◌, ◌-ℤ◌, ◌*ℤ◌, unsigned_abs, int_div, int_rem};
ghost use Rattle.stream_types.specs.Numbers.{number_at, fit, as_word, quotient, remainder};

use crate::int_ty::IntTy;
use crate::number::{fits, put, read, write};
use crate::scalar::Hazard;

pub fn add<T: IntTy>(a: u64, b: u64) -> Result<u64, Hazard>
    ensures { result ≡ as_word (fit T.BITS T.SIGNED (number_at T.SIGNED a +ℤ number_at T.SIGNED b)) }
{
    put::<T>(read::<T>(a) + read::<T>(b))
}

pub fn sub<T: IntTy>(a: u64, b: u64) -> Result<u64, Hazard>
    ensures { result ≡ as_word (fit T.BITS T.SIGNED (number_at T.SIGNED a -ℤ number_at T.SIGNED b)) }
{
    put::<T>(read::<T>(a) - read::<T>(b))
}

// The product of two numbers of at most 63 bits and a sign.
fn product(a: i128, b: i128) -> i128
    requires a { unsigned_abs a ≤ 2 ^ 63 }
    requires b { unsigned_abs b ≤ 2 ^ 63 }
    ensures { result ≡ a *ℤ b }
{
    a * b
}

pub fn mul<T: IntTy>(a: u64, b: u64) -> Result<u64, Hazard>
    ensures { result ≡ as_word (fit T.BITS T.SIGNED (number_at T.SIGNED a *ℤ number_at T.SIGNED b)) }
{
    if T::SIGNED {
        put::<T>(product(read::<T>(a), read::<T>(b)))
    } else {
        Ok((a as u128 * b as u128 % (1u128 << T::BITS)) as u64)
    }
}

// The quotient of numbers of at most 64 bits, towards zero.
fn divided(a: i128, b: i128) -> i128
    requires a { unsigned_abs a < 2 ^ 64 }
    requires nonzero { 0 < unsigned_abs b }
    requires b { unsigned_abs b < 2 ^ 64 }
    ensures { result ≡ int_div a b }
{
    a / b
}

// What that quotient leaves over.
fn left_over(a: i128, b: i128) -> i128
    requires a { unsigned_abs a < 2 ^ 64 }
    requires nonzero { 0 < unsigned_abs b }
    requires b { unsigned_abs b < 2 ^ 64 }
    ensures value { result ≡ int_rem a b }
    ensures small { unsigned_abs result < 2 ^ 64 }
{
    a % b
}

pub fn quot<T: IntTy>(a: u64, b: u64) -> Result<u64, Hazard>
    ensures { result ≡ as_word (quotient T.BITS T.SIGNED (number_at T.SIGNED a) (number_at T.SIGNED b)) }
{
    let divisor = read::<T>(b);
    if divisor == 0 {
        return Err(Hazard::ZeroDivisor);
    }
    let z = divided(read::<T>(a), divisor);
    if fits::<T>(z) {
        Ok(write(z))
    } else {
        Err(Hazard::Overflow)
    }
}

pub fn rem<T: IntTy>(a: u64, b: u64) -> Result<u64, Hazard>
    ensures { result ≡ as_word (remainder T.BITS T.SIGNED (number_at T.SIGNED a) (number_at T.SIGNED b)) }
{
    let divisor = read::<T>(b);
    if divisor == 0 {
        return Err(Hazard::ZeroDivisor);
    }
    let dividend = read::<T>(a);
    if fits::<T>(divided(dividend, divisor)) {
        Ok(write(left_over(dividend, divisor)))
    } else {
        Err(Hazard::Overflow)
    }
}
