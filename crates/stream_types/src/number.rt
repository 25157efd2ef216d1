// Words and the numbers that they stand for.
ghost use Rattle.std.specs.Prelude.{◌≡◌, ◌^◌, ◌<◌, ◌≤◌, IsTrue, pos, unsigned_abs, true};
ghost use Rattle.stream_types.specs.Numbers.{number_at, word, in_range, fit, as_word};

use crate::int_ty::IntTy;
use crate::scalar::Hazard;

// The number of a word.
pub fn read<T: IntTy>(w: u64) -> i128
    ensures value { result ≡ number_at T.SIGNED w }
    ensures small { unsigned_abs result < 2 ^ 64 }
    ensures signed { T.SIGNED ≡ true → unsigned_abs result ≤ 2 ^ 63 }
{
    if T::SIGNED {
        w.cast_signed() as i128
    } else {
        w as i128
    }
}

// The word of a number of at most 64 bits.
pub fn write(z: i128) -> u64
    requires { unsigned_abs z < 2 ^ 64 }
    ensures { result ≡ word z }
{
    if z < 0 {
        (z + 0x1_0000_0000_0000_0000) as u64
    } else {
        z as u64
    }
}

// Whether the type has the number.
pub fn fits<T: IntTy>(z: i128) -> bool
    ensures value { result ≡ in_range T.BITS T.SIGNED z }
    ensures small { IsTrue result → unsigned_abs z < 2 ^ 64 }
{
    T::MIN <= z && z <= T::MAX
}

// A power of two.
pub fn power(count: u32) -> i128
    requires { count ≤ 64 }
    ensures value { result ≡ pos (2 ^ count) }
    ensures some { 0 < 2 ^ count }
    ensures most { 2 ^ count ≤ 2 ^ 64 }
{
    1 << count
}

// How many numbers the type has.
pub fn modulus<T: IntTy>() -> i128
    ensures value { result ≡ pos (2 ^ T.BITS) }
    ensures some { 0 < 2 ^ T.BITS }
    ensures most { 2 ^ T.BITS ≤ 2 ^ 64 }
{
    power(T::BITS)
}

// An exact result, as the type holds it.
pub fn put<T: IntTy>(z: i128) -> Result<u64, Hazard>
    ensures { result ≡ as_word (fit T.BITS T.SIGNED z) }
{
    if T::SIGNED {
        if fits::<T>(z) {
            Ok(write(z))
        } else {
            Err(Hazard::Overflow)
        }
    } else {
        Ok(write(z.rem_euclid(modulus::<T>())))
    }
}
