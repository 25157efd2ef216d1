// Operators on the bits of two's complement.
ghost use Rattle.std.specs.Prelude.{◌≡◌, ℕ, ◌-◌, ◌^◌, ◌<◌, bit_and, bit_or, bit_xor, Ok};
ghost use Rattle.stream_types.specs.Numbers.{number_at, word, as_word, to_twos, from_twos};

use crate::int_ty::IntTy;
use crate::number::{modulus, power, read, write};
use crate::scalar::Hazard;

// The bits of a word's number in two's complement.
fn to_bits<T: IntTy>(w: u64) -> u64
    ensures value { result ≡ to_twos T.BITS (number_at T.SIGNED w) }
    ensures below { result < 2 ^ T.BITS }
{
    read::<T>(w).rem_euclid(modulus::<T>()) as u64
}

// The word of the number that has these bits.
fn of_bits<T: IntTy>(b: u64) -> u64
    requires { b < 2 ^ T.BITS }
    ensures { result ≡ word (from_twos T.BITS T.SIGNED b) }
{
    if T::SIGNED {
        if (b as i128) < power(T::BITS - 1) {
            b
        } else {
            write(b as i128 - modulus::<T>())
        }
    } else {
        b
    }
}

pub fn bit_not<T: IntTy>(a: u64) -> u64
    ensures { result ≡ word (from_twos T.BITS T.SIGNED (2 ^ T.BITS - 1 - to_twos T.BITS (number_at T.SIGNED a))) }
{
    let all = (modulus::<T>() - 1) as u64;
    of_bits::<T>(all - to_bits::<T>(a))
}

pub fn and<T: IntTy>(a: u64, b: u64) -> Result<u64, Hazard>
    ensures { result ≡ as_word (Ok (from_twos T.BITS T.SIGNED (bit_and (to_twos T.BITS (number_at T.SIGNED a)) (to_twos T.BITS (number_at T.SIGNED b))))) }
{
    Ok(of_bits::<T>(to_bits::<T>(a) & to_bits::<T>(b)))
}

pub fn or<T: IntTy>(a: u64, b: u64) -> Result<u64, Hazard>
    ensures { result ≡ as_word (Ok (from_twos T.BITS T.SIGNED (bit_or (to_twos T.BITS (number_at T.SIGNED a)) (to_twos T.BITS (number_at T.SIGNED b))))) }
{
    Ok(of_bits::<T>(to_bits::<T>(a) | to_bits::<T>(b)))
}

pub fn xor<T: IntTy>(a: u64, b: u64) -> Result<u64, Hazard>
    ensures { result ≡ as_word (Ok (from_twos T.BITS T.SIGNED (bit_xor (to_twos T.BITS (number_at T.SIGNED a)) (to_twos T.BITS (number_at T.SIGNED b))))) }
{
    Ok(of_bits::<T>(to_bits::<T>(a) ^ to_bits::<T>(b)))
}
