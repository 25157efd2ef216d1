// Equality and order, and the other truth value.
ghost use Rattle.std.specs.Prelude.{◌≡◌, ◌-ℤ◌, pos, int_lt, int_le, not, Ok};
ghost use Rattle.std.specs.Ordering.{int_eq};
ghost use Rattle.stream_types.specs.Numbers.{number_at, word, as_word, of_test};

use crate::int_ty::IntTy;
use crate::number::{read, write};

// The word of a fact.
fn truth(b: bool) -> u64
    ensures { result ≡ word (of_test b) }
{
    if b { 1 } else { 0 }
}

pub fn not<T: IntTy>(a: u64) -> u64
    ensures { result ≡ word (pos 1 -ℤ number_at T.SIGNED a) }
{
    write(1 - read::<T>(a))
}

pub fn eq<T: IntTy>(a: u64, b: u64) -> u64
    ensures { result ≡ word (of_test (int_eq (number_at T.SIGNED a) (number_at T.SIGNED b))) }
{
    truth(read::<T>(a) == read::<T>(b))
}

pub fn ne<T: IntTy>(a: u64, b: u64) -> u64
    ensures { result ≡ word (of_test (not (int_eq (number_at T.SIGNED a) (number_at T.SIGNED b)))) }
{
    truth(read::<T>(a) != read::<T>(b))
}

pub fn lt<T: IntTy>(a: u64, b: u64) -> u64
    ensures { result ≡ word (of_test (int_lt (number_at T.SIGNED a) (number_at T.SIGNED b))) }
{
    truth(read::<T>(a) < read::<T>(b))
}

pub fn le<T: IntTy>(a: u64, b: u64) -> u64
    ensures { result ≡ word (of_test (int_le (number_at T.SIGNED a) (number_at T.SIGNED b))) }
{
    truth(read::<T>(a) <= read::<T>(b))
}
