// Shifts of numbers that are not negative.
ghost use Rattle.std.specs.Prelude.{◌≡◌, ◌/◌, ◌^◌, ◌<◌, ◌*ℤ◌, ◌≤ℤ◌, pos, unsigned_abs, false};
ghost use Rattle.stream_types.specs.Numbers.{as_word, bad_shift, shift_number};
ghost use Rattle.stream_types.specs.declared.scalar.Dir.TheVariants.{Left, Right};

use crate::int_ty::IntTy;
use crate::number::{power, put};
use crate::scalar::{Dir, Hazard};

fn is_bad_shift<T: IntTy>(a: i128, count: i128) -> bool
    ensures value { result ≡ bad_shift T.BITS a count }
    ensures not_negative { result ≡ false → pos 0 ≤ℤ a }
    ensures from { result ≡ false → pos 0 ≤ℤ count }
    ensures below { result ≡ false → unsigned_abs count < 64 }
{
    count < 0 || count >= T::BITS as i128 || a < 0
}

// A number of at most 64 bits, times a power of two.
fn times_power(a: i128, count: u32) -> i128
    requires a { unsigned_abs a < 2 ^ 64 }
    requires count { count < 64 }
    ensures { result ≡ a *ℤ pos (2 ^ count) }
{
    a * power(count)
}

// A number that is not negative, divided by a power of two and rounded down.
fn over_power(a: i128, count: u32) -> u64
    requires a { unsigned_abs a < 2 ^ 64 }
    requires not_negative { pos 0 ≤ℤ a }
    requires count { count < 64 }
    ensures { result ≡ unsigned_abs a / 2 ^ count }
{
    (a / power(count)) as u64
}

// A number by a count, at the number's type.
pub fn shifted<T: IntTy>(dir: Dir, a: i128, count: i128) -> Result<u64, Hazard>
    requires { unsigned_abs a < 2 ^ 64 }
    ensures { result ≡ as_word (shift_number dir T.BITS T.SIGNED a count) }
{
    if is_bad_shift::<T>(a, count) {
        return Err(Hazard::BadShift);
    }
    match dir {
        Dir::Left => put::<T>(times_power(a, count as u32)),
        Dir::Right => Ok(over_power(a, count as u32)),
    }
}
