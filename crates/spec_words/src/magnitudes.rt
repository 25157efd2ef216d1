// Numbers by their sign and their magnitude.
ghost use Rattle.std.specs.Prelude.{◌≡◌, ◌+◌, ◌*◌, ◌<◌, ℕ};
ghost use Rattle.stream_types.specs.Scalars.{bits, signed};
ghost use Rattle.spec_words.specs.Magnitudes.{magnitude_of, greatest_of, least_of, signed_number, word_in};

use stream_types::Scalar;

/// A number without its sign, as far as a scalar may have it.
#[derive(Clone, Copy, Debug, PartialEq, Eq)]
pub enum Magnitude {
    /// A number below 2^64.
    Of(u64),
    /// 2^64 or more.
    Beyond,
}

impl Magnitude {
    /// The number with one digit more behind it.
    pub fn with_digit(self, digit: u8) -> Magnitude
        requires { digit < 10 }
        ensures { (n : ℕ) → self ≡ magnitude_of n → result ≡ magnitude_of (n * 10 + digit) }
    {
        match self {
            Magnitude::Of(number) => match u64::try_from(
                u128::from(number) * 10 + u128::from(digit),
            ) {
                Ok(number) => Magnitude::Of(number),
                Err(_) => Magnitude::Beyond,
            },
            Magnitude::Beyond => Magnitude::Beyond,
        }
    }
}

// The greatest number of a type, and the magnitude of its least.
fn ends(scalar: Scalar) -> (u64, u64)
    ensures { result ≡ (greatest_of (bits scalar) (signed scalar), least_of (bits scalar) (signed scalar)) }
{
    match scalar {
        Scalar::Int8 => (0x7F, 0x80),
        Scalar::Int16 => (0x7FFF, 0x8000),
        Scalar::Int32 => (0x7FFF_FFFF, 0x8000_0000),
        Scalar::Int64 => (0x7FFF_FFFF_FFFF_FFFF, 0x8000_0000_0000_0000),
        Scalar::Bool | Scalar::Word8 => (0xFF, 0),
        Scalar::Word16 => (0xFFFF, 0),
        Scalar::Word32 => (0xFFFF_FFFF, 0),
        Scalar::Word64 => (u64::MAX, 0),
    }
}

// The word of a number below 2^64 with its sign.
fn word_of_number(scalar: Scalar, minus: bool, number: u64) -> Option<u64>
    ensures { result ≡ word_in scalar (signed_number minus number) }
{
    let (greatest, least) = ends(scalar);
    if minus && number <= least {
        Some(number.wrapping_neg())
    } else if !minus && number <= greatest {
        Some(number)
    } else {
        None
    }
}

/// The word of a number by its sign and its magnitude, where the type has it.
pub fn word_of(scalar: Scalar, minus: bool, magnitude: Magnitude) -> Option<u64>
    ensures { (n : ℕ) → magnitude ≡ magnitude_of n → result ≡ word_in scalar (signed_number minus n) }
{
    match magnitude {
        Magnitude::Of(number) => word_of_number(scalar, minus, number),
        Magnitude::Beyond => None,
    }
}
