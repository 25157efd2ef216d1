// Decimals, and what digits write.
ghost use Rattle.std.specs.Prelude.{◌≡◌, ℕ, false, IsTrue, IfSome, IfNone, Some, None, if◌then◌else◌, decimal};
ghost use Rattle.std.specs.List.{list_all};
ghost use Rattle.spec_words.specs.Decimals.{is_digit, is_decimal, value_of, is_decimal_between, WritesBetween};
ghost use Rattle.spec_words.specs.Magnitudes.{magnitude_of};
ghost use Rattle.spec_words.specs.declared.magnitudes.Magnitude.TheVariants.{Of};

use crate::magnitudes::Magnitude;

/// Whether a text is of digits alone, or empty.
pub fn are_digits(text: &[u8]) -> bool
    ensures { result ≡ list_all is_digit text.now }
{
    text.iter().all(|byte| byte.is_ascii_digit())
}

#[tactic(auto, unfolding(crate::specs::Decimals::is_decimal))]
fn is_decimal(text: &[u8]) -> bool
    ensures value { result ≡ is_decimal text.now }
    ensures digits { IsTrue result → IsTrue (list_all is_digit text.now) }
{
    let Some((first, rest)) = text.split_first() else {
        return false;
    };
    are_digits(text) && (*first != b'0' || rest.is_empty())
}

/// The number that digits write, whatever zeros come first.
#[tactic(auto, unfolding(crate::specs::Decimals::value_of))]
pub fn value_of(digits: &[u8]) -> Magnitude
    requires { IsTrue (list_all is_digit digits.now) }
    ensures { result ≡ magnitude_of (value_of digits.now) }
{
    let mut value = Magnitude::Of(0);
    for digit in digits {
        value = value.with_digit(*digit - b'0');
    }
    value
}

/// The number that a decimal writes.
#[tactic(auto, using(crate::proofs::DecimalLaws::decimals))]
pub fn decimal_of(text: &[u8]) -> Option<Magnitude>
    ensures value { result ≡ (if is_decimal text.now then Some (magnitude_of (value_of text.now)) else None) }
    ensures written { IfSome result (λ m. (n : ℕ) → m ≡ Of n → text.now ≡ decimal n) }
{
    if is_decimal(text) {
        Some(value_of(text))
    } else {
        None
    }
}

/// The number that a decimal from `least` to `most` writes.
pub fn decimal_between(text: &[u8], least: u64, most: u32) -> Option<u32>
    ensures none { IfNone result (is_decimal_between least most text.now ≡ false) }
    ensures some { IfSome result (WritesBetween least most text.now) }
{
    let Magnitude::Of(number) = decimal_of(text)? else {
        return None;
    };
    if number < least || number > u64::from(most) {
        return None;
    }
    u32::try_from(number).ok()
}
