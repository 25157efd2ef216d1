// Literals.
ghost use Rattle.std.specs.Prelude.{◌≡◌, ◌<◌, ◌||◌, ◌==◌, IfSome, length, slice_get, position, false};
ghost use Rattle.std.specs.List.{list_any};
ghost use Rattle.std.specs.Option.{option_and_then, option_map_or};
ghost use Rattle.spec_words.specs.Decimals.{is_digit};
ghost use Rattle.spec_words.specs.Magnitudes.{word_in};
ghost use Rattle.spec_words.specs.Literals.{is_colon, is_numeric, typed, typed_at, number_of, literal_of, integer_of, positive_of, negative_of};

use crate::decimals::decimal_of;
use crate::magnitudes::{Magnitude, word_of};
use crate::words::{scalar_of, truth_of};
use stream_types::Scalar;

fn negative(scalar: Scalar, text: &[u8]) -> Option<u64>
    ensures { result ≡ option_and_then (word_in scalar) (negative_of text.now) }
{
    match decimal_of(text)? {
        Magnitude::Of(0) => None,
        magnitude => word_of(scalar, true, magnitude),
    }
}

fn positive(scalar: Scalar, text: &[u8]) -> Option<u64>
    ensures { result ≡ option_and_then (word_in scalar) (positive_of text.now) }
{
    word_of(scalar, false, decimal_of(text)?)
}

fn integer(scalar: Scalar, text: &[u8]) -> Option<u64>
    ensures { result ≡ option_and_then (word_in scalar) (integer_of text.now) }
{
    match text.split_first() {
        Some((b'-', digits)) => negative(scalar, digits),
        Some(_) => positive(scalar, text),
        None => None,
    }
}

fn typed(text: &[u8], scalar: Scalar) -> Option<(Scalar, u64)>
    ensures { result ≡ typed text.now scalar }
{
    if let Scalar::Bool = scalar {
        return None;
    }
    let word = integer(scalar, text)?;
    Some((scalar, word))
}

fn first_colon(text: &[u8]) -> Option<usize>
    ensures place { result ≡ position is_colon text.now }
    ensures within { IfSome result (λ k. k < length text.now) }
{
    text.iter().position(|byte| *byte == b':')
}

fn typed_at(text: &[u8], colon: usize) -> Option<(Scalar, u64)>
    requires { colon < length text.now }
    ensures { result ≡ typed_at text.now colon }
{
    match scalar_of(&text[colon + 1..]) {
        Some(scalar) => typed(&text[..colon], scalar),
        None => None,
    }
}

fn number(text: &[u8]) -> Option<(Scalar, u64)>
    ensures { result ≡ number_of text.now }
{
    match first_colon(text) {
        Some(colon) => typed_at(text, colon),
        None => None,
    }
}

/// The scalar and the word that a text writes as a literal.
#[tactic(auto, unfolding(crate::specs::Literals::literal_of))]
pub fn literal(text: &[u8]) -> Option<(Scalar, u64)>
    ensures { result ≡ literal_of text.now }
{
    match truth_of(text) {
        Some(word) => Some((Scalar::Bool, word)),
        None => number(text),
    }
}

fn begins_numeric(text: &[u8]) -> bool
    ensures { result ≡ option_map_or (λ b. is_digit b || b == 45) (slice_get text.now 0) false }
{
    let Some(first) = text.first() else {
        return false;
    };
    first.is_ascii_digit() || *first == b'-'
}

fn has_colon(text: &[u8]) -> bool
    ensures { result ≡ list_any is_colon text.now }
{
    text.iter().any(|byte| *byte == b':')
}

/// Whether an atom must be a literal where an expression stands.
#[tactic(auto, unfolding(crate::specs::Literals::is_numeric))]
pub fn is_numeric(text: &[u8]) -> bool
    ensures { result ≡ is_numeric text.now }
{
    begins_numeric(text) || has_colon(text)
}
