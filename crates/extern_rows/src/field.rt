// The words of fields.
ghost use Rattle.std.specs.Prelude.{◌≡◌, ◌≤◌, length, reverse};
ghost use Rattle.std.specs.List.{prefix_len};
ghost use Rattle.std.specs.Option.{option_map, option_and_then};
ghost use Rattle.spec_words.specs.Magnitudes.{magnitude_of, word_in};
ghost use Rattle.extern_rows.specs.Lines.{is_blank_byte};
ghost use Rattle.extern_rows.specs.Fields.{trimmed, numeral_of, field_truth, field_number, field_word};

use crate::blank::is_blank_byte;
use spec_words::{Magnitude, are_digits, truth_of, value_of, word_of};
use stream_types::Scalar;

fn blanks_at_front(text: &[u8]) -> usize
    ensures count { result ≡ prefix_len is_blank_byte text.now }
    ensures within { result ≤ length text.now }
{
    text.iter().take_while(|byte| is_blank_byte(**byte)).count()
}

fn blanks_at_end(text: &[u8]) -> usize
    ensures count { result ≡ prefix_len is_blank_byte (reverse text.now) }
    ensures within { result ≤ length text.now }
{
    text.iter()
        .rev()
        .take_while(|byte| is_blank_byte(**byte))
        .count()
}

/// The text without spaces and tabs at both ends.
pub fn trimmed(text: &[u8]) -> &[u8]
    ensures { result.now ≡ trimmed text.now }
{
    let rest = &text[blanks_at_front(text)..];
    &rest[..rest.len() - blanks_at_end(rest)]
}

// The number of one digit or more.
fn numeral_of(text: &[u8]) -> Option<Magnitude>
    ensures { result ≡ option_map magnitude_of (numeral_of text.now) }
{
    if text.is_empty() || !are_digits(text) {
        return None;
    }
    Some(value_of(text))
}

fn truth(text: &[u8]) -> Option<u64>
    ensures { result ≡ field_truth text.now }
{
    match text {
        b"1" => Some(1),
        b"0" => Some(0),
        _ => truth_of(text),
    }
}

fn integer(scalar: Scalar, text: &[u8]) -> Option<u64>
    ensures { result ≡ option_and_then (word_in scalar) (field_number text.now) }
{
    match text.split_first() {
        Some((b'-', digits)) => word_of(scalar, true, numeral_of(digits)?),
        _ => word_of(scalar, false, numeral_of(text)?),
    }
}

/// The word that a field writes at a type, if it writes a value of it.
pub fn field_word(scalar: Scalar, text: &[u8]) -> Option<u64>
    ensures { result ≡ field_word scalar text.now }
{
    match scalar {
        Scalar::Bool => truth(text),
        _ => integer(scalar, text),
    }
}
