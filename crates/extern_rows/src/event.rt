// The line of an event.
ghost use Rattle.std.specs.Prelude.{◌≡◌, ◌≤◌, true, length, IfOk, decimal, is_ok};
ghost use Rattle.std.specs.Fmt.{signed_decimal};
ghost use Rattle.stream_types.specs.Numbers.{number_at};
ghost use Rattle.sm_io.specs.Written.{WritesText};
ghost use Rattle.extern_rows.specs.Events.{Fits, FitsFirst, piece_words, piece_text, word_text, before_name, pieces_text, event_text};

use itoa::Buffer;
use sm_io::{Failed, Sink, write_all};
use spec_words::truth_text;
use stream_types::Scalar;

/// A part of an event's arguments, in the order in which they are written.
#[derive(Clone, Copy, Debug, PartialEq, Eq)]
pub enum Piece {
    /// The space before an argument.
    Gap,
    /// A value of one word.
    Word(Scalar),
    /// The bracket before the parts of an array or a struct.
    Open(u8),
    /// What stands between two parts.
    Comma,
    /// The bracket behind the parts.
    Close(u8),
}

fn write_unsigned<K: Sink>(sink: &mut K, word: u64) -> Result<(), Failed>
    ensures { WritesText (K.taken sink.old) (K.taken sink.new) (K.faults sink.old) (K.faults sink.new) (is_ok result) (decimal word) }
{
    let mut buffer = Buffer::new();
    write_all(sink, buffer.format(word).as_bytes())
}

fn write_signed<K: Sink>(sink: &mut K, word: u64) -> Result<(), Failed>
    ensures { WritesText (K.taken sink.old) (K.taken sink.new) (K.faults sink.old) (K.faults sink.new) (is_ok result) (signed_decimal (number_at true word)) }
{
    let mut buffer = Buffer::new();
    write_all(sink, buffer.format(word.cast_signed()).as_bytes())
}

// Writes a value of one word.
fn write_word<K: Sink>(sink: &mut K, scalar: Scalar, word: u64) -> Result<(), Failed>
    ensures { WritesText (K.taken sink.old) (K.taken sink.new) (K.faults sink.old) (K.faults sink.new) (is_ok result) (word_text scalar word) }
{
    match scalar {
        Scalar::Bool => write_all(sink, truth_text(word)),
        Scalar::Int8 | Scalar::Int16 | Scalar::Int32 | Scalar::Int64 => write_signed(sink, word),
        Scalar::Word8 | Scalar::Word16 | Scalar::Word32 | Scalar::Word64 => write_unsigned(
            sink, word,
        ),
    }
}

// Writes one part, and answers how many of the words it took.
fn write_piece<K: Sink>(sink: &mut K, piece: Piece, words: &[u64]) -> Result<usize, Failed>
    requires { FitsFirst piece words.now }
    ensures text { WritesText (K.taken sink.old) (K.taken sink.new) (K.faults sink.old) (K.faults sink.new) (is_ok result) (piece_text piece words.now) }
    ensures count { IfOk result (λ n. n ≡ piece_words piece) }
    ensures within { IfOk result (λ n. n ≤ length words.now) }
{
    match piece {
        Piece::Word(scalar) => {
            write_word(sink, scalar, words[0])?;
            return Ok(1);
        }
        Piece::Gap => write_all(sink, b" ")?,
        Piece::Comma => write_all(sink, b",")?,
        Piece::Open(bracket) => write_all(sink, &[bracket])?,
        Piece::Close(bracket) => write_all(sink, &[bracket])?,
    }
    Ok(0)
}

fn write_pieces<K: Sink>(sink: &mut K, shape: &[Piece], words: &[u64]) -> Result<(), Failed>
    requires { Fits shape.now words.now }
    ensures { WritesText (K.taken sink.old) (K.taken sink.new) (K.faults sink.old) (K.faults sink.new) (is_ok result) (pieces_text shape.now words.now) }
{
    let mut rest = words;
    for piece in shape {
        let count = write_piece(sink, *piece, rest)?;
        rest = rest.split_at(count).1;
    }
    Ok(())
}

// What stands between the step and the name.
fn before_name(mark: bool) -> &'static [u8]
    ensures { result.now ≡ before_name mark }
{
    if mark { b" =" } else { b" " }
}

/// Writes one event's line: the step, the trigger's name, or an observer's with its mark `=`, and the arguments,
/// whose words stand in `words`, one for each `Piece::Word` of `shape`. On `Failed` a prefix of the line was taken.
pub fn event_line<K: Sink>(
    sink: &mut K,
    step: u64,
    mark: bool,
    name: &[u8],
    shape: &[Piece],
    words: &[u64],
) -> Result<(), Failed>
    requires { Fits shape.now words.now }
    ensures { WritesText (K.taken sink.old) (K.taken sink.new) (K.faults sink.old) (K.faults sink.new) (is_ok result)
        (event_text step mark name.now shape.now words.now) }
{
    write_unsigned(sink, step)?;
    write_all(sink, before_name(mark))?;
    write_all(sink, name)?;
    write_pieces(sink, shape, words)?;
    write_all(sink, b"\n")
}
