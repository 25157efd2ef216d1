// Literals and constants as they are written.
ghost use Rattle.std.specs.Prelude.{◌++◌, None, map, codes};
ghost use Rattle.std.specs.List.{flat_map};
ghost use Rattle.spec_text.specs.Form.{form_of_const, headed, word, form, forms, more};
ghost use Rattle.spec_words.specs.Words.{scalar_word};
ghost use Rattle.spec_words.specs.Literals.{literal_text, number_text};
ghost use Rattle.stream_types.specs.Scalars.{signed};
ghost use Rattle.spec_text.specs.Canonical.{text, texts};
ghost use Rattle.sm_print.specs.Prints.{Prints};

use crate::lists::{opened, spaced};
use sm_io::{Name, Sink};
use sm_print::Printer;
use spec_text::ConstForm;
use spec_words::{scalar_word, truth_text};
use stream_types::Scalar;

// A number, and the word of its type.
fn typed<K: Sink>(out: &mut Printer<'_, K>, scalar: Scalar, word: u64)
    ensures { Prints K.taken K.faults out.old (number_text (signed scalar) word ++ codes ":" ++ scalar_word scalar) out.new }
{
    digits(out, scalar, word);
    out.put(b":");
    out.put(scalar_word(scalar));
}

fn digits<K: Sink>(out: &mut Printer<'_, K>, scalar: Scalar, word: u64)
    ensures { Prints K.taken K.faults out.old (number_text (signed scalar) word) out.new }
{
    match scalar {
        Scalar::Int8 | Scalar::Int16 | Scalar::Int32 | Scalar::Int64 => {
            out.signed(word.cast_signed());
        }
        Scalar::Bool | Scalar::Word8 | Scalar::Word16 | Scalar::Word32 | Scalar::Word64 => {
            out.number(word);
        }
    }
}

#[tactic(auto, unfolding(spec_words::specs::Literals::literal_text))]
pub fn literal<K: Sink>(out: &mut Printer<'_, K>, scalar: Scalar, word: u64)
    ensures { Prints K.taken K.faults out.old (literal_text scalar word) out.new }
{
    match scalar {
        Scalar::Bool => out.put(truth_text(word)),
        _ => typed(out, scalar, word),
    }
}

// One row for each form.
#[cycle(constants)]
fn constant<K: Sink>(out: &mut Printer<'_, K>, value: &ConstForm)
    ensures { Prints K.taken K.faults out.old (text (form_of_const value.now)) out.new }
{
    match value {
        ConstForm::Lit { scalar, word, .. } => literal(out, *scalar, *word),
        ConstForm::Array { items, .. } => constant_array(out, items.as_slice()),
        ConstForm::Record { name, items, .. } => constant_record(out, &name.name, items.as_slice()),
    }
}

#[cycle(constants)]
fn spaced_constants<K: Sink>(out: &mut Printer<'_, K>, all: &[ConstForm])
    ensures { Prints K.taken K.faults out.old (flat_map (λ x. codes " " ++ text (form_of_const x)) all.now) out.new }
{
    for value in all {
        out.put(b" ");
        constant(out, value);
    }
}

#[cycle(constants)]
fn constant_array<K: Sink>(out: &mut Printer<'_, K>, all: &[ConstForm])
    ensures { Prints K.taken K.faults out.old (text (headed None (codes "array") (forms (map form_of_const all.now)))) out.new }
{
    opened(out, b"array");
    spaced_constants(out, all);
    out.put(b")");
}

#[cycle(constants)]
fn constant_record<K: Sink>(out: &mut Printer<'_, K>, name: &Name, all: &[ConstForm])
    ensures { Prints K.taken K.faults out.old (text (headed None (codes "record") (more (word None name.now) (forms (map form_of_const all.now))))) out.new }
{
    opened(out, b"record");
    spaced(out, name.bytes());
    spaced_constants(out, all);
    out.put(b")");
}

// A stream's initial values.
pub fn initial<K: Sink>(out: &mut Printer<'_, K>, all: &[ConstForm])
    ensures { Prints K.taken K.faults out.old (codes " " ++ text (form None (forms (map form_of_const all.now)))) out.new }
{
    out.put(b" (");
    constants(out, all);
    out.put(b")");
}

// Some constants with one space between them.
fn constants<K: Sink>(out: &mut Printer<'_, K>, all: &[ConstForm])
    ensures { Prints K.taken K.faults out.old (texts (forms (map form_of_const all.now))) out.new }
{
    let mut before: &[u8] = b"";
    for value in all {
        out.put(before);
        constant(out, value);
        before = b" ";
    }
}
