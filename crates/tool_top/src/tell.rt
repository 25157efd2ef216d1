// Tells an outcome on the error sink.
ghost use Rattle.std.specs.Prelude.{◌≡◌, [], ◌∷◌, codes, decimal, is_ok};
ghost use Rattle.std.specs.List.{flat_map};
ghost use Rattle.sm_io.specs.Written.{WritesText};
ghost use Rattle.tool_top.specs.Lines.{kind_word, place_of, place_text, refusal_line, usage_line, hazard_word, undefined_word, step_line, row_words, row_line, line_of};

use crate::outcome::{Outcome, Refusal, RefusalKind, Tool};
use c99_tree::Undefined;
use extern_rows::RowFault;
use itoa::Buffer;
use sm_io::{Failed, Sink, write_all, write_parts};
use stream_types::Hazard;

// Which numbers of a refusal are told.
#[derive(Clone, Copy)]
pub enum Place {
    Nowhere,
    Offset,
    Item,
    Requirement,
    Formula,
}

// The word of a kind.
fn kind_word(kind: RefusalKind) -> &'static str
    ensures { result.now ≡ kind_word kind }
{
    match kind {
        RefusalKind::TextTooLong => "TextTooLong",
        RefusalKind::TooManyDecls => "TooManyDecls",
        RefusalKind::TooManyWords => "TooManyWords",
        RefusalKind::SpecTooHeavy => "SpecTooHeavy",
        RefusalKind::NotHeader => "NotHeader",
        RefusalKind::NotSource => "NotSource",
        RefusalKind::NotWellFormed => "NotWellFormed",
        RefusalKind::NotJson => "NotJson",
        RefusalKind::NoComponent => "NoComponent",
        RefusalKind::BadByte => "BadByte",
        RefusalKind::Unbalanced => "Unbalanced",
        RefusalKind::TooDeep => "TooDeep",
        RefusalKind::BadForm => "BadForm",
        RefusalKind::BadName => "BadName",
        RefusalKind::BadLiteral => "BadLiteral",
        RefusalKind::Redeclared => "Redeclared",
        RefusalKind::Unknown => "Unknown",
        RefusalKind::TypeClash => "TypeClash",
        RefusalKind::NestedArray => "NestedArray",
        RefusalKind::TypeTooWide => "TypeTooWide",
        RefusalKind::DropOfNoBuffer => "DropOfNoBuffer",
        RefusalKind::DropTooFar => "DropTooFar",
        RefusalKind::Cycle => "Cycle",
        RefusalKind::RootTooHeavy => "RootTooHeavy",
        RefusalKind::BadVariableEntry => "BadVariableEntry",
        RefusalKind::BadRequirementEntry => "BadRequirementEntry",
        RefusalKind::BadVariable => "BadVariable",
        RefusalKind::BadRequirement => "BadRequirement",
        RefusalKind::NotOldLayout => "NotOldLayout",
        RefusalKind::BadFormula => "BadFormula",
        RefusalKind::FormulaTooDeep => "FormulaTooDeep",
        RefusalKind::NotYet => "NotYet",
    }
}

// Which numbers a kind tells.
fn place_of(kind: RefusalKind) -> Place
    ensures { result ≡ place_of kind }
{
    match kind {
        RefusalKind::TextTooLong
        | RefusalKind::TooManyDecls
        | RefusalKind::TooManyWords
        | RefusalKind::SpecTooHeavy
        | RefusalKind::NotHeader
        | RefusalKind::NotSource
        | RefusalKind::NotWellFormed
        | RefusalKind::NotJson
        | RefusalKind::NoComponent => Place::Nowhere,
        RefusalKind::BadVariableEntry
        | RefusalKind::BadRequirementEntry
        | RefusalKind::BadVariable
        | RefusalKind::BadRequirement
        | RefusalKind::NotOldLayout => Place::Item,
        RefusalKind::BadFormula => Place::Formula,
        RefusalKind::FormulaTooDeep => Place::Requirement,
        _ => Place::Offset,
    }
}

// Writes the numbers of a refusal, and ends its line.
fn write_place<E: Sink>(place: Place, item: u64, at: u64, err: &mut E) -> Result<(), Failed>
    ensures { WritesText (E.taken err.old) (E.taken err.new) (E.faults err.old) (E.faults err.new) (is_ok result) (place_text place item at) }
{
    let mut item_number = Buffer::new();
    let mut offset = Buffer::new();
    let item = item_number.format(item).as_bytes();
    let at = offset.format(at).as_bytes();
    match place {
        Place::Nowhere => write_all(err, b"\n"),
        Place::Offset => write_parts(err, &[b" at ", at, b"\n"]),
        Place::Item => write_parts(err, &[b" ", item, b"\n"]),
        Place::Requirement => write_parts(err, &[b" in requirement ", item, b"\n"]),
        Place::Formula => write_parts(err, &[b" in requirement ", item, b" at ", at, b"\n"]),
    }
}

fn tell_refusal<E: Sink>(refusal: Refusal, err: &mut E) -> Result<(), Failed>
    ensures { WritesText (E.taken err.old) (E.taken err.new) (E.faults err.old) (E.faults err.new) (is_ok result) (refusal_line refusal) }
{
    write_parts(err, &[b"error: ", kind_word(refusal.kind).as_bytes()])?;
    write_place(place_of(refusal.kind), refusal.item, refusal.at, err)
}

fn tell_usage<E: Sink>(tool: Tool, err: &mut E) -> Result<(), Failed>
    ensures { WritesText (E.taken err.old) (E.taken err.new) (E.faults err.old) (E.faults err.new) (is_ok result) (usage_line tool) }
{
    match tool {
        Tool::Copilot => write_all(
            err,
            b"usage: copilot compile SPEC NAME | interpret SPEC | cexec NAME | demo K T | migrate OLD NEW\n",
        ),
        Tool::Ogma => write_all(
            err,
            b"usage: ogma standalone REQS SPEC | cfs REQS NAME | ros REQS NAME | fprime REQS NAME\n",
        ),
    }
}

fn hazard_word(kind: Hazard) -> &'static str
    ensures { result.now ≡ hazard_word kind }
{
    match kind {
        Hazard::Overflow => "Overflow",
        Hazard::ZeroDivisor => "ZeroDivisor",
        Hazard::BadShift => "BadShift",
        Hazard::BadIndex => "BadIndex",
    }
}

fn undefined_word(kind: Undefined) -> &'static str
    ensures { result.now ≡ undefined_word kind }
{
    match kind {
        Undefined::Overflow => "Overflow",
        Undefined::ZeroDivisor => "ZeroDivisor",
        Undefined::BadShift => "BadShift",
        Undefined::BadIndex => "BadIndex",
        Undefined::BadConversion => "BadConversion",
    }
}

// Writes the step at which a run stopped.
fn tell_step<E: Sink>(title: &[u8], word: &[u8], step: u64, err: &mut E) -> Result<(), Failed>
    ensures { WritesText (E.taken err.old) (E.taken err.new) (E.faults err.old) (E.faults err.new) (is_ok result) (step_line title.now word.now step) }
{
    let mut number = Buffer::new();
    let step = number.format(step).as_bytes();
    write_parts(err, &[title, word, b" at step ", step, b"\n"])
}

fn write_row_fault<E: Sink>(fault: &RowFault, leaf: &[u8], err: &mut E) -> Result<(), Failed>
    ensures { WritesText (E.taken err.old) (E.taken err.new) (E.faults err.old) (E.faults err.new) (is_ok result)
        (flat_map (λ piece. piece) (row_words fault.now leaf.now)) }
{
    match fault {
        RowFault::NoColumn(_) => write_parts(err, &[b"NoColumn ", leaf]),
        RowFault::TwoColumns(_) => write_parts(err, &[b"TwoColumns ", leaf]),
        RowFault::BadRecord => write_parts(err, &[b"BadRecord", b""]),
        RowFault::BadField(_) => write_parts(err, &[b"BadField ", leaf]),
        RowFault::LineTooLong => write_parts(err, &[b"LineTooLong", b""]),
        RowFault::TooManyLines => write_parts(err, &[b"TooManyLines", b""]),
        RowFault::Memory => write_parts(err, &[b"Memory", b""]),
    }
}

fn write_line_number<E: Sink>(line: u64, err: &mut E) -> Result<(), Failed>
    ensures { WritesText (E.taken err.old) (E.taken err.new) (E.faults err.old) (E.faults err.new) (is_ok result)
        (flat_map (λ piece. piece) (codes " at line " ∷ decimal line ∷ codes "\n" ∷ [])) }
{
    let mut number = Buffer::new();
    let line = number.format(line).as_bytes();
    write_parts(err, &[b" at line ", line, b"\n"])
}

fn tell_row<E: Sink>(fault: &RowFault, leaf: &[u8], line: u64, err: &mut E) -> Result<(), Failed>
    ensures { WritesText (E.taken err.old) (E.taken err.new) (E.faults err.old) (E.faults err.new) (is_ok result) (row_line fault.now leaf.now line) }
{
    write_parts(err, &[b"row: "])?;
    write_row_fault(fault, leaf, err)?;
    write_line_number(line, err)
}

/// Writes the line of a tool's outcome, where the missing file or the leaf that it speaks of has this name.
pub fn tell<E: Sink>(tool: Tool, name: &[u8], outcome: &Outcome, err: &mut E) -> Result<(), Failed>
    ensures { WritesText (E.taken err.old) (E.taken err.new) (E.faults err.old) (E.faults err.new) (is_ok result) (line_of tool name.now outcome.now) }
{
    match outcome {
        Outcome::Done => write_all(err, b""),
        Outcome::Refused(refusal) => tell_refusal(*refusal, err),
        Outcome::Usage => tell_usage(tool, err),
        Outcome::Hazard { step, kind } => {
            tell_step(b"hazard: ", hazard_word(*kind).as_bytes(), *step, err)
        }
        Outcome::Undefined { step, kind } => {
            tell_step(b"undefined: ", undefined_word(*kind).as_bytes(), *step, err)
        }
        Outcome::BadRow { line, fault } => tell_row(fault, name, *line, err),
        Outcome::ReadFault => write_all(err, b"read fault\n"),
        Outcome::WriteFault => write_all(err, b"write fault\n"),
        Outcome::Missing => write_parts(err, &[b"missing: ", name, b"\n"]),
        Outcome::NoMemory => write_all(err, b"no memory\n"),
    }
}
