// The parts of an event that show a value, from its type.
ghost use Rattle.std.specs.Prelude.{◌≡◌, ◌++◌, ◌∷◌, [], OnOk, slice_get};
ghost use Rattle.stream_types.specs.Types.{leaves};
ghost use Rattle.stream_types.specs.TypeList.{IsArrayEntry, IsStructEntry, Stands};
ghost use Rattle.extern_rows.specs.ValueTexts.{pieces_of, piece_scalars, comma_before, EventsShowValues, ValuesByType, PairsAreWritten, LogIsWritten};

use crate::event::Piece;
use std::alloc::AllocError;
use stream_types::{Ty, TypeEntry, Types};

fn push_piece(out: &mut Vec<Piece>, piece: Piece) -> Result<(), AllocError>
    ensures { OnOk result (out.new.items ≡ out.old.items ++ piece ∷ []) }
{
    out.push(piece)?;
    Ok(())
}

// Puts a comma before a part, but for the first.
fn push_comma(out: &mut Vec<Piece>, first: bool) -> Result<(), AllocError>
    ensures { OnOk result (out.new.items ≡ out.old.items ++ comma_before first) }
{
    if first {
        return Ok(());
    }
    push_piece(out, Piece::Comma)
}

// Adds the parts of a value of this type.
#[cycle(pieces)]
fn push_value(types: &Types, ty: Ty, out: &mut Vec<Piece>) -> Result<(), AllocError>
    requires { Stands types.now ty }
    ensures { OnOk result (out.new.items ≡ out.old.items ++ pieces_of types.now ty) }
{
    match ty {
        Ty::Scalar(scalar) => push_piece(out, Piece::Word(scalar)),
        Ty::Array(place) => push_elements(types, place, out),
        Ty::Struct(place) => push_members(types, place, out),
    }
}

// Adds the parts of an array type's value.
#[cycle(pieces)]
fn push_elements(types: &Types, place: u32, out: &mut Vec<Piece>) -> Result<(), AllocError>
    requires { IsArrayEntry (slice_get types.now place) }
    ensures { OnOk result (out.new.items ≡ out.old.items ++ pieces_of types.now (Ty.Array place)) }
{
    let TypeEntry::Array { elem, n } = types.entry(place) else {
        return Ok(());
    };
    push_piece(out, Piece::Open(b'['))?;
    for k in 0..*n {
        push_comma(out, k == 0)?;
        push_value(types, *elem, out)?;
    }
    push_piece(out, Piece::Close(b']'))
}

// Adds the parts of a struct type's value.
#[cycle(pieces)]
fn push_members(types: &Types, place: u32, out: &mut Vec<Piece>) -> Result<(), AllocError>
    requires { IsStructEntry (slice_get types.now place) }
    ensures { OnOk result (out.new.items ≡ out.old.items ++ pieces_of types.now (Ty.Struct place)) }
{
    let TypeEntry::Struct { fields, .. } = types.entry(place) else {
        return Ok(());
    };
    push_piece(out, Piece::Open(b'{'))?;
    for (number, field) in fields.as_slice().iter().enumerate() {
        push_comma(out, number == 0)?;
        push_value(types, field.ty, out)?;
    }
    push_piece(out, Piece::Close(b'}'))
}

/// Adds the parts that show a value of this type behind those of `out`: a word for each of its leaves, in order, the
/// elements of an array in square brackets and the members of a struct in braces, with commas between them. After a
/// refusal `out` may hold some of them more.
pub fn push_pieces(types: &Types, ty: Ty, out: &mut Vec<Piece>) -> Result<(), AllocError>
    requires { Stands types.now ty }
    ensures pieces { OnOk result (out.new.items ≡ out.old.items ++ pieces_of types.now ty) }
    ensures scalars { piece_scalars (pieces_of types.now ty) ≡ leaves types.now ty }
{
    push_value(types, ty, out)
}

/// The words of values fit the parts of their types, and an event's line shows them as their types have it: an array's
/// elements in square brackets, a struct's members in braces.
pub fn events_show_values()
    ensures events { EventsShowValues }
    ensures values { ValuesByType }
    ensures pairs { PairsAreWritten }
    ensures log { LogIsWritten }
{}
