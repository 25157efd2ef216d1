// The parts that show the arguments of a unit's handlers.
ghost use Rattle.std.specs.Prelude.{◌≡◌, ◌++◌, ◌∷◌, [], map, replicate, IfOk, OnOk, slice_get, unwrap_or};
ghost use Rattle.std.specs.List.{flat_map};
ghost use Rattle.c99_tree.specs.Words.{elem_type};
ghost use Rattle.c99_tree.specs.declared.types.CTy.{CTy};
ghost use Rattle.c99_tree.specs.declared.types.CProto.{CProto};
ghost use Rattle.stream_types.specs.declared.types.Field.{Field};
ghost use Rattle.extern_rows.specs.declared.event.Piece.TheVariants.{Gap, Open, Comma, Close};
ghost use Rattle.extern_rows.specs.ValueTexts.{comma_before, each_entry, parted, pieces_at, pieces_entry};
ghost use Rattle.c_runner.specs.Read.{read_entry, read_field, read_type, read_types};
ghost use Rattle.c_runner.specs.Lines as lines;

use crate::read::{array_place, entry_at, scalar_of, struct_place};
use c99_tree::{CDef, CProto, CTy, CVar, Unit, element_scalar};
use extern_rows::Piece;
use sm_io::{Name, Seq};
use std::alloc::{AllocError, Global};

fn push_piece(out: &mut Vec<Piece>, piece: Piece) -> Result<(), AllocError>
    ensures { OnOk result (out.new.items ≡ out.old.items ++ piece ∷ []) }
{
    out.push(piece)?;
    Ok(())
}

// Puts a comma before a part, but for the first.
fn push_comma(out: &mut Vec<Piece>, first: bool) -> Result<(), AllocError>
    ensures { OnOk result (out.new.items ≡ out.old.items ++ comma_before first) }
{
    if first {
        return Ok(());
    }
    push_piece(out, Piece::Comma)
}

// Adds the parts of one entry of a table; none where there is no such entry.
fn push_entry(table: &[Seq<Piece>], place: usize, out: &mut Vec<Piece>) -> Result<(), AllocError>
    ensures { OnOk result (out.new.items ≡ out.old.items ++ unwrap_or (slice_get table.now place) []) }
{
    for piece in entry_at(table, place) {
        push_piece(out, *piece)?;
    }
    Ok(())
}

// Adds the parts of a value of this type, given those of the definitions.
fn push_type(
    types: &[CDef],
    table: &[Seq<Piece>],
    ty: &CTy,
    out: &mut Vec<Piece>,
) -> Result<(), AllocError>
    ensures { OnOk result (out.new.items ≡ out.old.items ++ pieces_at table.now (read_type types.now ty.now)) }
{
    match ty {
        CTy::Scalar(scalar) => push_piece(out, Piece::Word(scalar_of(*scalar))),
        CTy::Struct(x) => push_entry(table, struct_place(types, x), out),
        CTy::Array(x, n) => push_entry(table, array_place(types, x, *n), out),
    }
}

// The same of an array's element, by its word.
fn push_element(
    types: &[CDef],
    table: &[Seq<Piece>],
    x: &Name,
    out: &mut Vec<Piece>,
) -> Result<(), AllocError>
    ensures { OnOk result (out.new.items ≡ out.old.items ++ pieces_at table.now (read_type types.now (elem_type x.now))) }
{
    match element_scalar(x) {
        Some(scalar) => push_piece(out, Piece::Word(scalar_of(scalar))),
        None => push_entry(table, struct_place(types, x), out),
    }
}

// The parts of a struct's members, in braces.
fn member_pieces(
    alloc: Global,
    types: &[CDef],
    table: &[Seq<Piece>],
    fields: &[CVar],
) -> Result<Seq<Piece>, AllocError>
    ensures { IfOk result (λ pieces. pieces
        ≡ Open 123 ∷ parted Comma (map (λ (f : Field). pieces_at table.now f.ty) (map (read_field types.now) fields.now)) ++ Close 125 ∷ []) }
{
    let mut out = Vec::new(alloc);
    push_piece(&mut out, Piece::Open(b'{'))?;
    for (number, field) in fields.iter().enumerate() {
        push_comma(&mut out, number == 0)?;
        push_type(types, table, &field.ty, &mut out)?;
    }
    push_piece(&mut out, Piece::Close(b'}'))?;
    Ok(Seq::of(out))
}

// The parts of so many elements, in square brackets.
fn element_pieces(
    alloc: Global,
    types: &[CDef],
    table: &[Seq<Piece>],
    elem: &Name,
    n: u32,
) -> Result<Seq<Piece>, AllocError>
    ensures { IfOk result (λ pieces. pieces
        ≡ Open 91 ∷ parted Comma (replicate n (pieces_at table.now (read_type types.now (elem_type elem.now)))) ++ Close 93 ∷ []) }
{
    let mut out = Vec::new(alloc);
    push_piece(&mut out, Piece::Open(b'['))?;
    for k in 0..n {
        push_comma(&mut out, k == 0)?;
        push_element(types, table, elem, &mut out)?;
    }
    push_piece(&mut out, Piece::Close(b']'))?;
    Ok(Seq::of(out))
}

// The parts of a definition, given those of the ones before it.
fn def_pieces(
    alloc: Global,
    types: &[CDef],
    table: &[Seq<Piece>],
    def: &CDef,
) -> Result<Seq<Piece>, AllocError>
    ensures { IfOk result (λ pieces. pieces ≡ pieces_entry table.now (read_entry types.now def.now)) }
{
    match def {
        CDef::Struct { name: _, fields } => member_pieces(alloc, types, table, fields.as_slice()),
        CDef::Array { elem, n } => element_pieces(alloc, types, table, elem, *n),
    }
}

// The parts of each definition, in order.
fn all_pieces(alloc: Global, types: &[CDef]) -> Result<Seq<Seq<Piece>>, AllocError>
    ensures { IfOk result (λ table. table ≡ each_entry pieces_entry [] (read_types types.now)) }
{
    let mut table = Seq::new(alloc);
    for def in types {
        let pieces = def_pieces(alloc, types, table.as_slice(), def)?;
        table.push(pieces)?;
    }
    Ok(table)
}

// The parts of some arguments, each behind a gap, given those of the definitions.
fn argument_pieces(
    alloc: Global,
    types: &[CDef],
    table: &[Seq<Piece>],
    params: &[CTy],
) -> Result<Seq<Piece>, AllocError>
    ensures { IfOk result (λ pieces. pieces ≡ flat_map (λ (x : CTy). Gap ∷ pieces_at table.now (read_type types.now x)) params.now) }
{
    let mut out = Vec::new(alloc);
    for ty in params {
        push_piece(&mut out, Piece::Gap)?;
        push_type(types, table, ty, &mut out)?;
    }
    Ok(Seq::of(out))
}

// The parts of each of some handlers' arguments, given those of the definitions.
fn handler_pieces(
    alloc: Global,
    types: &[CDef],
    table: &[Seq<Piece>],
    handlers: &[CProto],
) -> Result<Seq<Seq<Piece>>, AllocError>
    ensures { IfOk result (λ all. all ≡ map (λ (h : CProto). flat_map (λ (x : CTy). Gap ∷ pieces_at table.now (read_type types.now x)) h.params) handlers.now) }
{
    let mut all = Seq::new(alloc);
    for h in handlers {
        let pieces = argument_pieces(alloc, types, table, h.params.as_slice())?;
        all.push(pieces)?;
    }
    Ok(all)
}

/// The parts of each handler's arguments, by number.
pub(crate) fn shapes(alloc: Global, unit: &Unit) -> Result<Seq<Seq<Piece>>, AllocError>
    ensures { IfOk result (λ all. all ≡ lines.shapes_of unit.now) }
{
    let types = unit.types.as_slice();
    let handlers = unit.handlers.as_slice();
    let table = all_pieces(alloc, types)?;
    let entries = table.as_slice();
    handler_pieces(alloc, types, entries, handlers)
}
