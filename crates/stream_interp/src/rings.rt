// The rings of the streams: their first rows, and their next ones.
ghost use Rattle.std.specs.Prelude.{◌≡◌, length, All, IfOk};
ghost use Rattle.stream_types.specs.TypeList.{Stands};
ghost use Rattle.stream_core.specs.declared.spec.StreamItem.{StreamItem};
ghost use Rattle.stream_core.specs.Eval.{initial};
ghost use Rattle.stream_core.specs.Meaning.{closed_spec};
ghost use Rattle.stream_core.specs.Plain.{moved};
ghost use Rattle.stream_interp.specs.Buffers.{AreAsWide, AreShapes, first_words};
ghost use Rattle.stream_interp.specs.Roots.{streams_words, rows_in};
ghost use Rattle.stream_lib.specs.PlainSpecs.{IsSoundPlain};

use ring_bank::{Bank, Shape};
use std::alloc::{AllocError, Global};
use stream_core::Spec;

// A ring for each stream, of as many rows as the stream has initial values.
fn shapes(alloc: Global, spec: &Spec) -> Result<Vec<Shape>, AllocError>
    requires { IsSoundPlain spec.now }
    ensures { IfOk result (λ shapes. AreShapes spec.now.types spec.now.streams shapes.items) }
{
    let mut shapes = Vec::new(alloc);
    for stream in spec.streams() {
        let width = spec.types().words(stream.ty);
        let len = stream.init.as_slice().len() as u32 / width;
        shapes.push(Shape { len, width })?;
    }
    Ok(shapes)
}

// The initial values of all streams, one after another.
fn first_words(alloc: Global, spec: &Spec) -> Result<Vec<u64>, AllocError>
    ensures { IfOk result (λ words. words.items ≡ first_words spec.now.streams) }
{
    let mut words = Vec::new(alloc);
    for stream in spec.streams() {
        words.extend_from_slice(stream.init.as_slice())?;
    }
    Ok(words)
}

/// A ring for each stream, which holds its initial values.
pub(crate) fn first_rings(alloc: Global, spec: &Spec) -> Result<Bank, AllocError>
    requires { IsSoundPlain spec.now }
    ensures { IfOk result (λ rings. rings ≡ initial (closed_spec spec.now)) }
{
    let shapes = shapes(alloc, spec)?;
    let words = first_words(alloc, spec)?;
    Bank::new(alloc, &shapes, &words)
}

/// Each ring loses its oldest row, and gets the stream's next value.
pub(crate) fn push_rows(spec: &Spec, rings: &mut Bank, rows: &[u64])
    requires wide { AreAsWide spec.now.types spec.now.streams rings.old }
    requires stand { All (λ (x : StreamItem). Stands spec.now.types x.ty) spec.now.streams }
    requires rows { length rows.now ≡ streams_words spec.now.types spec.now.streams }
    ensures { rings.new ≡ moved rings.old (rows_in spec.now.types spec.now.streams rows.now) }
{
    let mut at = 0;
    for (i, stream) in spec.streams().iter().enumerate() {
        let width = spec.types().words(stream.ty) as usize;
        rings.push(i, &rows[at..at + width]);
        at += width;
    }
}
