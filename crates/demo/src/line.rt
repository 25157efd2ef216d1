// The line of a demonstration.
ghost use Rattle.std.specs.Prelude.{◌≡◌, is_ok};
ghost use Rattle.sm_io.specs.Written.{WritesText};
ghost use Rattle.demo.specs.Figures.{demo_line};

use crate::run::Figures;
use itoa::Buffer;
use sm_io::{Failed, Sink, write_parts};

/// Writes the line of a demonstration of so many streams and steps:
/// `demo: K streams, T steps, E events, storage B, need N`. On `Failed` a prefix of it was taken.
pub fn write_figures<K: Sink>(
    streams: u32,
    steps: u32,
    figures: &Figures,
    out: &mut K,
) -> Result<(), Failed>
    ensures { WritesText (K.taken out.old) (K.taken out.new) (K.faults out.old) (K.faults out.new) (is_ok result) (demo_line streams steps figures.now) }
{
    let mut k = Buffer::new();
    let mut t = Buffer::new();
    let mut e = Buffer::new();
    let mut b = Buffer::new();
    let mut n = Buffer::new();
    write_parts(
        out,
        &[
            b"demo: ",
            k.format(streams).as_bytes(),
            b" streams, ",
            t.format(steps).as_bytes(),
            b" steps, ",
            e.format(figures.events).as_bytes(),
            b" events, storage ",
            b.format(figures.storage).as_bytes(),
            b", need ",
            n.format(figures.need).as_bytes(),
            b"\n",
        ],
    )
}
