// A whole surface.
ghost use Rattle.std.specs.Prelude.{is_ok};
ghost use Rattle.sm_io.specs.Written.{WritesText};
ghost use Rattle.spec_text.specs.Canonical.{canonical};
ghost use Rattle.sm_print.specs.Prints.{Prints};

use crate::declarations::decl_lines;
use crate::lists::{opened, spaced};
use sm_io::{Failed, Sink};
use sm_print::Printer;
use spec_text::Surface;
use spec_words::spec_word;

fn print_surface<K: Sink>(out: &mut Printer<'_, K>, s: &Surface)
    ensures { Prints K.taken K.faults out.old (canonical s.now) out.new }
{
    opened(out, spec_word(s.version));
    spaced(out, s.name.bytes());
    decl_lines(out, s.decls.as_slice());
    out.put(b")\n");
}

/// Writes the canonical text of a surface: `(spec NAME` in version 1 and `(spec2 NAME` in version 2, each declaration
/// on a line of its own behind two spaces, and `)` and a line feed. On `Ok` the sink took exactly this text, and on
/// `Failed` a prefix of it, and its count of faults rose.
pub fn write_text<K: Sink>(surface: &Surface, sink: &mut K) -> Result<(), Failed>
    ensures text { WritesText (K.taken sink.old) (K.taken sink.new) (K.faults sink.old) (K.faults sink.new) (is_ok result) (canonical surface.now) }
{
    let mut printer = Printer::new(sink);
    print_surface(&mut printer, surface);
    printer.outcome()
}
