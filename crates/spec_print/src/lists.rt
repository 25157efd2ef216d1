// The parts of a list as they are written.
ghost use Rattle.std.specs.Prelude.{◌++◌, codes, decimal};
ghost use Rattle.sm_print.specs.Prints.{Prints};

use sm_io::Sink;
use sm_print::Printer;

// A bracket, and the first word behind it.
pub fn opened<K: Sink>(out: &mut Printer<'_, K>, head: &[u8])
    ensures { Prints K.taken K.faults out.old (codes "(" ++ head.now) out.new }
{
    out.put(b"(");
    out.put(head);
}

// A further word.
pub fn spaced<K: Sink>(out: &mut Printer<'_, K>, word: &[u8])
    ensures { Prints K.taken K.faults out.old (codes " " ++ word.now) out.new }
{
    out.put(b" ");
    out.put(word);
}

pub fn spaced_number<K: Sink>(out: &mut Printer<'_, K>, n: u32)
    ensures { Prints K.taken K.faults out.old (codes " " ++ decimal n) out.new }
{
    out.put(b" ");
    out.number(u64::from(n));
}
