// What is read of the row and the rings.
ghost use Rattle.std.specs.Prelude.{◌≡◌, ◌<◌, [], ◌∷◌, length};
ghost use Rattle.stream_types.specs.declared.scalar.Ty.{Ty};
ghost use Rattle.stream_types.specs.Types.{words};
ghost use Rattle.stream_core.specs.Eval.{entry_at, part_of};
ghost use Rattle.stream_core.specs.Signature.{signature_of};
ghost use Rattle.stream_core.specs.Term.{extern, trees};
ghost use Rattle.stream_core.specs.WellTyped.{HasType};
ghost use Rattle.ring_bank.specs.RingRows.{ring_at, row_at};
ghost use Rattle.stream_interp.specs.Reading.{IsEntryOf, IsLayout};
ghost use Rattle.stream_interp.specs.Seen.{IsSeen};

use crate::parts::run_of;
use crate::sight::Sight;
use ring_bank::Bank;

/// An extern's part of the row.
pub(crate) fn extern_part<'a>(sight: &Sight<'a>, x: u32, wide: usize) -> &'a [u64]
    requires seen { IsSeen sight.now.spec.now sight.now.rings.now sight.now.row.now }
    requires layout { IsLayout sight.now.spec.now sight.now.layout.now }
    requires typed { (t : Ty) × HasType (signature_of (trees sight.now.spec.now)) (extern x) t × (words sight.now.spec.now.types t ≡ wide) }
    ensures part { result.now ≡ part_of sight.now.spec.now.types sight.now.spec.now.externs sight.now.row.now x }
    ensures wide { length result.now ≡ wide }
{
    let first = sight.layout.firsts[x as usize];
    run_of(sight.row, first, wide)
}

// A row of a ring, word for word.
fn copy_row(rings: &Bank, ring: usize, k: usize, out: &mut [u64])
    requires ring { ring < length rings.now }
    requires row { k < length (ring_at rings.now ring) }
    requires wide { length (row_at (ring_at rings.now ring) k) ≡ length out.old }
    ensures { out.new ≡ row_at (ring_at rings.now ring) k }
{
    for i in 0..out.len() {
        out[i] = rings.read(ring, k, i);
    }
}

/// The value of a stream so many steps on, of a type of one word.
pub(crate) fn entry_word(sight: &Sight, stream: u32, k: u32) -> u64
    requires seen { IsSeen sight.now.spec.now sight.now.rings.now sight.now.row.now }
    requires typed { (t : Ty) × IsEntryOf sight.now.spec.now stream k t × (words sight.now.spec.now.types t ≡ 1) }
    ensures { entry_at sight.now.rings.now stream k ≡ result ∷ [] }
{
    sight.rings.read(stream as usize, k as usize, 0)
}

/// The value of a stream so many steps on.
pub(crate) fn copy_entry(sight: &Sight, stream: u32, k: u32, out: &mut [u64])
    requires seen { IsSeen sight.now.spec.now sight.now.rings.now sight.now.row.now }
    requires typed { (t : Ty) × IsEntryOf sight.now.spec.now stream k t × (words sight.now.spec.now.types t ≡ length out.old) }
    ensures { out.new ≡ entry_at sight.now.rings.now stream k }
{
    copy_row(sight.rings, stream as usize, k as usize, out);
}
