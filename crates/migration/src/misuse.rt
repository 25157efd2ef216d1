// The first ring of one value with an index that is used otherwise than of old.
ghost use Rattle.std.specs.Prelude.{◌≡◌, ◌≤◌, length};
ghost use Rattle.migration.specs.Migration as spec;

use crate::uses::{all_use_as_of_old, is_old};
use c99_tree::{CRing, Unit};

fn is_misused(unit: &Unit, r: &CRing) -> bool
    ensures { result ≡ spec.is_misused unit.now r.now }
{
    is_old(r) && !all_use_as_of_old(&r.name, unit.step.as_slice())
}

/// The number, from 1, of the first ring of one value with an index that is used otherwise than of old.
pub(crate) fn misused(unit: &Unit) -> Option<u32>
    requires { length unit.now.rings ≤ 2147483647 }
    ensures { result ≡ spec.misused unit.now }
{
    let mut number = 0;
    for r in unit.rings.as_slice() {
        number += 1;
        if is_misused(unit, r) {
            return Some(number);
        }
    }
    None
}
