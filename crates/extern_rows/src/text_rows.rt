// The rows of whole texts.
ghost use Rattle.std.specs.Prelude.{◌≡◌};
ghost use Rattle.extern_rows.specs.TextRows.{RowsOfLines, RowsAreWords, RowsBehind, RowsGrow, FaultsShow};
ghost use Rattle.extern_rows.specs.LeafFaults.{fault_leaf, leaf_name, FaultsHaveLeaves};

use crate::fault::RowFault;
use crate::header::Leaf;

fn fault_leaf(fault: &RowFault) -> Option<u32>
    ensures { result ≡ fault_leaf fault.now }
{
    match fault {
        RowFault::NoColumn(leaf) | RowFault::TwoColumns(leaf) | RowFault::BadField(leaf) => {
            Some(*leaf)
        }
        _ => None,
    }
}

/// The name of the leaf that a fault speaks of, or nothing where it speaks of none.
pub fn leaf_name<'a>(leaves: &'a [Leaf], fault: &RowFault) -> &'a [u8]
    ensures { result.now ≡ leaf_name leaves.now fault.now }
{
    let Some(number) = fault_leaf(fault) else {
        return &[];
    };
    match leaves.get(number as usize) {
        Some(leaf) => leaf.name.bytes(),
        None => &[],
    }
}

/// A text's header is its first line that isn't blank, and its rows are those of the later ones, up to the first fault.
/// Each row is words of the leaves' scalars, and a fault speaks of one of the leaves or of none. The rows of whole lines
/// stand before those of what comes behind. The rows and the fault of a text that hasn't ended stay, whatever comes
/// behind it, and a fault shows at its offset and not before.
pub fn rows_stand_in_texts()
    ensures lines { RowsOfLines }
    ensures words { RowsAreWords }
    ensures behind { RowsBehind }
    ensures grow { RowsGrow }
    ensures offset { FaultsShow }
    ensures leaf { FaultsHaveLeaves }
{}
