// Expressions of one word.
ghost use Rattle.std.specs.Prelude.{◌≡◌, Some, codes};
ghost use Rattle.c99_read.specs.Front.{behind};
ghost use Rattle.sm_io.specs.Names.{IsNameBytes};
ghost use Rattle.c99_tree.specs.Tree.{tree, cell};
ghost use Rattle.c99_tree.specs.Spelling.{most};
ghost use Rattle.c99_read.specs.ExprAt as spec;
ghost use Rattle.c99_read.specs.Gives.{Gives};

use crate::fault::ReadFault;
use crate::front::{is_same, name_of, number_of, split_number, strip};
use crate::words::{is_ring_name, suffix_of};
use c99_tree::{CExpr, CLit};
use sm_io::is_name;
use std::alloc::Global;

// The largest literal of a suffix.
fn most_of(kind: CLit) -> u64
    ensures { result ≡ most kind }
{
    match kind {
        CLit::I => 0x7FFF_FFFF,
        CLit::U => 0xFFFF_FFFF,
        CLit::LL => 0x7FFF_FFFF_FFFF_FFFF,
        CLit::ULL => u64::MAX,
    }
}

// A literal.
#[tactic(auto, unfolding(crate::specs::ExprAt::literal_of), using(c99_tree::specs::TreeLaws::tree_laws))]
pub fn literal_of(word: &[u8]) -> Result<CExpr, ReadFault>
    ensures { Gives tree result (spec.literal_of word.now) }
{
    let (digits, tail) = split_number(word);
    let kind = suffix_of(tail)?;
    let n = number_of(most_of(kind), digits)?;
    Ok(CExpr::Lit(kind, n))
}

#[tactic(auto, using(c99_tree::specs::TreeLaws::tree_laws, crate::proofs::Bytes::name_bytes))]
fn copy_of(alloc: Global, name: &[u8]) -> Result<CExpr, ReadFault>
    ensures { Gives tree result (spec.copy_of name.now) }
{
    if !is_name(name) {
        return Err(ReadFault::NotRead);
    }
    Ok(CExpr::Copy(name_of(alloc, name)?))
}

#[tactic(auto, using(c99_tree::specs::TreeLaws::tree_laws, crate::proofs::Bytes::ring_name_bytes))]
fn head_of(alloc: Global, name: &[u8]) -> Result<CExpr, ReadFault>
    ensures { Gives tree result (spec.head_of name.now) }
{
    if !is_ring_name(name) {
        return Err(ReadFault::NotRead);
    }
    Ok(CExpr::Head(name_of(alloc, name)?))
}

fn other_named(alloc: Global, word: &[u8]) -> Result<CExpr, ReadFault>
    ensures { Gives tree result (spec.other_named (behind (codes "cp_c_") word.now) word.now) }
{
    match strip(b"cp_c_", word) {
        Some(name) => copy_of(alloc, name),
        None => {
            let name = crate::front::behind(b"cp_i_", word)?;
            head_of(alloc, name)
        }
    }
}

// A word that is an expression by itself, and no literal.
#[tactic(auto, unfolding(crate::specs::ExprAt::named_of), using(c99_tree::specs::TreeLaws::tree_laws))]
pub fn named_of(alloc: Global, word: &[u8]) -> Result<CExpr, ReadFault>
    ensures { Gives tree result (spec.named_of word.now) }
{
    if is_same(b"true", word) {
        return Ok(CExpr::True);
    }
    if is_same(b"false", word) {
        return Ok(CExpr::False);
    }
    other_named(alloc, word)
}

#[tactic(auto, using(c99_tree::specs::TreeLaws::tree_laws))]
pub fn cell_of(alloc: Global, name: &[u8]) -> Result<CExpr, ReadFault>
    requires { IsNameBytes name.now }
    ensures { Gives tree result (Some (cell name.now)) }
{
    Ok(CExpr::Cell(name_of(alloc, name)?))
}
