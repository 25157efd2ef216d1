//! Where the memory of a block comes from, and where it goes back to.
ghost use Rattle.std.specs.Prelude.{◌≡◌, ℕ, ◌≤◌, [], length, IfOk};
ghost use denote.RawPtr.{Ptr};
ghost use Rattle.ring_bank.specs.Ownership.{deed_owned};

use crate::words::Words;
use std::alloc::{AllocError, Allocator};
use std::marker::{Model, PhantomData};
use std::mem::{align_of, size_of};

/// The right to give the block of `len` words at `at` back to `alloc`. It takes no space.
pub(crate) struct Deed<A: Allocator> {
    mark: PhantomData<*const A>,
    ghost at: { Ptr },
    ghost len: { ℕ },
    ghost alloc: { A },
}

impl<A: Allocator> Model for Deed<A> {
    ghost also_owns = { λ d. deed_owned (A.dealloc_token d.alloc) d.at d.len };
}

/// A block of `len` words from an allocator, with nothing written yet.
pub(crate) fn allocate<A: Allocator>(alloc: &A, len: usize) -> Result<(Words, Deed<A>), AllocError>
    requires { len ≤ 262144 }
    ensures { IfOk result (λ r. (r.0.words ≡ []) × (r.0.room ≡ len) × (r.1.at ≡ r.0.at) × (r.1.len ≡ len) × (r.1.alloc ≡ alloc.now)) }
{
    match alloc.allocate(len * size_of::<u64>(), align_of::<u64>()) {
        Ok(block) => {
            let words = Words {
                at: block as *mut u64,
            };
            Ok((words, Deed { mark: PhantomData }))
        }
        Err(refused) => Err(refused),
    }
}

/// The block goes back to the allocator that it came from.
pub(crate) fn deallocate<A: Allocator>(alloc: &A, words: Words, len: usize, deed: Deed<A>)
    requires full { (length words.words ≡ len) × (words.room ≡ len) }
    requires own { (deed.at ≡ words.at) × (deed.len ≡ len) × (deed.alloc ≡ alloc.now) }
{
    let Words { at } = words;
    let Deed { mark: _ } = deed;
    unsafe {
        alloc.deallocate(at as *mut u8, len * size_of::<u64>(), align_of::<u64>());
    }
}
