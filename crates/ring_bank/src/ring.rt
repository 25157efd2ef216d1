//! Where a ring lies in the block, and which of its rows is the oldest.
ghost use Rattle.std.specs.Prelude.{◌≡◌, ◌<◌, ◌≤◌, IfOk};
ghost use Rattle.ring_bank.specs.RingRows.{words_of};
ghost use Rattle.ring_bank.specs.Layout.{rings_from, LiesBetween, row_start, turned};

use crate::shape::Shape;
use std::alloc::{AllocError, Global};

/// A ring's place in the block.
#[derive(Drop)]
pub(crate) struct Ring {
    /// The index of its first word.
    pub(crate) base: usize,
    /// The number of its rows.
    pub(crate) len: usize,
    /// The number of words of each row.
    pub(crate) width: usize,
    /// The slot, among the `len` of the ring, of its oldest row.
    pub(crate) oldest: usize,
}

/// Rings of these shapes, one behind the other, with the oldest row in front.
pub(crate) fn lay_out(alloc: Global, shapes: &[Shape]) -> Result<Vec<Ring>, AllocError>
    requires { words_of shapes.now ≤ 262144 }
    ensures { IfOk result (λ rings. rings.items ≡ rings_from 0 shapes.now) }
{
    let mut rings = Vec::with_capacity(alloc, shapes.len())?;
    let mut base = 0;
    for shape in shapes {
        let len = shape.len as usize;
        let width = shape.width as usize;
        rings.push(Ring {
            base,
            len,
            width,
            oldest: 0,
        })?;
        base += len * width;
    }
    Ok(rings)
}

impl Ring {
    /// The index of the first word of row `k`, counted from the oldest. Behind the ring's last slot comes its first.
    pub(crate) fn row(&self, k: usize) -> usize
        requires placed { LiesBetween 0 self.now 262144 }
        requires row { k < self.now.len }
        ensures { result ≡ row_start self.now k }
    {
        self.base + (self.oldest + k) % self.len * self.width
    }

    /// The row behind the oldest is the oldest from now on.
    pub(crate) fn turn(&mut self)
        requires { LiesBetween 0 self.old 262144 }
        ensures { self.new ≡ turned self.old }
    {
        self.oldest = (self.oldest + 1) % self.len;
    }
}
