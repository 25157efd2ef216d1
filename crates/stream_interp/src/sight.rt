// What an evaluation reads.

use crate::layout::Layout;
use ring_bank::Bank;
use stream_core::Spec;

/// A specification at a step: rings that hold each stream's values from now on, and the row of the externs' words.
#[derive(Drop)]
pub(crate) struct Sight<'a> {
    pub(crate) spec: &'a Spec,
    pub(crate) layout: &'a Layout,
    pub(crate) rings: &'a Bank,
    pub(crate) row: &'a [u64],
}
