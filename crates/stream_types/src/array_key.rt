// What tells one array type of a list from another.
use crate::scalar::Ty;

/// The element and the length of an array type.
#[derive(Clone, Copy, Debug, PartialEq, Eq, Hash)]
pub(crate) struct ArrayKey {
    pub(crate) elem: Ty,
    pub(crate) n: u32,
}
