// Expressions and statements whose names, types and places are found.

use c99_tree::{CBin, CScalar, CUn};
use sqlite_items::Boxed;

/// An expression, as it puts words on a pile.
#[derive(Drop)]
pub(crate) enum Code {
    /// A word.
    Word(u64),
    /// Words of the statics: where they begin, and how many.
    Load(u32, u32),
    /// An element of a ring: where the first one begins, how many words each has, how many elements there are, and the
    /// type of the subscript.
    Element(u32, u32, u32, CScalar, Boxed<Code>),
    /// A unary operator, with its operand's type.
    Un(CUn, CScalar, Boxed<Code>),
    /// A binary operator, with its operands' types.
    Bin(CBin, CScalar, CScalar, Boxed<Code>, Boxed<Code>),
    Choose(Boxed<Code>, Boxed<Code>, Boxed<Code>),
    /// A conversion from a type to another. It counts nothing.
    Convert(CScalar, CScalar, Boxed<Code>),
    /// One operator, met before what follows.
    Met(Boxed<Code>),
    /// A member: where its words begin among those of the struct, and how many there are.
    Part(u32, u32, Boxed<Code>),
    /// An element of an array: how many words each has, how many elements there are, the array and the subscript.
    Pick(u32, u32, Boxed<Code>, Boxed<Code>),
    /// The one and then the other.
    Then(Boxed<Code>, Boxed<Code>),
    Nothing,
}

/// A statement.
#[derive(Drop)]
pub(crate) enum Line {
    /// So many words of the row, from this one on, become those of the statics at the same place.
    Copy(u32, u32),
    /// The handler's place, the guard and the arguments.
    Call(u32, Code, Code),
    /// Where the local's words begin, and its value.
    Next(u32, Code),
    /// A ring, as in `Element`, the subscript, and where the local's words begin.
    Store(u32, u32, u32, CScalar, Code, u32),
    /// Where the index stands, and its value.
    Move(u32, Code),
    /// Where the ring's words begin, how many there are, and where the local's words begin.
    Put(u32, u32, u32),
}
