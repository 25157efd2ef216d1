// Scalars, types, operators and hazards.
ghost use Rattle.std.specs.Prelude.{◌≡◌};
ghost use Rattle.stream_types.specs.Scalars.{hazard_code};

/// A type whose values are one word: a truth value as 0 or 1, an unsigned number as itself, a signed
/// number modulo 2^64.
#[derive(Clone, Copy, Debug, PartialEq, Eq, Hash)]
pub enum Scalar {
    Bool,
    Int8,
    Int16,
    Int32,
    Int64,
    Word8,
    Word16,
    Word32,
    Word64,
}

/// A type: a scalar, or the place of an array or a struct in a type list.
#[derive(Clone, Copy, Debug, PartialEq, Eq, Hash)]
pub enum Ty {
    Scalar(Scalar),
    Array(u32),
    Struct(u32),
}

/// Why an operator has no answer.
#[derive(Clone, Copy, Debug, PartialEq, Eq, Hash)]
pub enum Hazard {
    /// A signed result is out of its type's range.
    Overflow = 1,
    /// The divisor is zero.
    ZeroDivisor = 2,
    /// The count is not from 0 to below the width, or the operand is negative.
    BadShift = 3,
    /// The index is not below the array's length.
    BadIndex = 4,
}

impl Hazard {
    /// Its number: 1 for Overflow, 2 for ZeroDivisor, 3 for BadShift, 4 for BadIndex.
    pub fn code(self) -> u8
        ensures { result ≡ hazard_code self }
    {
        self as u8
    }
}

/// An operator on one operand.
#[derive(Clone, Copy, Debug, PartialEq, Eq, Hash)]
pub enum Op1 {
    /// The other truth value.
    Not,
    /// The complement of the bits.
    BitNot,
}

/// An operator on two operands of one type.
#[derive(Clone, Copy, Debug, PartialEq, Eq, Hash)]
pub enum Op2 {
    Add,
    Sub,
    Mul,
    /// The quotient, towards zero.
    Quot,
    /// What the quotient leaves over, with the dividend's sign.
    Rem,
    BitAnd,
    BitOr,
    BitXor,
    Eq,
    Ne,
    Lt,
    Le,
    Gt,
    Ge,
}

/// The direction of a shift.
#[derive(Clone, Copy, Debug, PartialEq, Eq, Hash)]
pub enum Dir {
    Left,
    Right,
}
