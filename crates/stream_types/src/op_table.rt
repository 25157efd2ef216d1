// The tables of the scalars to which the operators apply.
ghost use Rattle.std.specs.Prelude.{◌≡◌, true};
ghost use Rattle.std.specs.List.{list_any};
ghost use Rattle.stream_types.specs.Scalars.{op1_fits, op2_fits, shift_fits, cast_fits, is_bool, is_integer};
ghost use Rattle.stream_types.specs.declared.scalar.Scalar.{Scalar};

use crate::scalar::{Op1, Op2, Scalar};

/// The scalars to which an operator applies.
#[derive(Clone, Copy, Debug)]
pub struct OpTable<const N: usize> {
    pub tys: [Scalar; N],
}

impl<const N: usize> OpTable<N> {
    /// Whether the scalar stands in the table.
    pub fn has(&self, ty: Scalar) -> bool
        ensures { result ≡ list_any (λ x. ⟦<Scalar as PartialEq>⟧.eq x ty) self.now.tys }
    {
        self.tys.contains(&ty)
    }
}

/// For `not`.
pub const BOOL: OpTable<1> = OpTable {
    tys: [Scalar::Bool],
};

/// For `+ - * quot rem`, for the bits, for `< <= > >=`, for shifts and their counts, and for what a cast
/// makes.
pub const INTEGERS: OpTable<8> = OpTable {
    tys: [
        Scalar::Int8,
        Scalar::Int16,
        Scalar::Int32,
        Scalar::Int64,
        Scalar::Word8,
        Scalar::Word16,
        Scalar::Word32,
        Scalar::Word64,
    ],
};

/// For `==` and `/=`, and for what is cast.
pub const SCALARS: OpTable<9> = OpTable {
    tys: [
        Scalar::Bool,
        Scalar::Int8,
        Scalar::Int16,
        Scalar::Int32,
        Scalar::Int64,
        Scalar::Word8,
        Scalar::Word16,
        Scalar::Word32,
        Scalar::Word64,
    ],
};

/// Whether an operator on one operand applies to a scalar.
pub fn op1_applies(op: Op1, ty: Scalar) -> bool
    ensures { result ≡ op1_fits op ty }
{
    match op {
        Op1::Not => BOOL.has(ty),
        Op1::BitNot => INTEGERS.has(ty),
    }
}

/// Whether an operator on two operands applies to a scalar.
pub fn op2_applies(op: Op2, ty: Scalar) -> bool
    ensures { result ≡ op2_fits op ty }
{
    match op {
        Op2::Add | Op2::Sub | Op2::Mul | Op2::Quot | Op2::Rem => INTEGERS.has(ty),
        Op2::BitAnd | Op2::BitOr | Op2::BitXor => INTEGERS.has(ty),
        Op2::Eq | Op2::Ne => SCALARS.has(ty),
        Op2::Lt | Op2::Le | Op2::Gt | Op2::Ge => INTEGERS.has(ty),
    }
}

/// Whether a scalar can be shifted by a count of a type.
pub fn shift_applies(ty: Scalar, count: Scalar) -> bool
    ensures { result ≡ shift_fits ty count }
{
    INTEGERS.has(ty) && INTEGERS.has(count)
}

/// Whether a scalar can be cast to another.
pub fn cast_applies(from: Scalar, to: Scalar) -> bool
    ensures { result ≡ cast_fits from to }
{
    SCALARS.has(from) && INTEGERS.has(to)
}

/// Which scalars stand in the tables: `BOOL` holds the truth values alone, `INTEGERS` the eight integer scalars, and
/// `SCALARS` all nine.
pub fn tables_hold_their_scalars()
    ensures bool { (s : Scalar) → list_any (λ x. ⟦<Scalar as PartialEq>⟧.eq x s) BOOL.tys ≡ is_bool s }
    ensures integers { (s : Scalar) → list_any (λ x. ⟦<Scalar as PartialEq>⟧.eq x s) INTEGERS.tys ≡ is_integer s }
    ensures scalars { (s : Scalar) → list_any (λ x. ⟦<Scalar as PartialEq>⟧.eq x s) SCALARS.tys ≡ true }
{}
