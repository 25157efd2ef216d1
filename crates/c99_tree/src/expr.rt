// Expressions.

use crate::types::CScalar;
use sm_io::Name;
use sqlite_items::{Boxed, Items};

/// The suffix of an integer literal: none, `U`, `LL` or `ULL`.
#[derive(Clone, Copy, Debug, PartialEq, Eq)]
pub enum CLit {
    I,
    U,
    LL,
    ULL,
}

/// A unary operator: `!`, `~` or `-`.
#[derive(Clone, Copy, Debug, PartialEq, Eq)]
pub enum CUn {
    Not,
    BitNot,
    Neg,
}

/// A binary operator: `+ - * / % & | ^ << >> == != < <= > >= && ||`.
#[derive(Clone, Copy, Debug, PartialEq, Eq)]
pub enum CBin {
    Add,
    Sub,
    Mul,
    Div,
    Rem,
    BitAnd,
    BitOr,
    BitXor,
    Shl,
    Shr,
    Eq,
    Ne,
    Lt,
    Le,
    Gt,
    Ge,
    And,
    Or,
}

/// An expression.
#[derive(Drop)]
pub enum CExpr {
    /// An integer literal with its suffix.
    Lit(CLit, u64),
    True,
    False,
    /// `cp_c_x`, the copy of the extern `x`.
    Copy(Name),
    /// `cp_i_r`, the index of the ring `r`.
    Head(Name),
    /// `cp_b_r`, the one value of a ring without an index.
    Cell(Name),
    /// `cp_b_r[E]`, an element of a ring with an index.
    RingAt(Name, Boxed<CExpr>),
    Un(CUn, Boxed<CExpr>),
    Bin(CBin, Boxed<CExpr>, Boxed<CExpr>),
    /// `(C ? A : B)`.
    Cond(Boxed<CExpr>, Boxed<CExpr>, Boxed<CExpr>),
    Cast(CScalar, Boxed<CExpr>),
    /// `(E.f)`.
    Field(Boxed<CExpr>, Name),
    /// `cp_ix_E_n(A, I)`, an element of an array.
    Pick(Name, u32, Boxed<CExpr>, Boxed<CExpr>),
    /// `((struct cp_arr_E_n){ { E, E } })`.
    Arr(Name, u32, Items<CExpr>),
    /// `((struct S){ E, E })`.
    Rec(Name, Items<CExpr>),
}
