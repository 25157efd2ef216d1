// Types and what is declared with them.

use sm_io::{Name, Seq};

/// A scalar type: `bool`, or a signed (I) or unsigned (U) integer of a width in bits.
#[derive(Clone, Copy, Debug, PartialEq, Eq)]
pub enum CScalar {
    Bool,
    I8,
    I16,
    I32,
    I64,
    U8,
    U16,
    U32,
    U64,
}

/// A type of the subset.
#[derive(Debug, Drop)]
pub enum CTy {
    Scalar(CScalar),
    /// `struct S`, by its name.
    Struct(Name),
    /// `struct cp_arr_E_n`: the word of its elements' type, and how many there are.
    Array(Name, u32),
}

/// A name with its type: a member of a struct, or an extern.
#[derive(Debug, Drop)]
pub struct CVar {
    pub name: Name,
    pub ty: CTy,
}

/// A type that the header defines.
#[derive(Debug, Drop)]
pub enum CDef {
    Struct { name: Name, fields: Seq<CVar> },
    /// A struct around an array of `n` elements. The word is a scalar's word, as `Int8`, or a struct's name.
    Array { elem: Name, n: u32 },
}

/// The prototype of a handler, which answers nothing.
#[derive(Debug, Drop)]
pub struct CProto {
    pub name: Name,
    pub params: Seq<CTy>,
}
