// A program: its header, its statics and its step.

use crate::expr::CExpr;
use crate::types::{CDef, CProto, CTy, CVar};
use sm_io::{Name, Seq};

/// A buffer `cp_b_r` of the last `len` values of one type.
#[derive(Debug, Drop)]
pub struct CRing {
    pub name: Name,
    pub ty: CTy,
    /// The number of values.
    pub len: u32,
    /// Whether it is an array with an index `cp_i_r`. A ring without an index is one value.
    pub indexed: bool,
    /// The words of the first values, one for each scalar, in order of values, members and elements. The word of a
    /// bool is 0 or 1, of an unsigned number itself, of a signed number that number modulo 2^64.
    pub init: Seq<u64>,
}

/// A statement of `step`.
#[derive(Drop)]
pub enum CStmt {
    /// `cp_c_x = x;`
    Copy {
        name: Name,
    },
    /// `if (E) { h(E, E); }`
    Call {
        handler: Name,
        guard: CExpr,
        args: Seq<CExpr>,
    },
    /// `T cp_n_r = E;`
    Next {
        ring: Name,
        value: CExpr,
    },
    /// `cp_b_r[E] = cp_n_r;`
    Store {
        ring: Name,
        at: CExpr,
    },
    /// `cp_i_r = E;`
    Move {
        ring: Name,
        value: CExpr,
    },
    /// `cp_b_r = cp_n_r;`
    Put {
        ring: Name,
    },
}

/// A program of two files, NAME.h and NAME.c.
#[derive(Drop)]
pub struct Unit {
    pub name: Name,
    /// The types that the header defines, in its order.
    pub types: Seq<CDef>,
    /// `cp_storage`: the bytes of the objects that the source defines, without padding.
    pub storage: u32,
    /// `cp_need`: the most operators that one call of `step` can meet.
    pub need: u32,
    pub externs: Seq<CVar>,
    pub handlers: Seq<CProto>,
    pub rings: Seq<CRing>,
    /// The statements of `step`, in order.
    pub step: Seq<CStmt>,
}
