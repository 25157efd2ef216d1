// The nodes of expressions.
use sm_io::Seq;
use std::marker::Model;
use stream_types::{Dir, Op1, Op2, Scalar, Ty};

/// The number of a node, from 0, among those of its specification.
#[derive(Clone, Copy, Debug, PartialEq, Eq, Hash)]
pub struct NodeId(pub usize);

impl Model for NodeId {
    ghost use Rattle.std.specs.Prelude.{ℕ};

    ghost Value = { ℕ };

    ghost view = { λ i. i.0 };

    ghost inverse = { λ n. record { 0 = n } };
}

/// A typed expression: its operands are nodes with smaller numbers.
///
/// Numbers of externs, streams, defs and library forms count from 0 among their kind. The scalar of `Un`, `Bin`, `Abs`,
/// `Sign`, `Majority` and `Agreed` is that of the operands. The type of `Index` is the array's, that of `Field` the
/// struct's, and those of `Array` and `Record` are the value's own.
#[derive(Drop, PartialEq, Eq, Hash)]
pub enum Node {
    Lit(Scalar, u64),
    Extern(u32),
    Stream(u32),
    Def(u32),
    Drop {
        stream: u32,
        k: u32,
    },
    Un(Op1, Scalar, NodeId),
    Bin(Op2, Scalar, NodeId, NodeId),
    Shift {
        dir: Dir,
        ty: Scalar,
        a: NodeId,
        cty: Scalar,
        count: NodeId,
    },
    Cast {
        from: Scalar,
        to: Scalar,
        a: NodeId,
    },
    And(NodeId, NodeId),
    Or(NodeId, NodeId),
    Implies(NodeId, NodeId),
    If(NodeId, NodeId, NodeId),
    Index(Ty, NodeId, NodeId),
    Field {
        of: Ty,
        member: u32,
        a: NodeId,
    },
    Array(Ty, Seq<NodeId>),
    Record(Ty, Seq<NodeId>),
    Abs(Scalar, NodeId),
    Sign(Scalar, NodeId),
    Majority(Scalar, Seq<NodeId>),
    Agreed(Scalar, Seq<NodeId>),
    Lib(u32),
}

/// A form of the library, with its bounds: the nearest and the farthest step of the bounded forms, the period and the
/// phase of a clock, the width of a window and the scalar of its samples.
#[derive(Clone, Copy, Debug, PartialEq, Eq, Hash)]
pub enum LibForm {
    Once,
    Historically,
    Yesterday,
    WeaklyYesterday,
    Since,
    OnceIn(u32, u32),
    HistoricallyIn(u32, u32),
    SinceIn(u32, u32),
    Clock(u32, u32),
    WindowMax(u32, Scalar),
    WindowMin(u32, Scalar),
    WindowSum(u32, Scalar),
}
