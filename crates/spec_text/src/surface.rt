// The surface syntax of a specification. Each `at` is the place of the node in the text: the offset of a list's `(`,
// or of an atom's first byte.

use sm_io::{Name, Seq};
use sqlite_items::{Boxed, Items};
use stream_types::{Dir, Op1, Op2, Scalar};

/// A specification: its version, 1 or 2, its name and its declarations in order.
#[derive(Drop)]
pub struct Surface {
    pub version: u32,
    pub name: Name,
    pub decls: Seq<Decl>,
}

/// A name and its place.
#[derive(Drop)]
pub struct NameAt {
    pub at: u64,
    pub name: Name,
}

/// A field of a struct, `(NAME TYPE)`.
#[derive(Drop)]
pub struct FieldForm {
    pub at: u64,
    pub name: NameAt,
    pub ty: TypeForm,
}

/// A type as it is written.
#[derive(Drop)]
pub enum TypeForm {
    /// A scalar's word.
    Scalar {
        at: u64,
        scalar: Scalar,
    },
    /// A struct's name.
    Named(NameAt),
    /// `(array TYPE N)`.
    Array {
        at: u64,
        elem: Boxed<TypeForm>,
        n: u32,
    },
}

/// A constant as it is written. A literal keeps its scalar and its word.
#[derive(Drop)]
pub enum ConstForm {
    Lit {
        at: u64,
        scalar: Scalar,
        word: u64,
    },
    /// `(array CONST+)`.
    Array {
        at: u64,
        items: Items<ConstForm>,
    },
    /// `(record NAME CONST+)`.
    Record {
        at: u64,
        name: NameAt,
        items: Items<ConstForm>,
    },
}

/// A declaration.
#[derive(Drop)]
pub enum Decl {
    /// `(struct NAME (NAME TYPE)+)`.
    Struct {
        at: u64,
        name: NameAt,
        fields: Seq<FieldForm>,
    },
    /// `(extern NAME TYPE)`.
    Extern {
        at: u64,
        name: NameAt,
        ty: TypeForm,
    },
    /// `(stream NAME TYPE (CONST+) EXPR)`: the initial values, and the expression of the later ones.
    Stream {
        at: u64,
        name: NameAt,
        ty: TypeForm,
        init: Seq<ConstForm>,
        expr: Expr,
    },
    /// `(def NAME TYPE EXPR)`.
    Def {
        at: u64,
        name: NameAt,
        ty: TypeForm,
        expr: Expr,
    },
    /// `(trigger NAME EXPR EXPR*)`: the guard and the arguments.
    Trigger {
        at: u64,
        name: NameAt,
        guard: Expr,
        args: Seq<Expr>,
    },
    /// `(observer NAME EXPR)`.
    Observer {
        at: u64,
        name: NameAt,
        expr: Expr,
    },
}

/// An expression. `true` and `false` are literals of Bool.
#[derive(Drop)]
pub enum Expr {
    /// `true`, `false`, or a number with its scalar as `18:Int32`.
    Lit {
        at: u64,
        scalar: Scalar,
        word: u64,
    },
    /// The name of an extern, a stream or a def.
    Name(NameAt),
    /// `(drop N NAME)`.
    Drop {
        at: u64,
        k: u32,
        name: NameAt,
    },
    /// `(not a)`, `(~ a)`.
    Un {
        at: u64,
        op: Op1,
        a: Boxed<Expr>,
    },
    /// `(+ a b)` and so on.
    Bin {
        at: u64,
        op: Op2,
        a: Boxed<Expr>,
        b: Boxed<Expr>,
    },
    /// `(<< a c)`, `(>> a c)`.
    Shift {
        at: u64,
        dir: Dir,
        a: Boxed<Expr>,
        count: Boxed<Expr>,
    },
    And {
        at: u64,
        a: Boxed<Expr>,
        b: Boxed<Expr>,
    },
    Or {
        at: u64,
        a: Boxed<Expr>,
        b: Boxed<Expr>,
    },
    Implies {
        at: u64,
        a: Boxed<Expr>,
        b: Boxed<Expr>,
    },
    /// `(if c a b)`.
    If {
        at: u64,
        c: Boxed<Expr>,
        a: Boxed<Expr>,
        b: Boxed<Expr>,
    },
    /// `(cast TYPE a)`.
    Cast {
        at: u64,
        to: TypeForm,
        a: Boxed<Expr>,
    },
    Abs {
        at: u64,
        a: Boxed<Expr>,
    },
    Sign {
        at: u64,
        a: Boxed<Expr>,
    },
    /// `(index a i)`.
    Index {
        at: u64,
        a: Boxed<Expr>,
        i: Boxed<Expr>,
    },
    /// `(field a NAME)`.
    Field {
        at: u64,
        a: Boxed<Expr>,
        member: NameAt,
    },
    /// `(array e+)`.
    Array {
        at: u64,
        items: Items<Expr>,
    },
    /// `(record NAME e+)`.
    Record {
        at: u64,
        name: NameAt,
        items: Items<Expr>,
    },
    Once {
        at: u64,
        p: Boxed<Expr>,
    },
    Historically {
        at: u64,
        p: Boxed<Expr>,
    },
    Yesterday {
        at: u64,
        p: Boxed<Expr>,
    },
    WeaklyYesterday {
        at: u64,
        p: Boxed<Expr>,
    },
    /// `(since p q)`.
    Since {
        at: u64,
        p: Boxed<Expr>,
        q: Boxed<Expr>,
    },
    /// `(once-in L U p)`.
    OnceIn {
        at: u64,
        low: u32,
        high: u32,
        p: Boxed<Expr>,
    },
    /// `(historically-in L U p)`.
    HistoricallyIn {
        at: u64,
        low: u32,
        high: u32,
        p: Boxed<Expr>,
    },
    /// `(since-in L U p q)`.
    SinceIn {
        at: u64,
        low: u32,
        high: u32,
        p: Boxed<Expr>,
        q: Boxed<Expr>,
    },
    /// `(clock P F)`.
    Clock {
        at: u64,
        period: u32,
        phase: u32,
    },
    /// `(majority e+)`.
    Majority {
        at: u64,
        items: Items<Expr>,
    },
    /// `(agreed e+)`.
    Agreed {
        at: u64,
        items: Items<Expr>,
    },
    /// `(window-max N e)`.
    WindowMax {
        at: u64,
        n: u32,
        e: Boxed<Expr>,
    },
    /// `(window-min N e)`.
    WindowMin {
        at: u64,
        n: u32,
        e: Boxed<Expr>,
    },
    /// `(window-sum N e)`.
    WindowSum {
        at: u64,
        n: u32,
        e: Boxed<Expr>,
    },
}
