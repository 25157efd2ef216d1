// The words that begin the forms, grouped by what stands behind them.

use stream_types::{Dir, Op1, Op2};

/// A declaration's form.
#[derive(Clone, Copy)]
pub enum DeclHead {
    Struct,
    Extern,
    Stream,
    Def,
    Trigger,
    Observer,
}

/// A constant's form.
#[derive(Clone, Copy)]
pub enum ConstHead {
    Array,
    Record,
}

/// A form with one operand.
#[derive(Clone, Copy)]
pub enum Single {
    Un(Op1),
    Abs,
    Sign,
    Once,
    Historically,
    Yesterday,
    WeaklyYesterday,
}

/// A form with two operands.
#[derive(Clone, Copy)]
pub enum Pair {
    Bin(Op2),
    Shift(Dir),
    And,
    Or,
    Implies,
    Index,
    Since,
}

/// A form with two bounds and one operand.
#[derive(Clone, Copy)]
pub enum Bounded {
    Once,
    Historically,
}

/// A form over 1 to 9 values.
#[derive(Clone, Copy)]
pub enum Vote {
    Majority,
    Agreed,
}

/// A form over the last samples.
#[derive(Clone, Copy)]
pub enum Window {
    Max,
    Min,
    Sum,
}

/// An expression's form.
#[derive(Clone, Copy)]
pub enum Head {
    Drop,
    Single(Single),
    Pair(Pair),
    If,
    Cast,
    Field,
    Array,
    Record,
    Bounded(Bounded),
    SinceIn,
    Clock,
    Vote(Vote),
    Window(Window),
}
