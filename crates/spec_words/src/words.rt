// The words of versions, truth values, scalars, operators and forms.
ghost use Rattle.std.specs.Prelude.{◌≡◌, ◌==◌, ◌||◌, true, IfSome, bytes_eq};
ghost use Rattle.spec_words.specs.Words.{spec_word, version_of, truth_text, truth_of, scalar_word, scalar_of, decl_word, decl_head, const_word, const_head, op1_word, op2_word, dir_word, single_word, pair_word, bounded_word, vote_word, window_word, head_word, head_of, array_word};

use crate::head::{Bounded, ConstHead, DeclHead, Head, Pair, Single, Vote, Window};
use stream_types::{Dir, Op1, Op2, Scalar};

const SCALARS: [Scalar; 9] = [
    Scalar::Bool,
    Scalar::Int8,
    Scalar::Int16,
    Scalar::Int32,
    Scalar::Int64,
    Scalar::Word8,
    Scalar::Word16,
    Scalar::Word32,
    Scalar::Word64,
];

const DECL_HEADS: [DeclHead; 6] = [
    DeclHead::Struct,
    DeclHead::Extern,
    DeclHead::Stream,
    DeclHead::Def,
    DeclHead::Trigger,
    DeclHead::Observer,
];

const CONST_HEADS: [ConstHead; 2] = [ConstHead::Array, ConstHead::Record];

const HEADS: [Head; 44] = [
    Head::Drop,
    Head::Single(Single::Un(Op1::Not)),
    Head::Single(Single::Un(Op1::BitNot)),
    Head::Pair(Pair::Bin(Op2::Add)),
    Head::Pair(Pair::Bin(Op2::Sub)),
    Head::Pair(Pair::Bin(Op2::Mul)),
    Head::Pair(Pair::Bin(Op2::Quot)),
    Head::Pair(Pair::Bin(Op2::Rem)),
    Head::Pair(Pair::Bin(Op2::BitAnd)),
    Head::Pair(Pair::Bin(Op2::BitOr)),
    Head::Pair(Pair::Bin(Op2::BitXor)),
    Head::Pair(Pair::Shift(Dir::Left)),
    Head::Pair(Pair::Shift(Dir::Right)),
    Head::Pair(Pair::Bin(Op2::Eq)),
    Head::Pair(Pair::Bin(Op2::Ne)),
    Head::Pair(Pair::Bin(Op2::Lt)),
    Head::Pair(Pair::Bin(Op2::Le)),
    Head::Pair(Pair::Bin(Op2::Gt)),
    Head::Pair(Pair::Bin(Op2::Ge)),
    Head::Pair(Pair::And),
    Head::Pair(Pair::Or),
    Head::Pair(Pair::Implies),
    Head::If,
    Head::Cast,
    Head::Single(Single::Abs),
    Head::Single(Single::Sign),
    Head::Pair(Pair::Index),
    Head::Field,
    Head::Array,
    Head::Record,
    Head::Single(Single::Once),
    Head::Single(Single::Historically),
    Head::Single(Single::Yesterday),
    Head::Single(Single::WeaklyYesterday),
    Head::Pair(Pair::Since),
    Head::Bounded(Bounded::Once),
    Head::Bounded(Bounded::Historically),
    Head::SinceIn,
    Head::Clock,
    Head::Vote(Vote::Majority),
    Head::Vote(Vote::Agreed),
    Head::Window(Window::Max),
    Head::Window(Window::Min),
    Head::Window(Window::Sum),
];

/// The word that begins a text of a version.
pub fn spec_word(version: u32) -> &'static [u8]
    ensures { result.now ≡ spec_word version }
{
    if version == 1 { b"spec" } else { b"spec2" }
}

/// The version whose texts begin with a word.
pub fn version_of(bytes: &[u8]) -> Option<u32>
    ensures version { result ≡ version_of bytes.now }
    ensures known { IfSome result (λ v. (v == 1 || v == 2) ≡ true) }
{
    match bytes {
        b"spec" => Some(1),
        b"spec2" => Some(2),
        _ => None,
    }
}

/// The text of a truth value.
pub fn truth_text(word: u64) -> &'static [u8]
    ensures { result.now ≡ truth_text word }
{
    if word == 0 { b"false" } else { b"true" }
}

/// The word of the truth value that a text is.
pub fn truth_of(bytes: &[u8]) -> Option<u64>
    ensures { result ≡ truth_of bytes.now }
{
    match bytes {
        b"true" => Some(1),
        b"false" => Some(0),
        _ => None,
    }
}

/// The word of a scalar.
pub fn scalar_word(scalar: Scalar) -> &'static [u8]
    ensures { result.now ≡ scalar_word scalar }
{
    match scalar {
        Scalar::Bool => b"Bool",
        Scalar::Int8 => b"Int8",
        Scalar::Int16 => b"Int16",
        Scalar::Int32 => b"Int32",
        Scalar::Int64 => b"Int64",
        Scalar::Word8 => b"Word8",
        Scalar::Word16 => b"Word16",
        Scalar::Word32 => b"Word32",
        Scalar::Word64 => b"Word64",
    }
}

/// The scalar of a word.
#[tactic(auto, unfolding(crate::specs::Words::scalar_of))]
pub fn scalar_of(bytes: &[u8]) -> Option<Scalar>
    ensures { result ≡ scalar_of bytes.now }
{
    SCALARS
        .iter()
        .copied()
        .find(|scalar| scalar_word(*scalar) == bytes)
}

/// The word that begins a declaration.
pub fn decl_word(head: DeclHead) -> &'static [u8]
    ensures { result.now ≡ decl_word head }
{
    match head {
        DeclHead::Struct => b"struct",
        DeclHead::Extern => b"extern",
        DeclHead::Stream => b"stream",
        DeclHead::Def => b"def",
        DeclHead::Trigger => b"trigger",
        DeclHead::Observer => b"observer",
    }
}

/// The form of declaration that a word begins.
#[tactic(auto, unfolding(crate::specs::Words::decl_head))]
pub fn decl_head(bytes: &[u8]) -> Option<DeclHead>
    ensures { result ≡ decl_head bytes.now }
{
    DECL_HEADS
        .iter()
        .copied()
        .find(|head| decl_word(*head) == bytes)
}

/// The word that begins a constant.
pub fn const_word(head: ConstHead) -> &'static [u8]
    ensures { result.now ≡ const_word head }
{
    match head {
        ConstHead::Array => b"array",
        ConstHead::Record => b"record",
    }
}

/// The form of constant that a word begins.
#[tactic(auto, unfolding(crate::specs::Words::const_head))]
pub fn const_head(bytes: &[u8]) -> Option<ConstHead>
    ensures { result ≡ const_head bytes.now }
{
    CONST_HEADS
        .iter()
        .copied()
        .find(|head| const_word(*head) == bytes)
}

/// The word of an operator on one operand.
pub fn op1_word(op: Op1) -> &'static [u8]
    ensures { result.now ≡ op1_word op }
{
    match op {
        Op1::Not => b"not",
        Op1::BitNot => b"~",
    }
}

/// The word of an operator on two operands.
pub fn op2_word(op: Op2) -> &'static [u8]
    ensures { result.now ≡ op2_word op }
{
    match op {
        Op2::Add => b"+",
        Op2::Sub => b"-",
        Op2::Mul => b"*",
        Op2::Quot => b"quot",
        Op2::Rem => b"rem",
        Op2::BitAnd => b"&",
        Op2::BitOr => b"|",
        Op2::BitXor => b"^",
        Op2::Eq => b"==",
        Op2::Ne => b"/=",
        Op2::Lt => b"<",
        Op2::Le => b"<=",
        Op2::Gt => b">",
        Op2::Ge => b">=",
    }
}

/// The word of a shift.
pub fn dir_word(dir: Dir) -> &'static [u8]
    ensures { result.now ≡ dir_word dir }
{
    match dir {
        Dir::Left => b"<<",
        Dir::Right => b">>",
    }
}

/// The word of a form with one operand.
pub fn single_word(head: Single) -> &'static [u8]
    ensures { result.now ≡ single_word head }
{
    match head {
        Single::Un(op) => op1_word(op),
        Single::Abs => b"abs",
        Single::Sign => b"sign",
        Single::Once => b"once",
        Single::Historically => b"historically",
        Single::Yesterday => b"yesterday",
        Single::WeaklyYesterday => b"weakly-yesterday",
    }
}

/// The word of a form with two operands.
pub fn pair_word(head: Pair) -> &'static [u8]
    ensures { result.now ≡ pair_word head }
{
    match head {
        Pair::Bin(op) => op2_word(op),
        Pair::Shift(dir) => dir_word(dir),
        Pair::And => b"and",
        Pair::Or => b"or",
        Pair::Implies => b"implies",
        Pair::Index => b"index",
        Pair::Since => b"since",
    }
}

/// The word of a form with two bounds and one operand.
pub fn bounded_word(head: Bounded) -> &'static [u8]
    ensures { result.now ≡ bounded_word head }
{
    match head {
        Bounded::Once => b"once-in",
        Bounded::Historically => b"historically-in",
    }
}

/// The word of a form over 1 to 9 values.
pub fn vote_word(head: Vote) -> &'static [u8]
    ensures { result.now ≡ vote_word head }
{
    match head {
        Vote::Majority => b"majority",
        Vote::Agreed => b"agreed",
    }
}

/// The word of a form with the last samples.
pub fn window_word(head: Window) -> &'static [u8]
    ensures { result.now ≡ window_word head }
{
    match head {
        Window::Max => b"window-max",
        Window::Min => b"window-min",
        Window::Sum => b"window-sum",
    }
}

/// The word that begins an expression.
pub fn head_word(head: Head) -> &'static [u8]
    ensures { result.now ≡ head_word head }
{
    match head {
        Head::Drop => b"drop",
        Head::Single(head) => single_word(head),
        Head::Pair(head) => pair_word(head),
        Head::If => b"if",
        Head::Cast => b"cast",
        Head::Field => b"field",
        Head::Array => b"array",
        Head::Record => b"record",
        Head::Bounded(head) => bounded_word(head),
        Head::SinceIn => b"since-in",
        Head::Clock => b"clock",
        Head::Vote(head) => vote_word(head),
        Head::Window(head) => window_word(head),
    }
}

/// The form of expression that a word begins.
#[tactic(auto, unfolding(crate::specs::Words::head_of))]
pub fn head_of(bytes: &[u8]) -> Option<Head>
    ensures { result ≡ head_of bytes.now }
{
    HEADS.iter().copied().find(|head| head_word(*head) == bytes)
}

/// Whether a word begins the type of an array.
pub fn is_array_word(bytes: &[u8]) -> bool
    ensures { result ≡ bytes_eq bytes.now array_word }
{
    bytes == b"array".as_slice()
}
