// Literals and operators.
ghost use Rattle.std.specs.Prelude.{◌≡◌, true, IfOk};
ghost use Rattle.stream_types.specs.declared.scalar.Scalar.TheVariants as scalar;
ghost use Rattle.stream_types.specs.Numbers.{number_at};
ghost use Rattle.ring_codegen.specs.Translation.{arithmetic, binary, constant, literal, shift_sign, shifted, unary};

use crate::c_types::{c_scalar, wide};
use crate::forms::{bin, cast, un};
use c99_tree::{CBin, CExpr, CLit, CUn};
use std::alloc::{AllocError, Global};
use stream_types::{Dir, Op1, Op2, Scalar};

// The words of negative numbers begin here.
const NEGATIVE: u64 = 0x8000_0000_0000_0000;

// The signed number of a word: a negative one is -w - 1.
fn signed(alloc: Global, suffix: CLit, w: u64) -> Result<CExpr, AllocError>
    ensures { IfOk result (λ e. e ≡ constant suffix (number_at true w)) }
{
    if w < NEGATIVE {
        return Ok(CExpr::Lit(suffix, w));
    }
    let below = un(alloc, CUn::Neg, CExpr::Lit(suffix, !w))?;
    bin(alloc, CBin::Sub, below, CExpr::Lit(suffix, 1))
}

fn truth(w: u64) -> CExpr
    ensures { result ≡ literal scalar.Bool w }
{
    if w == 0 {
        return CExpr::False;
    }
    CExpr::True
}

/// The literal of a word.
pub(crate) fn literal(alloc: Global, t: Scalar, w: u64) -> Result<CExpr, AllocError>
    ensures { IfOk result (λ e. e ≡ literal t w) }
{
    match t {
        Scalar::Bool => Ok(truth(w)),
        Scalar::Int8 | Scalar::Int16 | Scalar::Int32 => signed(alloc, CLit::I, w),
        Scalar::Int64 => signed(alloc, CLit::LL, w),
        Scalar::Word8 | Scalar::Word16 | Scalar::Word32 => Ok(CExpr::Lit(CLit::U, w)),
        Scalar::Word64 => Ok(CExpr::Lit(CLit::ULL, w)),
    }
}

// `((ct)(((wt)A) + ((wt)B)))`
fn arithmetic(alloc: Global, op: CBin, t: Scalar, a: CExpr, b: CExpr) -> Result<CExpr, AllocError>
    ensures { IfOk result (λ e. e ≡ arithmetic op t a b) }
{
    let a = cast(alloc, wide(t), a)?;
    let b = cast(alloc, wide(t), b)?;
    let both = bin(alloc, op, a, b)?;
    cast(alloc, c_scalar(t), both)
}

pub(crate) fn binary(
    alloc: Global,
    op: Op2,
    t: Scalar,
    a: CExpr,
    b: CExpr,
) -> Result<CExpr, AllocError>
    ensures { IfOk result (λ e. e ≡ binary op t a b) }
{
    match op {
        Op2::Add => arithmetic(alloc, CBin::Add, t, a, b),
        Op2::Sub => arithmetic(alloc, CBin::Sub, t, a, b),
        Op2::Mul => arithmetic(alloc, CBin::Mul, t, a, b),
        Op2::Quot => arithmetic(alloc, CBin::Div, t, a, b),
        Op2::Rem => arithmetic(alloc, CBin::Rem, t, a, b),
        Op2::BitAnd => arithmetic(alloc, CBin::BitAnd, t, a, b),
        Op2::BitOr => arithmetic(alloc, CBin::BitOr, t, a, b),
        Op2::BitXor => arithmetic(alloc, CBin::BitXor, t, a, b),
        Op2::Eq => bin(alloc, CBin::Eq, a, b),
        Op2::Ne => bin(alloc, CBin::Ne, a, b),
        Op2::Lt => bin(alloc, CBin::Lt, a, b),
        Op2::Le => bin(alloc, CBin::Le, a, b),
        Op2::Gt => bin(alloc, CBin::Gt, a, b),
        Op2::Ge => bin(alloc, CBin::Ge, a, b),
    }
}

pub(crate) fn unary(alloc: Global, op: Op1, t: Scalar, a: CExpr) -> Result<CExpr, AllocError>
    ensures { IfOk result (λ e. e ≡ unary op t a) }
{
    match op {
        Op1::Not => un(alloc, CUn::Not, a),
        Op1::BitNot => {
            let a = cast(alloc, wide(t), a)?;
            let turned = un(alloc, CUn::BitNot, a)?;
            cast(alloc, c_scalar(t), turned)
        }
    }
}

fn shift_sign(d: Dir) -> CBin
    ensures { result ≡ shift_sign d }
{
    match d {
        Dir::Left => CBin::Shl,
        Dir::Right => CBin::Shr,
    }
}

pub(crate) fn shifted(
    alloc: Global,
    d: Dir,
    t: Scalar,
    a: CExpr,
    n: CExpr,
) -> Result<CExpr, AllocError>
    ensures { IfOk result (λ e. e ≡ shifted d t a n) }
{
    let a = cast(alloc, wide(t), a)?;
    let moved = bin(alloc, shift_sign(d), a, n)?;
    cast(alloc, c_scalar(t), moved)
}
