// What each form of an expression weighs, by what its operands weigh.
ghost use Rattle.std.specs.Prelude.{◌≡◌, ◌+◌, ◌-◌, ◌*◌, ◌≤◌, if◌then◌else◌};
ghost use Rattle.stream_types.specs.Types.{signed};
ghost use Rattle.stream_core.specs.WellTyped.{IsGoodForm};
ghost use Rattle.stream_core.specs.Weights.{best_weight, buffers_weight, form_weight, heaviest_buffer, operands, since_weight, span_weight};

use crate::node::LibForm;
use stream_types::Scalar;

pub(crate) fn abs_weight(operand: u64) -> u64
    requires { operand ≤ 262145 }
    ensures { result ≡ 3 * operand + 5 }
{
    3 * operand + 5
}

pub(crate) fn sign_weight(s: Scalar, operand: u64) -> u64
    requires { operand ≤ 262145 }
    ensures { result ≡ (if signed s then 2 * operand + 9 else operand + 5) }
{
    match s {
        Scalar::Int8 | Scalar::Int16 | Scalar::Int32 | Scalar::Int64 => 2 * operand + 9,
        _ => operand + 5,
    }
}

// The vote of most, where `all` votes weigh so much together and the first one so much.
pub(crate) fn majority_weight(votes: u64, first: u64, all: u64) -> u64
    requires votes { votes ≤ 9 }
    requires first { first ≤ 262145 }
    requires all { all ≤ 262145 }
    ensures { result ≡ votes * (5 * votes + all + 2) + (votes + 1) * all + first }
{
    votes * (5 * votes + all + 2) + (votes + 1) * all + first
}

// Whether most votes agree.
pub(crate) fn agreed_weight(votes: u64, all: u64) -> u64
    requires some { 1 ≤ votes }
    requires few { votes ≤ 9 }
    requires all { all ≤ 262145 }
    ensures { result ≡ votes * (5 * votes + all + 1) + votes * all + (votes - 1) }
{
    votes * (5 * votes + all + 1) + votes * all + (votes - 1)
}

// The expression that stands for a form.
pub(crate) fn value_weight(form: LibForm, p: u64, q: u64) -> u64
    requires good { IsGoodForm form }
    requires p { p ≤ 262145 }
    requires q { q ≤ 262145 }
    ensures { result ≡ form_weight form (operands form p q) }
{
    match form {
        LibForm::Once | LibForm::Historically => p + 2,
        LibForm::Yesterday | LibForm::WeaklyYesterday => p + 4,
        LibForm::Since => p + 2 * q + 3,
        LibForm::OnceIn(low, high) | LibForm::HistoricallyIn(low, high) => {
            p + span_weight(u64::from(low), u64::from(high))
        }
        LibForm::SinceIn(low, high) => p + 2 * q + since_weight(u64::from(low), u64::from(high)),
        LibForm::Clock(_, _) => 3,
        LibForm::WindowMax(n, _) | LibForm::WindowMin(n, _) => best_weight(u64::from(n), p),
        LibForm::WindowSum(n, _) => p + 2 * (u64::from(n) - 1),
    }
}

// The expressions of a form's buffers, together.
pub(crate) fn buffers_weight(form: LibForm, p: u64, q: u64) -> u64
    requires p { p ≤ 262145 }
    requires q { q ≤ 262145 }
    ensures { result ≡ buffers_weight form (operands form p q) }
{
    match form {
        LibForm::Once | LibForm::Historically => p + 2,
        LibForm::Since => p + 2 * q + 3,
        LibForm::SinceIn(_, _) => p + q,
        LibForm::Clock(_, _) => 8,
        _ => p,
    }
}

// The heaviest of them.
pub(crate) fn heaviest_buffer(form: LibForm, p: u64, q: u64) -> u64
    requires p { p ≤ 262145 }
    requires q { q ≤ 262145 }
    ensures { result ≡ heaviest_buffer form (operands form p q) }
{
    match form {
        LibForm::SinceIn(_, _) => p.max(q),
        _ => buffers_weight(form, p, q),
    }
}

fn span_weight(low: u64, high: u64) -> u64
    requires order { low ≤ high }
    requires small { high ≤ 128 }
    ensures { result ≡ span_weight low high }
{
    if low == 0 {
        2 * high
    } else {
        2 * (high - low) + 4
    }
}

fn since_weight(low: u64, high: u64) -> u64
    requires order { low ≤ high }
    requires small { high ≤ 128 }
    ensures { result ≡ since_weight low high }
{
    if high == 0 {
        1
    } else if low == 0 {
        4 * high - 1
    } else {
        2 * (high - 1) + 2 * (high - low) + 7
    }
}

// The greatest or the least of `n` samples, of which the newest weighs `e`.
fn best_weight(n: u64, e: u64) -> u64
    requires n { n ≤ 12 }
    requires e { e ≤ 262145 }
    ensures { result ≡ best_weight n e }
{
    if n < 2 {
        return e;
    }
    let k = n - 2;
    e + (k + 1) * (e + 3) + k * (e + 4 * k + 4) + 1
}
