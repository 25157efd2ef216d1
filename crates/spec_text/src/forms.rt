// Expressions from their parts.
ghost use Rattle.std.specs.Prelude.{◌≡◌, ◌&&◌, map};
ghost use Rattle.spec_text.specs.Form.{form_of_expr, with_one, with_two, with_three, headed, number, forms};
ghost use Rattle.spec_text.specs.KeepsTable.{keeps_expr, between, kept_from};
ghost use Rattle.spec_words.specs.Words.{single_word, pair_word, bounded_word, vote_word, window_word};

use crate::surface::Expr;
use spec_words::{Bounded, Pair, Single, Vote, Window};
use sqlite_items::{Boxed, Items};

/// The form with one operand.
#[tactic(auto, using(crate::specs::FoldRows::expr_rows), unfolding(crate::specs::Form::form_of_expr, crate::specs::KeepsTable::keeps_expr))]
pub fn single(at: u64, head: Single, a: Boxed<Expr>) -> Expr
    ensures form { form_of_expr result ≡ with_one at (single_word head) (form_of_expr a) }
    ensures kept { keeps_expr result ≡ keeps_expr a }
{
    match head {
        Single::Un(op) => Expr::Un { at, op, a },
        Single::Abs => Expr::Abs { at, a },
        Single::Sign => Expr::Sign { at, a },
        Single::Once => Expr::Once { at, p: a },
        Single::Historically => Expr::Historically { at, p: a },
        Single::Yesterday => Expr::Yesterday { at, p: a },
        Single::WeaklyYesterday => Expr::WeaklyYesterday { at, p: a },
    }
}

/// The form with two operands.
#[tactic(auto, using(crate::specs::FoldRows::expr_rows), unfolding(crate::specs::Form::form_of_expr, crate::specs::KeepsTable::keeps_expr))]
pub fn pair(at: u64, head: Pair, a: Boxed<Expr>, b: Boxed<Expr>) -> Expr
    ensures form { form_of_expr result ≡ with_two at (pair_word head) (form_of_expr a) (form_of_expr b) }
    ensures kept { keeps_expr result ≡ (keeps_expr a && keeps_expr b) }
{
    match head {
        Pair::Bin(op) => Expr::Bin { at, op, a, b },
        Pair::Shift(dir) => Expr::Shift {
            at,
            dir,
            a,
            count: b,
        },
        Pair::And => Expr::And { at, a, b },
        Pair::Or => Expr::Or { at, a, b },
        Pair::Implies => Expr::Implies { at, a, b },
        Pair::Index => Expr::Index { at, a, i: b },
        Pair::Since => Expr::Since { at, p: a, q: b },
    }
}

/// The form with two bounds and one operand.
#[tactic(auto, using(crate::specs::FoldRows::expr_rows), unfolding(crate::specs::Form::form_of_expr, crate::specs::KeepsTable::keeps_expr))]
pub fn bounded(at: u64, head: Bounded, low: u32, high: u32, p: Boxed<Expr>) -> Expr
    ensures form { form_of_expr result ≡ with_three at (bounded_word head) (number low) (number high) (form_of_expr p) }
    ensures kept { keeps_expr result ≡ (between low 128 high && keeps_expr p) }
{
    match head {
        Bounded::Once => Expr::OnceIn { at, low, high, p },
        Bounded::Historically => Expr::HistoricallyIn { at, low, high, p },
    }
}

/// The form over some values.
#[tactic(auto, using(crate::specs::FoldRows::expr_rows), unfolding(crate::specs::Form::form_of_expr, crate::specs::KeepsTable::keeps_expr))]
pub fn vote(at: u64, head: Vote, items: Items<Expr>) -> Expr
    ensures form { form_of_expr result ≡ headed (Some at) (vote_word head) (forms (map form_of_expr items)) }
    ensures kept { keeps_expr result ≡ kept_from 1 9 (map keeps_expr items) }
{
    match head {
        Vote::Majority => Expr::Majority { at, items },
        Vote::Agreed => Expr::Agreed { at, items },
    }
}

/// The form over the last samples.
#[tactic(auto, using(crate::specs::FoldRows::expr_rows), unfolding(crate::specs::Form::form_of_expr, crate::specs::KeepsTable::keeps_expr))]
pub fn window(at: u64, head: Window, n: u32, e: Boxed<Expr>) -> Expr
    ensures form { form_of_expr result ≡ with_two at (window_word head) (number n) (form_of_expr e) }
    ensures kept { keeps_expr result ≡ (between 1 12 n && keeps_expr e) }
{
    match head {
        Window::Max => Expr::WindowMax { at, n, e },
        Window::Min => Expr::WindowMin { at, n, e },
        Window::Sum => Expr::WindowSum { at, n, e },
    }
}
