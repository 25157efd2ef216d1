// The places of expressions.
ghost use Rattle.std.specs.Prelude.{◌≡◌};
ghost use Rattle.spec_text.specs.Places.{place_of_expr};

use spec_text::Expr;

/// The place of an expression.
#[tactic(auto, using(spec_text::specs::FoldRows::expr_rows), unfolding(spec_text::specs::Form::form_of_expr))]
pub fn place(e: &Expr) -> u64
    ensures { result ≡ place_of_expr e.now }
{
    match e {
        Expr::Name(x) => x.at,
        Expr::Lit { at, .. }
        | Expr::Drop { at, .. }
        | Expr::Un { at, .. }
        | Expr::Bin { at, .. }
        | Expr::Shift { at, .. }
        | Expr::And { at, .. }
        | Expr::Or { at, .. }
        | Expr::Implies { at, .. }
        | Expr::If { at, .. }
        | Expr::Cast { at, .. }
        | Expr::Abs { at, .. }
        | Expr::Sign { at, .. }
        | Expr::Index { at, .. }
        | Expr::Field { at, .. }
        | Expr::Array { at, .. }
        | Expr::Record { at, .. }
        | Expr::Once { at, .. }
        | Expr::Historically { at, .. }
        | Expr::Yesterday { at, .. }
        | Expr::WeaklyYesterday { at, .. }
        | Expr::Since { at, .. }
        | Expr::OnceIn { at, .. }
        | Expr::HistoricallyIn { at, .. }
        | Expr::SinceIn { at, .. }
        | Expr::Clock { at, .. }
        | Expr::Majority { at, .. }
        | Expr::Agreed { at, .. }
        | Expr::WindowMax { at, .. }
        | Expr::WindowMin { at, .. }
        | Expr::WindowSum { at, .. } => *at,
    }
}
