// The forms without a buffer: votes.
ghost use Rattle.std.specs.Prelude.{◌≡◌};
ghost use Rattle.stream_types.specs.declared.scalar.Scalar.{Scalar};
ghost use Rattle.stream_core.specs.Term.{Terms, majority, agreed};
ghost use Rattle.stream_core.specs.Children.{term_list};
ghost use Rattle.stream_core.specs.Eval.{Moment, value};
ghost use Rattle.stream_core.specs.Lower.{majority_term, agreed_term};
ghost use Rattle.form_laws.specs.VoteTerms.{HaveVotes};

/// `majority`: its plain expression has its value, which is the first vote that more than half agree with, and the first
/// vote where there is none. Where votes have hazards, both have that of the first vote that has one.
pub fn majority_is_kept()
    ensures { (m : Moment) (s : Scalar) (es : Terms) → HaveVotes m s es → value m (majority_term s (term_list es)) ≡ value m (majority s es) }
{}

/// `agreed`: its plain expression has its value, which is whether more than half of the votes agree. Where votes have
/// hazards, both have that of the first vote that has one.
pub fn agreed_is_kept()
    ensures { (m : Moment) (s : Scalar) (es : Terms) → HaveVotes m s es → value m (agreed_term s (term_list es)) ≡ value m (agreed s es) }
{}
