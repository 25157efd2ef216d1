// The forms without a buffer: sizes and signs of numbers.
ghost use Rattle.std.specs.Prelude.{◌≡◌, IsTrue};
ghost use Rattle.stream_types.specs.declared.scalar.Scalar.{Scalar};
ghost use Rattle.stream_types.specs.Scalars.{is_integer};
ghost use Rattle.stream_core.specs.Term.{Term, abs, sign};
ghost use Rattle.stream_core.specs.Eval.{Moment, value};
ghost use Rattle.stream_core.specs.Lower.{abs_term, sign_term};
ghost use Rattle.form_laws.specs.ScalarTerms.{HasWord};

/// `abs e`: its plain expression has its value, the overflow at the least number and the hazards of `e` included.
pub fn abs_is_kept()
    ensures { (m : Moment) (s : Scalar) (e : Term) → IsTrue (is_integer s) → HasWord m s e → value m (abs_term s e) ≡ value m (abs s e) }
{}

/// `sign e`: its plain expression has its value, the hazards of `e` included.
pub fn sign_is_kept()
    ensures { (m : Moment) (s : Scalar) (e : Term) → IsTrue (is_integer s) → HasWord m s e → value m (sign_term s e) ≡ value m (sign s e) }
{}
