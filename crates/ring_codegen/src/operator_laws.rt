// The translation of each operator does what the operator means. Each function is a law, and does nothing.
ghost use Rattle.std.specs.Prelude.{◌≡◌, ℕ, IsTrue, Ok};
ghost use Rattle.stream_types.specs.declared.scalar.Scalar.{Scalar};
ghost use Rattle.stream_types.specs.declared.scalar.Scalar.TheVariants as scalar;
ghost use Rattle.stream_types.specs.declared.scalar.Op1.{Op1};
ghost use Rattle.stream_types.specs.declared.scalar.Op2.{Op2};
ghost use Rattle.stream_types.specs.declared.scalar.Dir.{Dir};
ghost use Rattle.stream_types.specs.Scalars.{op1_fits, op2_fits, op2_gives, shift_fits, cast_fits};
ghost use Rattle.stream_types.specs.Numbers.{is_word, op1_word, op2_word, shift_word, cast_word};
ghost use Rattle.c99_tree.specs.declared.expr.CExpr.{CExpr};
ghost use Rattle.c99_tree.specs.declared.expr.CExpr.TheVariants as e;
ghost use Rattle.c99_tree.specs.declared.expr.CUn.TheVariants as u;
ghost use Rattle.c99_tree.specs.declared.expr.CBin.TheVariants as o;
ghost use Rattle.c99_tree.specs.declared.unit.Unit.{Unit as CUnit};
ghost use Rattle.c99_tree.specs.Evaluation.{Statics};
ghost use Rattle.ring_codegen.specs.CTypes.{c_scalar};
ghost use Rattle.ring_codegen.specs.Translation.{literal, unary, binary, shifted};
ghost use Rattle.ring_codegen.specs.Carried.{HasCarrier, GivesWord};

/// A literal gives its word, and an operator over operands that give their words gives the word that it answers. What has
/// no hazard in the specification is defined in C. An operand that isn't evaluated only has a type.
pub fn operators_give_their_words()
    ensures literal { (unit : CUnit) (s : Statics) (t : Scalar) (w : ℕ) → IsTrue (is_word t w) → GivesWord unit s (literal t w) t w }
    ensures unary { (unit : CUnit) (s : Statics) (op : Op1) (t : Scalar) (a : CExpr) (x : ℕ) → IsTrue (op1_fits op t) → IsTrue (is_word t x)
        → GivesWord unit s a t x → GivesWord unit s (unary op t a) t (op1_word op t x) }
    ensures binary { (unit : CUnit) (s : Statics) (op : Op2) (t : Scalar) (a b : CExpr) (x y w : ℕ) → IsTrue (op2_fits op t)
        → IsTrue (is_word t x) → IsTrue (is_word t y) → GivesWord unit s a t x → GivesWord unit s b t y
        → op2_word op t x y ≡ Ok w → GivesWord unit s (binary op t a b) (op2_gives op t) w }
    ensures shift { (unit : CUnit) (s : Statics) (d : Dir) (t count : Scalar) (a n : CExpr) (x y w : ℕ) → IsTrue (shift_fits t count)
        → IsTrue (is_word t x) → IsTrue (is_word count y) → GivesWord unit s a t x → GivesWord unit s n count y
        → shift_word d t x count y ≡ Ok w → GivesWord unit s (shifted d t a n) t w }
    ensures cast { (unit : CUnit) (s : Statics) (from t : Scalar) (a : CExpr) (x w : ℕ) → IsTrue (cast_fits from t)
        → IsTrue (is_word from x) → GivesWord unit s a from x → cast_word from t x ≡ Ok w → GivesWord unit s (e.Cast (c_scalar t) a) t w }
    ensures and_false { (unit : CUnit) (s : Statics) (a b : CExpr) → GivesWord unit s a scalar.Bool 0 → HasCarrier unit b scalar.Bool
        → GivesWord unit s (e.Bin o.And a b) scalar.Bool 0 }
    ensures and_true { (unit : CUnit) (s : Statics) (a b : CExpr) (y : ℕ) → IsTrue (is_word scalar.Bool y)
        → GivesWord unit s a scalar.Bool 1 → GivesWord unit s b scalar.Bool y → GivesWord unit s (e.Bin o.And a b) scalar.Bool y }
    ensures or_true { (unit : CUnit) (s : Statics) (a b : CExpr) → GivesWord unit s a scalar.Bool 1 → HasCarrier unit b scalar.Bool
        → GivesWord unit s (e.Bin o.Or a b) scalar.Bool 1 }
    ensures or_false { (unit : CUnit) (s : Statics) (a b : CExpr) (y : ℕ) → IsTrue (is_word scalar.Bool y)
        → GivesWord unit s a scalar.Bool 0 → GivesWord unit s b scalar.Bool y → GivesWord unit s (e.Bin o.Or a b) scalar.Bool y }
    ensures implies_false { (unit : CUnit) (s : Statics) (a b : CExpr) → GivesWord unit s a scalar.Bool 0 → HasCarrier unit b scalar.Bool
        → GivesWord unit s (e.Bin o.Or (e.Un u.Not a) b) scalar.Bool 1 }
    ensures implies_true { (unit : CUnit) (s : Statics) (a b : CExpr) (y : ℕ) → IsTrue (is_word scalar.Bool y)
        → GivesWord unit s a scalar.Bool 1 → GivesWord unit s b scalar.Bool y
        → GivesWord unit s (e.Bin o.Or (e.Un u.Not a) b) scalar.Bool y }
    ensures choice_true { (unit : CUnit) (s : Statics) (t : Scalar) (p a b : CExpr) (x : ℕ) → IsTrue (is_word t x)
        → GivesWord unit s p scalar.Bool 1 → GivesWord unit s a t x → HasCarrier unit b t → GivesWord unit s (e.Cond p a b) t x }
    ensures choice_false { (unit : CUnit) (s : Statics) (t : Scalar) (p a b : CExpr) (y : ℕ) → IsTrue (is_word t y)
        → GivesWord unit s p scalar.Bool 0 → HasCarrier unit a t → GivesWord unit s b t y → GivesWord unit s (e.Cond p a b) t y }
{}

/// A literal has a type that carries its scalar, and an operator over operands whose types carry theirs has one that carries
/// its answer's.
pub fn operators_have_their_types()
    ensures literal { (unit : CUnit) (t : Scalar) (w : ℕ) → HasCarrier unit (literal t w) t }
    ensures unary { (unit : CUnit) (op : Op1) (t : Scalar) (a : CExpr) → IsTrue (op1_fits op t) → HasCarrier unit a t
        → HasCarrier unit (unary op t a) t }
    ensures binary { (unit : CUnit) (op : Op2) (t : Scalar) (a b : CExpr) → HasCarrier unit a t → HasCarrier unit b t
        → HasCarrier unit (binary op t a b) (op2_gives op t) }
    ensures shift { (unit : CUnit) (d : Dir) (t count : Scalar) (a n : CExpr) → HasCarrier unit a t → HasCarrier unit n count
        → HasCarrier unit (shifted d t a n) t }
    ensures cast { (unit : CUnit) (from t : Scalar) (a : CExpr) → HasCarrier unit a from → HasCarrier unit (e.Cast (c_scalar t) a) t }
    ensures both { (unit : CUnit) (a b : CExpr) → HasCarrier unit a scalar.Bool → HasCarrier unit b scalar.Bool
        → HasCarrier unit (e.Bin o.And a b) scalar.Bool }
    ensures either { (unit : CUnit) (a b : CExpr) → HasCarrier unit a scalar.Bool → HasCarrier unit b scalar.Bool
        → HasCarrier unit (e.Bin o.Or a b) scalar.Bool }
    ensures implied { (unit : CUnit) (a b : CExpr) → HasCarrier unit a scalar.Bool → HasCarrier unit b scalar.Bool
        → HasCarrier unit (e.Bin o.Or (e.Un u.Not a) b) scalar.Bool }
    ensures choice { (unit : CUnit) (t : Scalar) (p a b : CExpr) → HasCarrier unit p scalar.Bool → HasCarrier unit a t → HasCarrier unit b t
        → HasCarrier unit (e.Cond p a b) t }
{}
