// What holds of the words of every program. Each function is a law, and does nothing.
ghost use Rattle.std.specs.Prelude.{◌≡◌, ◌≤◌, ℕ, List, length, Some, IsTrue};
ghost use Rattle.c99_tree.specs.Values.{Value, Shape, shape_of, words_of};
ghost use Rattle.c99_tree.specs.Evaluation.{Statics};
ghost use Rattle.c99_tree.specs.Typed.{IsStatics, IsValueOf};
ghost use Rattle.c99_tree.specs.WellFormed.{types_come_first};
ghost use Rattle.c99_tree.specs.declared.types.CDef.{CDef};
ghost use Rattle.c99_tree.specs.declared.types.CTy.{CTy};
ghost use Rattle.c99_tree.specs.declared.unit.Unit.{Unit as CUnit};
ghost use Rattle.c_exec.specs.Codes.{Op};
ghost use Rattle.c_exec.specs.Layout.{width_of};
ghost use Rattle.c_exec.specs.Needs.{need, wide};
ghost use Rattle.c_exec.specs.Machine.{statics_in, words_of_statics};

/// The words of statics that are as a program declares them give them back.
pub fn words_give_statics_back()
    ensures { (u : CUnit) (s : Statics) → IsTrue (types_come_first u) → IsStatics u s → statics_in u (words_of_statics s) ≡ s }
{}

/// A value of a type has as many words as the type's width.
pub fn values_have_their_widths()
    ensures { (ds : List CDef) (t : CTy) (s : Shape) (v : Value) → shape_of ds t ≡ Some s → IsValueOf ds t v → length (words_of v) ≡ width_of ds t }
{}

// A resolved expression has room for its value. The lemmas beside it say what each form puts on a pile.
fn values_fit()
    ensures { (a : Op) → wide a ≤ need a }
{}
