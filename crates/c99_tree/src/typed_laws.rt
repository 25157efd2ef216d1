// Evaluation respects types. Each function is a law, and does nothing.
ghost use Rattle.std.specs.Prelude.{◌≡◌, ℕ, List, ◌++◌, Some, IfOk, IsTrue};
ghost use Rattle.c99_tree.specs.Tree.{Expr, Stmt};
ghost use Rattle.c99_tree.specs.Values.{Value, Shape, shape_of, filled, words_of};
ghost use Rattle.c99_tree.specs.Evaluation.{Statics};
ghost use Rattle.c99_tree.specs.Step.{step};
ghost use Rattle.c99_tree.specs.Run.{first_statics, run_to};
ghost use Rattle.c99_tree.specs.WellFormed.{lengths_are_in_range, IsWellFormed};
ghost use Rattle.c99_tree.specs.Typed.{IsValueOf, IsStatics, IsTyped, GivesValueOf, IsEntry, IsStepOf, IsRunOf, AreRows};
ghost use Rattle.c99_tree.specs.LookUps.{AllFind, StandsBehind, FindsAfter};
ghost use Rattle.c99_tree.specs.declared.types.CDef.{CDef};
ghost use Rattle.c99_tree.specs.declared.types.CTy.{CTy};
ghost use Rattle.c99_tree.specs.declared.unit.Unit.{Unit as CUnit};

/// Where an expression has a type and its literals are in range, its value is one of that type: a number of a scalar type
/// and in its range, and else one value for each member or element, in order. The statics are as the unit declares them,
/// and the lengths of its rings are in range.
pub fn value_has_its_type()
    ensures { (u : CUnit) (s : Statics) (e : Expr) (t : CTy) → IsTrue (lengths_are_in_range u) → IsStatics u s → IsTyped u e t → GivesValueOf u s e t }
{}

/// The statics before the first call of `step` are as a well formed unit declares them.
pub fn first_statics_have_their_types()
    ensures { (u : CUnit) → IsWellFormed u → IsStatics u (first_statics u) }
{}

/// A call of `step` of a well formed unit, on statics that are as it declares them and a row of its externs, leaves
/// statics that are so again, and calls its handlers with one value for each parameter, of the parameter's type.
pub fn step_respects_types()
    ensures { (u : CUnit) (s : Statics) (row : List ℕ) → IsEntry u s row → IfOk (step u s row).value (IsStepOf u) }
{}

/// So does a run over rows of its externs, at every step.
pub fn run_respects_types()
    ensures { (u : CUnit) (rows : List (List ℕ)) (n : ℕ) → IsWellFormed u → AreRows u rows n → IfOk (run_to u rows n) (IsRunOf u) }
{}

/// In a well formed unit each expression finds what it looks up, and its operands are what it asks for: a number where a
/// number is read, also to be converted, an array where an element is picked, and a type for each value of a list. So none
/// of the values that the definition of evaluation names for a failed look-up is ever reached.
pub fn expressions_find_what_they_name()
    ensures { (u : CUnit) (s : Statics) → IsWellFormed u → IsStatics u s → AllFind u s }
{}

/// Each statement of `step` finds what it looks up, where the statements before it have been carried out: the extern and
/// its copy, the handler with as many parameters as there are arguments, the ring, and the local that its Next computed,
/// a value of the ring's type. The statics are then as the unit declares them.
pub fn statements_find_what_they_name()
    ensures { (u : CUnit) (s : Statics) (row : List ℕ) (before : List Stmt) (st : Stmt) → IsEntry u s row → StandsBehind u before st → FindsAfter u s row before st }
{}

/// The value that words give, by the shape of a type, is one of that type.
pub fn words_give_values_of_their_type()
    ensures { (ds : List CDef) (t : CTy) (s : Shape) (ws rest : List ℕ) (v : Value) → shape_of ds t ≡ Some s → filled s ws ≡ Some (v, rest)
        → IsValueOf ds t v }
{}

/// The words of a value of a type give it back, and leave what stands behind them. So the words of a call tell its
/// arguments.
pub fn words_give_value_back()
    ensures { (ds : List CDef) (t : CTy) (s : Shape) (v : Value) (rest : List ℕ) → shape_of ds t ≡ Some s → IsValueOf ds t v
        → filled s (words_of v ++ rest) ≡ Some (v, rest) }
{}

/// The words that give a value are its words, and then those that are left.
pub fn words_read_are_those_of_value()
    ensures { (s : Shape) (ws rest : List ℕ) (v : Value) → filled s ws ≡ Some (v, rest) → ws ≡ words_of v ++ rest }
{}
