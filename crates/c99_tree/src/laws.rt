// What holds of the meaning of every program. Each function is a law, and does nothing.
ghost use Rattle.std.specs.Prelude.{◌≡◌, ℕ, ◌+◌, ◌≤◌, List, take, Ok};
ghost use Rattle.c99_tree.specs.Evaluation.{Statics};
ghost use Rattle.c99_tree.specs.Step.{step};
ghost use Rattle.c99_tree.specs.Run.{Ran, run, run_to, row_at, with_step, GoesOn};
ghost use Rattle.c99_tree.specs.Weight.{unit_weight_of};
ghost use Rattle.c99_tree.specs.declared.unit.Unit.{Unit as CUnit};

/// A call of `step` meets at most as many operators as the unit weighs, also where it stops at something undefined.
pub fn count_is_within_weight()
    ensures { (u : CUnit) (s : Statics) (row : List ℕ) → (step u s row).count ≤ unit_weight_of u }
{}

/// A run over n rows is a front of the run over one row more. This is a law of how `run_to` goes over the rows, and holds
/// of any step.
pub fn run_goes_on()
    ensures { (u : CUnit) (rows : List (List ℕ)) (n : ℕ) → GoesOn n (run u rows n) (run u rows (n + 1)) }
{}

/// The step of a run reads nothing but the statics that the steps before have left and its own row. This is `run_to` at
/// one row more, and holds of any step.
pub fn step_reads_statics_and_row()
    ensures { (u : CUnit) (rows : List (List ℕ)) (n : ℕ) (ran : Ran) → run_to u rows n ≡ Ok ran →
        run_to u rows (n + 1) ≡ with_step n ran.called (step u ran.statics (row_at rows n)).value }
{}

/// A run over the first n of some rows reads nothing but these n. This is a law of how `run_to` goes over the rows, and
/// holds of any step.
pub fn run_reads_first_rows()
    ensures { (u : CUnit) (rows others : List (List ℕ)) (n : ℕ) → take n rows ≡ take n others → run u rows n ≡ run u others n }
{}
