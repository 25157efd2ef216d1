// What the steps of a session rest on. Each function is a law, and does nothing.
ghost use Rattle.std.specs.Prelude.{◌≡◌, ◌+◌, ◌<◌, ℕ, Bool, List, length, take};
ghost use Rattle.c99_tree.specs.declared.unit.Unit.{Unit as CUnit};
ghost use Rattle.row_sessions.specs.Session.{machine_sessions};
ghost use Rattle.c_runner.specs.Executed.{executed, last_step, step_lines, unit_columns};

/// What a program's step writes depends on the rows up to its own alone.
pub fn steps_follow_their_rows()
    ensures { (u : CUnit) (h : List (List ℕ)) (n : ℕ) → n < length h → last_step u (take (n + 1) h) ≡ step_lines u h n }
{}

/// A session is that of a machine which is stepped over one row after another.
pub fn sessions_step_over_rows_so_far()
    ensures { (u : CUnit) (text : List ℕ) (ended : Bool) → machine_sessions (last_step u) (unit_columns u) text ended ≡ executed u text ended }
{}
