// What the steps of a session rest on. Each function is a law, and does nothing.
ghost use Rattle.std.specs.Prelude.{◌≡◌, ◌+◌, ◌<◌, ℕ, Bool, List, length, take};
ghost use Rattle.stream_core.specs.Value.{SpecValue};
ghost use Rattle.stream_core.specs.Meaning.{step};
ghost use Rattle.stream_core.specs.Term.{trees};
ghost use Rattle.row_sessions.specs.Session.{machine_sessions};
ghost use Rattle.interpreter.specs.Interpreted.{extern_columns, interpreted, last_step, shown};

/// What the step over the last of the first rows writes is what the step of its number writes.
pub fn steps_follow_their_rows()
    ensures { (s : SpecValue) (h : List (List ℕ)) (n : ℕ) → n < length h → last_step s (take (n + 1) h) ≡ shown (trees s) n (step s h n) }
{}

/// A session is that of a machine which is stepped over one row after another.
pub fn sessions_step_over_rows_so_far()
    ensures { (s : SpecValue) (text : List ℕ) (ended : Bool) → machine_sessions (last_step s) (extern_columns s) text ended ≡ interpreted s text ended }
{}
