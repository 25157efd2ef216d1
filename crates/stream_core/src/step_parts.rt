// A step without hazard, taken apart.
ghost use Rattle.std.specs.Prelude.{◌≡◌, ◌↔◌, ◌+◌, ◌++◌, ℕ, List, Ok, IsOk};
ghost use Rattle.stream_core.specs.Value.{SpecValue};
ghost use Rattle.stream_core.specs.Term.{TreeSpec};
ghost use Rattle.stream_core.specs.Eval.{Moment, Table, Event, StepValues, extend, moment, step_at};
ghost use Rattle.stream_core.specs.StepParts.{IsCleanStep};
ghost use Rattle.stream_core.specs.Meaning.{closed_spec, step, table};

/// A step finds these events and next values exactly where each guard, the arguments of each true guard, each observer
/// and each line have values, and the events and next values are made of them in order.
pub fn clean_steps_have_values()
    ensures { (s : TreeSpec) (m : Moment) (v : StepValues) → (step_at s m ≡ Ok v) ↔ IsCleanStep s m v }
{}

/// Step `t` of a history, over the table after `t` steps: its events are those of the triggers that fire and then those
/// of the observers, and the next table has the lines' values behind the old ones. Without that table there is no step.
pub fn steps_make_events_and_tables()
    ensures events { (s : SpecValue) (h : List (List ℕ)) (t : ℕ) (lists : Table) (events : List Event) → table s h t ≡ Ok lists
        → (step s h t ≡ Ok events)
        ↔ ((v : StepValues) × IsCleanStep (closed_spec s) (moment (closed_spec s) lists h t) v × (events ≡ v.triggered ++ v.observed)) }
    ensures next { (s : SpecValue) (h : List (List ℕ)) (t : ℕ) (lists next : Table) → table s h t ≡ Ok lists
        → (table s h (t + 1) ≡ Ok next)
        ↔ ((v : StepValues) × IsCleanStep (closed_spec s) (moment (closed_spec s) lists h t) v × (next ≡ extend lists v.nexts)) }
    ensures before { (s : SpecValue) (h : List (List ℕ)) (t : ℕ) → IsOk (step s h t) → IsOk (table s h t) }
{}
