// What a plain expression reads of a table.
ghost use Rattle.std.specs.Prelude.{◌≡◌, ◌+◌, ◌<◌, ℕ, List, [], length, slice_index_or, Ok};
ghost use Rattle.std.specs.List.{AllByRecursion};
ghost use Rattle.stream_types.specs.declared.scalar.Ty.{Ty};
ghost use Rattle.stream_core.specs.Term.{Term, TreeSpec, tree, trees, closed, without_defs};
ghost use Rattle.stream_core.specs.Signature.{signature_of};
ghost use Rattle.stream_core.specs.Value.{SpecValue};
ghost use Rattle.stream_core.specs.Eval.{Moment, Table, StepValues, extend, lines, moment, value};
ghost use Rattle.stream_core.specs.Equations.{ReadsWithin, bound_of};
ghost use Rattle.stream_core.specs.Meaning.{closed_spec, table};
ghost use Rattle.stream_core.specs.StepParts.{IsCleanStep};
ghost use Rattle.stream_core.specs.WellTyped.{HasType, WellTyped};
ghost use Rattle.stream_core.specs.Plain.{IsPlain, IsPlainSpec, at_table, lists_from, AgreeFrom, moved};

/// The value of a plain expression at time `t` is that over the lists from entry `t` on, at time 0, and that over any
/// table that agrees with these on the entries that the expression reads, as rings do.
pub fn plain_values_read_from_now_on()
    ensures from { (m : Moment) (t : ℕ) (lists : Table) (e : Term) → IsPlain e
        → value (at_table m lists t) e ≡ value (at_table m (lists_from t lists) 0) e }
    ensures agreeing { (m : Moment) (bound : ℕ → ℕ) (t : ℕ) (lists rings : Table) (e : Term) → IsPlain e → ReadsWithin bound e
        → AgreeFrom bound t lists rings → value (at_table m lists t) e ≡ value (at_table m rings 0) e }
{}

/// A typed node, its defs written out, reads each stream within its initial values.
pub fn typed_nodes_read_within_initial_values()
    ensures { (s : SpecValue) (i : ℕ) (u : Ty) → WellTyped s → HasType (signature_of (trees s)) (tree s.nodes s.libs i) u
        → ReadsWithin (bound_of (lines (closed_spec s))) (closed s i) }
{}

/// A step later each of these lists has lost its oldest entry and has one more.
pub fn lists_from_now_on_move()
    ensures { (t : ℕ) (lists : Table) (nexts : List (List ℕ)) → AllByRecursion (λ (xs : List (List ℕ)). t < length xs) lists
        → length nexts ≡ length lists → lists_from (t + 1) (extend lists nexts) ≡ moved (lists_from t lists) nexts }
{}

/// The lists of a well typed specification's table from step `n` on hold as many entries as there are initial values, and
/// at first are the table. Where there are no library forms, a step without hazard drops the oldest entry of each and
/// adds the step's next value.
pub fn rings_follow_tables()
    ensures length { (s : SpecValue) (h : List (List ℕ)) (n : ℕ) (lists : Table) (k : ℕ) → WellTyped s → table s h n ≡ Ok lists
        → length (slice_index_or (lists_from n lists) k []) ≡ bound_of (lines (closed_spec s)) k }
    ensures first { (lists : Table) → lists_from 0 lists ≡ lists }
    ensures next { (s : SpecValue) (h : List (List ℕ)) (n : ℕ) (lists nexts : Table) → WellTyped s → s.libs ≡ []
        → table s h n ≡ Ok lists → table s h (n + 1) ≡ Ok nexts
        → (v : StepValues) × IsCleanStep (closed_spec s) (moment (closed_spec s) lists h n) v
        × (lists_from (n + 1) nexts ≡ moved (lists_from n lists) v.nexts) }
{}

/// A plain specification stays plain with its defs written out.
pub fn plain_specs_stay_plain()
    ensures { (s : TreeSpec) → IsPlainSpec s → IsPlainSpec (without_defs s) }
{}
