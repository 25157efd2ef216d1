// What a specification means is what the specification means that it is lowered to.
ghost use Rattle.std.specs.Prelude.{◌≡◌, ◌↔◌, ◌<◌, ◌≤◌, ℕ, List, [], length, slice_get, slice_index_or, Some, Ok, Err};
ghost use Rattle.stream_types.specs.declared.scalar.Hazard.{Hazard};
ghost use Rattle.stream_types.specs.declared.scalar.Ty.{Ty};
ghost use Rattle.stream_core.specs.Value.{SpecValue};
ghost use Rattle.stream_core.specs.Term.{Term, TreeLib, defs_of, trees};
ghost use Rattle.stream_core.specs.Lower.{buffer_of, lowered_spec};
ghost use Rattle.stream_core.specs.Eval as eval;
ghost use Rattle.stream_core.specs.Eval.{Table, moment, place_of, value};
ghost use Rattle.stream_core.specs.Handlers as called;
ghost use Rattle.stream_core.specs.Signature.{signature_of};
ghost use Rattle.stream_core.specs.Soundness.{HasNoCycle};
ghost use Rattle.stream_core.specs.WellTyped.{HasType, WellTyped};
ghost use Rattle.stream_core.specs.WrittenOut.{IsWrittenOut};
ghost use Rattle.stream_core.specs.KeptLimits.{plain_form};
ghost use Rattle.stream_core.specs.Meaning.{Clean, IsHistory, calls, closed_spec, handlers, log, step, table};
ghost use Rattle.form_laws.specs.Buffers.{HoldBuffers};
ghost use Rattle.form_laws.specs.Kept.{lowered_in, samples_at};

/// Over a well typed specification without a cycle of defs, and a history of words, the tables go together: both have the
/// same first hazard, or the streams' lists are the same, and the lists behind them hold what the forms' buffers hold.
pub fn lowered_tables_follow_tables()
    ensures hazards { (s : SpecValue) (h : List (List ℕ)) (t : ℕ) (hazard : Hazard)
        → WellTyped s → HasNoCycle (defs_of s) → IsHistory s h → t ≤ length h → table s h t ≡ Err hazard
        → eval.table_after (lowered_spec (closed_spec s)) h t ≡ Err hazard }
    ensures there { (s : SpecValue) (h : List (List ℕ)) (t : ℕ) (lists : Table)
        → WellTyped s → HasNoCycle (defs_of s) → IsHistory s h → t ≤ length h → table s h t ≡ Ok lists
        → (low : Table) × (eval.table_after (lowered_spec (closed_spec s)) h t ≡ Ok low) }
    ensures streams { (s : SpecValue) (h : List (List ℕ)) (t x : ℕ) (lists low : Table)
        → WellTyped s → HasNoCycle (defs_of s) → IsHistory s h → t ≤ length h → table s h t ≡ Ok lists
        → eval.table_after (lowered_spec (closed_spec s)) h t ≡ Ok low → x < length (closed_spec s).streams
        → slice_index_or low x [] ≡ slice_index_or lists x [] }
    ensures buffers { (s : SpecValue) (h : List (List ℕ)) (t k : ℕ) (lists low : Table) (x : TreeLib)
        → WellTyped s → HasNoCycle (defs_of s) → IsHistory s h → t ≤ length h → table s h t ≡ Ok lists
        → eval.table_after (lowered_spec (closed_spec s)) h t ≡ Ok low → slice_get (closed_spec s).libs k ≡ Some x
        → HoldBuffers x.form (buffer_of (length (closed_spec s).streams) (closed_spec s).libs k) low t
        (samples_at lists (place_of (length (closed_spec s).streams) (closed_spec s).libs k)) }
{}

/// Over these tables a lowered expression has the expression's value, or its first hazard.
pub fn lowered_expressions_keep_their_values()
    ensures { (s : SpecValue) (h : List (List ℕ)) (t : ℕ) (lists low : Table) (e : Term) (u : Ty)
        → WellTyped s → HasNoCycle (defs_of s) → IsHistory s h → t < length h → table s h t ≡ Ok lists
        → eval.table_after (lowered_spec (closed_spec s)) h t ≡ Ok low
        → HasType (signature_of (closed_spec s)) e u → IsWrittenOut (closed_spec s).libs e
        → value (moment (lowered_spec (closed_spec s)) low h t) (lowered_in (closed_spec s) e) ≡ value (moment (closed_spec s) lists h t) e }
{}

/// And so each step of the history is the same, its events or its first hazard, whether defs are written out first or the
/// forms become buffers first, and so is the log.
pub fn lowered_specs_keep_their_steps()
    ensures closed { (s : SpecValue) (h : List (List ℕ)) (t : ℕ)
        → WellTyped s → HasNoCycle (defs_of s) → IsHistory s h → t < length h
        → eval.step_events (lowered_spec (closed_spec s)) h t ≡ step s h t }
    ensures plain { (s : SpecValue) (h : List (List ℕ)) (t : ℕ)
        → WellTyped s → HasNoCycle (defs_of s) → IsHistory s h → t < length h
        → eval.step_events (plain_form (trees s)) h t ≡ step s h t }
    ensures log { (s : SpecValue) (h : List (List ℕ)) (n : ℕ)
        → WellTyped s → HasNoCycle (defs_of s) → IsHistory s h → n ≤ length h
        → eval.log (plain_form (trees s)) h n ≡ log s h n }
{}

/// The handlers are the same, and so are the calls; the same histories are clean.
pub fn lowered_specs_keep_their_calls()
    ensures handlers { (s : SpecValue) → called.handlers (plain_form (trees s)) ≡ handlers s }
    ensures calls { (s : SpecValue) (h : List (List ℕ)) (n : ℕ)
        → WellTyped s → HasNoCycle (defs_of s) → IsHistory s h → n ≤ length h
        → called.calls (plain_form (trees s)) h n ≡ calls s h n }
    ensures clean { (s : SpecValue) (h : List (List ℕ)) (n : ℕ)
        → WellTyped s → HasNoCycle (defs_of s) → IsHistory s h
        → eval.Clean (plain_form (trees s)) h n ↔ Clean s h n }
{}
