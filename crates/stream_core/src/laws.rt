// What is true of every specification over every history.
ghost use Rattle.std.specs.Prelude.{◌≡◌, ◌↔◌, ◌+◌, ◌≤◌, ℕ, List, [], ◌∷◌, ◌++◌, length, take, slice_get, slice_index_or, int_le, Contains, Some, Ok, IsOk, IsTrue};
ghost use Rattle.std.specs.List.{AllByRecursion};
ghost use Rattle.stream_types.specs.declared.scalar.Scalar.{Scalar};
ghost use Rattle.stream_types.specs.Numbers.{number};
ghost use Rattle.stream_core.specs.Value.{SpecValue};
ghost use Rattle.stream_types.specs.declared.scalar.Ty.{Ty};
ghost use Rattle.stream_core.specs.Term.{Term, TreeDef, TreeTrigger, build, closed, closed_def, def, defs_of, tree};
ghost use Rattle.stream_core.specs.Signature.{Signature};
ghost use Rattle.stream_core.specs.Acyclic.{Acyclic, WellFounded};
ghost use Rattle.stream_core.specs.Soundness.{HasNoCycle};
ghost use Rattle.stream_core.specs.WellTyped.{HasType, WellTyped};
ghost use Rattle.stream_core.specs.Library.{greatest_word, least_word};
ghost use Rattle.stream_core.specs.Eval.{Table, or_none};
ghost use Rattle.stream_core.specs.Equations.{IsFront};
ghost use Rattle.stream_core.specs.Handlers.{calls_of, handler_of, handlers_after};
ghost use Rattle.stream_core.specs.declared.node.Node.{Node};
ghost use Rattle.stream_core.specs.declared.spec.LibItem.{LibItem};
ghost use Rattle.stream_core.specs.Ordered.{Ordered};
ghost use Rattle.stream_core.specs.Meaning.{Bounded, Clean, Meets, calls, closed_spec, handlers, log, step, table};

/// The equations of the streams: a stream of `len` initial values has `len + n` values after `n` steps without
/// hazard, begins with its initial values, and its value `len + t` is its expression at `t`.
pub fn tables_meet_the_equations()
    ensures typed { (s : SpecValue) (h : List (List ℕ)) (n : ℕ) (lists : Table) → WellTyped s → table s h n ≡ Ok lists → Meets s h n lists }
    ensures bounded { (s : SpecValue) (h : List (List ℕ)) (n : ℕ) (lists : Table) → Bounded s → table s h n ≡ Ok lists → Meets s h n lists }
{}

/// Over a clean history any lists that meet the equations are the table.
pub fn equations_have_one_solution()
    ensures typed { (s : SpecValue) (h : List (List ℕ)) (n : ℕ) (lists : Table) → WellTyped s → Clean s h n → Meets s h n lists → table s h n ≡ Ok lists }
    ensures bounded { (s : SpecValue) (h : List (List ℕ)) (n : ℕ) (lists : Table) → Bounded s → Clean s h n → Meets s h n lists → table s h n ≡ Ok lists }
{}

/// A well typed specification reads each stream within its initial values.
pub fn well_typed_specs_are_bounded()
    ensures { (s : SpecValue) → WellTyped s → Bounded s }
{}

/// The values of a stream or an operand stay as steps are added.
pub fn entries_stay()
    ensures { (s : SpecValue) (h : List (List ℕ)) (m n : ℕ) (old new : Table) → m ≤ n → table s h m ≡ Ok old → table s h n ≡ Ok new → (k : ℕ) → IsFront (slice_index_or old k []) (slice_index_or new k []) }
{}

/// A history is clean exactly where each of its steps leaves a table.
pub fn clean_histories_have_tables()
    ensures { (s : SpecValue) (h : List (List ℕ)) (n : ℕ) → Clean s h n ↔ ((n ≤ length h) × IsOk (table s h n)) }
{}

/// The log to a step begins the log to the next one.
pub fn logs_grow()
    ensures { (s : SpecValue) (h : List (List ℕ)) (n : ℕ) → log s h (n + 1) ≡ log s h n ++ or_none (step s h n) ∷ [] }
{}

/// A step depends on the rows up to its own alone.
pub fn steps_read_rows_so_far()
    ensures { (s : SpecValue) (h g : List (List ℕ)) (t : ℕ) → take (t + 1) h ≡ take (t + 1) g → step s h t ≡ step s g t }
{}

/// The calls to a step begin those to the next one, which adds the calls of its own events.
pub fn calls_grow()
    ensures { (s : SpecValue) (h : List (List ℕ)) (n : ℕ) → calls s h (n + 1) ≡ calls s h n ++ calls_of (closed_spec s) (or_none (step s h n)) ∷ [] }
{}

/// No two handlers have one name, a trigger's handler has the trigger's name, each handler is some trigger's name, and
/// the handlers of the first triggers begin those of all.
pub fn handlers_are_named_once()
    ensures once { (s : SpecValue) (i j : ℕ) (name : List ℕ) → slice_get (handlers s) i ≡ Some name → slice_get (handlers s) j ≡ Some name → i ≡ j }
    ensures only { (s : SpecValue) (i : ℕ) (name : List ℕ) → slice_get (handlers s) i ≡ Some name
        → (k : ℕ) × (x : TreeTrigger) × (slice_get (closed_spec s).triggers k ≡ Some x) × (x.name ≡ name) }
    ensures ordered { (front back : List TreeTrigger) → (more : List (List ℕ)) × (handlers_after [] (front ++ back) ≡ handlers_after [] front ++ more) }
    ensures named { (s : SpecValue) (i : ℕ) (x : TreeTrigger) → slice_get (closed_spec s).triggers i ≡ Some x → slice_get (handlers s) (handler_of (closed_spec s) i) ≡ Some x.name }
{}

/// The greatest word of a window is a sample, and no sample has a greater number.
pub fn greatest_words_are_greatest()
    ensures sample { (s : Scalar) (first : ℕ) (rest : List ℕ) → Contains (first ∷ rest) (greatest_word s first rest) }
    ensures greatest { (s : Scalar) (first : ℕ) (rest : List ℕ) → AllByRecursion (λ w. IsTrue (int_le (number s w) (number s (greatest_word s first rest)))) (first ∷ rest) }
{}

/// The least word of a window is a sample, and no sample has a smaller number.
pub fn least_words_are_least()
    ensures sample { (s : Scalar) (first : ℕ) (rest : List ℕ) → Contains (first ∷ rest) (least_word s first rest) }
    ensures least { (s : Scalar) (first : ℕ) (rest : List ℕ) → AllByRecursion (λ w. IsTrue (int_le (number s (least_word s first rest)) (number s w))) (first ∷ rest) }
{}

/// An expression has at most one type.
pub fn expressions_have_one_type()
    ensures { (sig : Signature) (e : Term) (t u : Ty) → HasType sig e t → HasType sig e u → t ≡ u }
{}

/// Where ranks fall along mentions there is no cycle of defs.
pub fn ranks_leave_no_cycle()
    ensures { (defs : List TreeDef) → Acyclic defs → HasNoCycle defs }
{}

/// Where there is no cycle of defs there are ranks that fall along mentions.
pub fn no_cycle_gives_ranks()
    ensures { (s : SpecValue) → WellTyped s → HasNoCycle (defs_of s) → Acyclic (defs_of s) }
{}

/// A well typed specification whose defs have ranks is what `Spec::node` asks for.
pub fn well_typed_specs_have_trees()
    ensures { (s : SpecValue) → WellTyped s → Acyclic (defs_of s) → WellFounded s }
{}

/// The tree of a node is its form over the trees of its parts; with defs written out, over those of its parts and of the
/// def that it names.
pub fn trees_are_built_of_their_parts()
    ensures tree { (nodes : List Node) (libs : List LibItem) (i : ℕ) (n : Node) → Ordered nodes libs → slice_get nodes i ≡ Some n
        → tree nodes libs i ≡ build libs def (tree nodes libs) n }
    ensures closed { (s : SpecValue) (i : ℕ) (n : Node) → WellFounded s → slice_get s.nodes i ≡ Some n
        → closed s i ≡ build s.libs (closed_def s) (closed s) n }
{}
