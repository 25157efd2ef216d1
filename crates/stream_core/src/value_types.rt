// The values of expressions, and the entries of tables, have their types.
ghost use Rattle.std.specs.Prelude.{◌≡◌, ◌+◌, ◌<◌, ◌≤◌, ℕ, List, [], length, slice_get, slice_index_or, Some, Ok};
ghost use Rattle.std.specs.List.{AllByRecursion};
ghost use Rattle.stream_types.specs.declared.scalar.Ty.{Ty};
ghost use Rattle.stream_types.specs.Types.{leaves, AreWords};
ghost use Rattle.stream_core.specs.declared.spec.StreamItem.{StreamItem};
ghost use Rattle.stream_core.specs.declared.spec.LibItem.{LibItem};
ghost use Rattle.stream_core.specs.Value.{SpecValue};
ghost use Rattle.stream_core.specs.Term.{Term, tree, trees, closed, defs_of};
ghost use Rattle.stream_core.specs.Eval.{Table, Event, moment, place_of, value};
ghost use Rattle.stream_core.specs.Soundness.{HasNoCycle};
ghost use Rattle.stream_core.specs.Signature.{signature_of};
ghost use Rattle.stream_core.specs.WellTyped.{HasType, WellTyped, operand_types};
ghost use Rattle.stream_core.specs.WrittenOut.{IsWrittenOut};
ghost use Rattle.stream_core.specs.EventWords.{AreWordsOf};
ghost use Rattle.stream_core.specs.Meaning.{IsHistory, closed_spec, step, table};

/// Over a well typed specification without a cycle of defs, and a history of words with a row for step `t`: the value of
/// an expression at step `t`, where it has one, is a word for each scalar of its type, each a word of its scalar. The
/// expression is a node's, its defs written out, or any whose defs are written out and whose forms are the
/// specification's.
pub fn values_have_their_types()
    ensures expression { (s : SpecValue) (h : List (List ℕ)) (t : ℕ) (lists : Table) (e : Term) (u : Ty) (v : List ℕ)
        → WellTyped s → HasNoCycle (defs_of s) → IsHistory s h → t < length h → table s h t ≡ Ok lists
        → IsWrittenOut (closed_spec s).libs e → HasType (signature_of (closed_spec s)) e u
        → value (moment (closed_spec s) lists h t) e ≡ Ok v → AreWords (leaves s.types u) v }
    ensures node { (s : SpecValue) (h : List (List ℕ)) (t : ℕ) (lists : Table) (i : ℕ) (u : Ty) (v : List ℕ)
        → WellTyped s → HasNoCycle (defs_of s) → IsHistory s h → t < length h → table s h t ≡ Ok lists
        → HasType (signature_of (trees s)) (tree s.nodes s.libs i) u
        → value (moment (closed_spec s) lists h t) (closed s i) ≡ Ok v → AreWords (leaves s.types u) v }
{}

/// The same of tables: each entry of a stream's list is words of the stream's type, and each entry of the list of a
/// form's operand is words of the operand's type.
pub fn tables_have_their_types()
    ensures stream { (s : SpecValue) (h : List (List ℕ)) (n : ℕ) (lists : Table) (k : ℕ) (x : StreamItem)
        → WellTyped s → HasNoCycle (defs_of s) → IsHistory s h → n ≤ length h → table s h n ≡ Ok lists
        → slice_get s.streams k ≡ Some x → AllByRecursion (AreWords (leaves s.types x.ty)) (slice_index_or lists k []) }
    ensures operand { (s : SpecValue) (h : List (List ℕ)) (n : ℕ) (lists : Table) (k j : ℕ) (x : LibItem) (u : Ty)
        → WellTyped s → HasNoCycle (defs_of s) → IsHistory s h → n ≤ length h → table s h n ≡ Ok lists
        → slice_get s.libs k ≡ Some x → slice_get (operand_types x.form) j ≡ Some u
        → AllByRecursion (AreWords (leaves s.types u)) (slice_index_or lists (place_of (length s.streams) (closed_spec s).libs k + j) []) }
{}

/// And of events: a trigger's words are those of its arguments' types, an observer's those of its type, and each event is
/// one of a trigger or observer of the specification.
pub fn events_have_their_types()
    ensures { (s : SpecValue) (h : List (List ℕ)) (t : ℕ) (events : List Event)
        → WellTyped s → HasNoCycle (defs_of s) → IsHistory s h → t < length h → step s h t ≡ Ok events
        → AllByRecursion (λ (e : Event). AreWordsOf s e.who e.words) events }
{}

/// A typed node keeps its type with its defs written out. Without a cycle no bare def is left, and each form in it is the
/// specification's of that number.
pub fn nodes_are_written_out()
    ensures types { (s : SpecValue) (i : ℕ) (u : Ty) → WellTyped s
        → HasType (signature_of (trees s)) (tree s.nodes s.libs i) u → HasType (signature_of (closed_spec s)) (closed s i) u }
    ensures written { (s : SpecValue) (i : ℕ) (u : Ty) → WellTyped s → HasNoCycle (defs_of s)
        → HasType (signature_of (trees s)) (tree s.nodes s.libs i) u → IsWrittenOut (closed_spec s).libs (closed s i) }
{}
