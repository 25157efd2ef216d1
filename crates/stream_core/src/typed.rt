// What is true of every typed expression, and of every specification that has no fault.
ghost use Rattle.std.specs.Prelude.{◌≡◌, ◌↔◌, ℕ, ◌<◌, ◌≤◌, List, ◌++◌, length, All, Some, None, Bool, IsTrue};
ghost use Rattle.std.specs.List.{AllByRecursion};
ghost use Rattle.stream_types.specs.declared.scalar.Ty.{Ty};
ghost use Rattle.stream_types.specs.declared.types.TypeEntry.{TypeEntry};
ghost use Rattle.stream_types.specs.Types.{leaves, repeated, AreWords};
ghost use Rattle.stream_types.specs.TypeList.{Stands, IsTypeList};
ghost use Rattle.stream_core.specs.declared.node.Node.{Node};
ghost use Rattle.stream_core.specs.declared.spec.Item.{Item};
ghost use Rattle.stream_core.specs.declared.spec.LibItem.{LibItem};
ghost use Rattle.stream_core.specs.declared.spec.StreamItem.{StreamItem};
ghost use Rattle.stream_core.specs.Value.{SpecValue};
ghost use Rattle.stream_core.specs.Ordered.{Ordered};
ghost use Rattle.stream_core.specs.Stored.{with_item};
ghost use Rattle.stream_core.specs.Term.{Term, Terms, TreeSpec, tree, trees, value_count, written_out, without_defs};
ghost use Rattle.stream_core.specs.Signature.{Signature, items_signature, signature_of};
ghost use Rattle.stream_core.specs.WellTyped.{HasType, HaveTypes, IsGoodDef, WellTyped};
ghost use Rattle.stream_core.specs.TypeOf.{type_of, types_of, Extends};
ghost use Rattle.stream_core.specs.TypedParts.{HasTypedParts};
ghost use Rattle.stream_core.specs.Children.{children, EachPart};
ghost use Rattle.stream_core.specs.Soundness.{HasNoCycle, declarations};
ghost use Rattle.stream_core.specs.KeptLimits.{plain_form, KeepsLimits};
ghost use Rattle.stream_core.specs.Meaning.{closed_spec, IsFirstFault};

/// An expression has a type exactly where `type_of` finds it.
pub fn types_are_found()
    ensures one { (sig : Signature) (e : Term) (t : Ty) → HasType sig e t ↔ (type_of sig e ≡ Some t) }
    ensures all { (sig : Signature) (es : Terms) (ts : List Ty) → HaveTypes sig es ts ↔ (types_of sig es ≡ Some ts) }
{}

/// Typing reads the items of a specification alone, and what it reads grows as items and types are added.
pub fn signatures_follow_items()
    ensures items { (s : SpecValue) → signature_of (trees s) ≡ items_signature s }
    ensures added { (s : SpecValue) (x : Item) → Extends (signature_of (trees s)) (signature_of (trees (with_item s x))) }
    ensures types { (s : SpecValue) (more : List TypeEntry) → All (λ (x : StreamItem). Stands s.types x.ty) s.streams
        → Extends (signature_of (trees s)) (signature_of (trees (record s { types = s.types ++ more }))) }
{}

/// An expression keeps its type as types and declarations are added behind those that there are.
pub fn types_stay_as_declarations_are_added()
    ensures { (old new : Signature) (e : Term) (t : Ty) → Extends old new → HasType old e t → HasType new e t }
{}

/// Writing the defs out changes neither what is declared nor the type of an expression.
pub fn types_stay_as_defs_are_written_out()
    ensures signature { (s : TreeSpec) → signature_of (without_defs s) ≡ signature_of s }
    ensures types { (s : TreeSpec) (e : Term) (t : Ty) → All (IsGoodDef (signature_of s)) s.defs
        → HasType (signature_of s) e t → HasType (signature_of (without_defs s)) (written_out s.defs e) t }
{}

/// The declarations of a well typed specification have their types as trees, and also with the defs written out.
pub fn well_typed_specs_have_typed_parts()
    ensures as_written { (s : SpecValue) → WellTyped s → HasTypedParts (trees s) }
    ensures with_defs_out { (s : SpecValue) → WellTyped s → HasTypedParts (closed_spec s) }
{}

/// So many values of a type are counted as so many.
pub fn values_are_counted()
    ensures { (types : List TypeEntry) (t : Ty) (values : List ℕ) (n : ℕ) → IsTypeList types → Stands types t
        → AreWords (repeated n (leaves types t)) values → value_count types t values ≡ n }
{}

/// The tree of a node stays as it is while nodes are added.
pub fn trees_stay_as_nodes_are_added()
    ensures { (nodes more : List Node) (libs : List LibItem) (i : ℕ) → Ordered nodes libs → i < length nodes
        → tree (nodes ++ more) libs i ≡ tree nodes libs i }
{}

/// There is no first fault exactly where there is no cycle, there are at most 4,096 declarations, and the plain form
/// keeps the limits on words and weight.
pub fn sound_specs_keep_limits()
    ensures { (s : SpecValue) → IsFirstFault s None
        ↔ (HasNoCycle (trees s).defs × (declarations (trees s) ≤ 4096) × KeepsLimits (plain_form (trees s))) }
{}

/// A test that follows for each expression from its parts holds of all expressions, and it holds of each part exactly
/// where it holds of the expression and of each part of its children.
pub fn expressions_are_made_of_children()
    ensures induction { (test : Term → Bool) → ((e : Term) → AllByRecursion (λ a. IsTrue (test a)) (children e) → IsTrue (test e)) → (e : Term) → IsTrue (test e) }
    ensures parts { (test : Term → Bool) (e : Term) → EachPart (λ a. IsTrue (test a)) e
        ↔ (IsTrue (test e) × AllByRecursion (EachPart (λ a. IsTrue (test a))) (children e)) }
{}
