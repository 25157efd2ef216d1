// What stays as the forms of the library become buffers.
ghost use Rattle.std.specs.Prelude.{◌≡◌, ◌+◌, ◌<◌, ℕ, length, map, slice_get, Some, None};
ghost use Rattle.stream_types.specs.declared.scalar.Ty.{Ty};
ghost use Rattle.stream_core.specs.Value.{SpecValue};
ghost use Rattle.stream_core.specs.Term.{Term, TreeLib, TreeSpec, trees, without_defs};
ghost use Rattle.stream_core.specs.Lower.{buffer_of, buffers, buffers_of, lowered_spec};
ghost use Rattle.stream_core.specs.Plain.{IsPlainSpec};
ghost use Rattle.stream_core.specs.Signature.{signature_of};
ghost use Rattle.stream_core.specs.WellTyped.{HasType, WellTyped};
ghost use Rattle.stream_core.specs.WrittenOut.{IsWrittenOut};
ghost use Rattle.stream_core.specs.TypedParts.{HasTypedParts};
ghost use Rattle.stream_core.specs.Limits.{storage_of_plain, weight_of_plain};
ghost use Rattle.stream_core.specs.KeptLimits.{KeepsLimits, plain_form};
ghost use Rattle.stream_core.specs.Meaning.{IsFirstFault, closed_spec, storage, weight};
ghost use Rattle.form_laws.specs.Kept.{KeepsDeclarations, lowered_in};

/// Whether forms become buffers first or defs are written out first is one.
pub fn lowering_keeps_defs_out()
    ensures { (s : TreeSpec) → lowered_spec (without_defs s) ≡ without_defs (lowered_spec s) }
{}

/// What a specification is lowered to is plain, also with its defs written out, and a plain specification is lowered to
/// itself.
pub fn lowered_specs_are_plain()
    ensures plain { (s : TreeSpec) → IsPlainSpec (lowered_spec s) }
    ensures with_defs_out { (s : TreeSpec) → IsPlainSpec (plain_form s) }
    ensures stays { (s : TreeSpec) → IsPlainSpec s → lowered_spec s ≡ s }
{}

/// Name, types, externs, streams, defs, triggers and observers stay as they are but for their expressions; behind the
/// streams stand the buffers of the forms, in the order of the forms, and nothing more.
pub fn lowered_specs_keep_their_declarations()
    ensures declared { (s : TreeSpec) → KeepsDeclarations s (lowered_spec s) }
    ensures buffered { (s : SpecValue) (k j : ℕ) (x : TreeLib) → WellTyped s → slice_get (trees s).libs k ≡ Some x → j < buffers x.form
        → let at = buffer_of (length (trees s).streams) (trees s).libs k in
        slice_get (lowered_spec (trees s)).streams (at + j) ≡ slice_get (buffers_of x.form (buffer_of 1 (trees s).libs k) at x.at (map (lowered_in (trees s)) x.args)) j }
    ensures counted { (s : SpecValue) → WellTyped s
        → length (lowered_spec (trees s)).streams ≡ buffer_of (length (trees s).streams) (trees s).libs (length (trees s).libs) }
{}

/// An expression whose defs are written out and whose forms are the specification's keeps its type as it is lowered.
pub fn lowered_expressions_keep_their_types()
    ensures { (s : SpecValue) (e : Term) (t : Ty) → WellTyped s → IsWrittenOut (closed_spec s).libs e → HasType (signature_of (closed_spec s)) e t
        → HasType (signature_of (lowered_spec (closed_spec s))) (lowered_in (closed_spec s) e) t }
{}

/// What a well typed specification is lowered to has typed parts, also with its defs written out.
pub fn lowered_specs_have_typed_parts()
    ensures lowered { (s : SpecValue) → WellTyped s → HasTypedParts (lowered_spec (trees s)) }
    ensures with_defs_out { (s : SpecValue) → WellTyped s → HasTypedParts (plain_form (trees s)) × HasTypedParts (lowered_spec (closed_spec s)) }
{}

/// It weighs and stores what the specification does, and keeps the limits where that has no fault.
pub fn lowered_specs_keep_the_limits()
    ensures limits { (s : SpecValue) → IsFirstFault s None → KeepsLimits (lowered_spec (closed_spec s)) }
    ensures weight { (s : SpecValue) → weight_of_plain (lowered_spec (closed_spec s)) ≡ weight s }
    ensures storage { (s : SpecValue) → storage_of_plain (lowered_spec (closed_spec s)) ≡ storage s }
{}
