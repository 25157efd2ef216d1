// The run of a translation makes the specification's calls. Each function is a law, and does nothing.
ghost use Rattle.std.specs.Prelude.{◌≡◌, ℕ, List, IsTrue};
ghost use Rattle.stream_core.specs.Value.{SpecValue};
ghost use Rattle.stream_core.specs.Term.{trees, defs_of};
ghost use Rattle.stream_core.specs.WellTyped.{WellTyped};
ghost use Rattle.stream_core.specs.Plain.{IsPlainSpec};
ghost use Rattle.stream_core.specs.Soundness.{HasNoCycle};
ghost use Rattle.stream_core.specs.Meaning.{closed_spec, storage};
ghost use Rattle.c99_tree.specs.Storage.{storage_of};
ghost use Rattle.ring_codegen.specs.Simulation.{copies_stand_first, MakesSameCalls};
ghost use Rattle.ring_codegen.specs.Translation.{translation};

/// The translation of a plain specification that is well typed and has no cycle of defs, under any name: stepped once for
/// each row of a history without hazard, it does nothing undefined, and makes the specification's calls with the same
/// arguments, in order, at every step.
pub fn translations_make_the_calls()
    ensures { (s : SpecValue) (name : List ℕ) → WellTyped s → HasNoCycle (defs_of s) → IsPlainSpec (trees s)
        → MakesSameCalls s (translation (closed_spec s) name) }
{}

/// It has the bytes of the specification's streams and externs, and no call of a handler stands before a copy of an extern.
pub fn translations_are_laid_out()
    ensures storage { (s : SpecValue) (name : List ℕ) → WellTyped s → HasNoCycle (defs_of s) → IsPlainSpec (trees s)
        → storage_of (translation (closed_spec s) name) ≡ storage s }
    ensures copied { (s : SpecValue) (name : List ℕ) → WellTyped s → HasNoCycle (defs_of s) → IsPlainSpec (trees s)
        → IsTrue (copies_stand_first (translation (closed_spec s) name)) }
{}
