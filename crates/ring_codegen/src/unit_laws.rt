// The program of a translation is well formed, and so does what the specification means. Each function is a law, and does
// nothing.
ghost use Rattle.std.specs.Prelude.{ℕ, ◌≤◌, ◌<◌, ◌^◌, List, decimal, IsTrue};
ghost use Rattle.sm_io.specs.Words.{is_name};
ghost use Rattle.stream_core.specs.Value.{SpecValue};
ghost use Rattle.stream_lib.specs.PlainSpecs.{IsSoundPlain};
ghost use Rattle.stream_core.specs.Meaning.{closed_spec};
ghost use Rattle.c99_tree.specs.Words.{is_ring_name};
ghost use Rattle.c99_tree.specs.WellFormed.{IsWellFormed};
ghost use Rattle.ring_codegen.specs.Simulation.{Simulates};
ghost use Rattle.ring_codegen.specs.Translation.{translation};

/// A name is the name of a ring, and so is a decimal from 1 on below 2 ^ 64, as the library's buffers have.
pub fn names_and_numbers_name_rings()
    ensures name { (x : List ℕ) → IsTrue (is_name x) → IsTrue (is_ring_name x) }
    ensures number { (n : ℕ) → 1 ≤ n → n < 2 ^ 64 → IsTrue (is_ring_name (decimal n)) }
{}

/// The translation of a sound and plain specification is a well formed program.
pub fn translations_are_well_formed()
    ensures { (s : SpecValue) (name : List ℕ) → IsTrue (is_name name) → IsSoundPlain s → IsWellFormed (translation (closed_spec s) name) }
{}

/// And it does what the specification means.
pub fn translations_simulate()
    ensures { (s : SpecValue) (name : List ℕ) → IsTrue (is_name name) → IsSoundPlain s → Simulates s name (translation (closed_spec s) name) }
{}
