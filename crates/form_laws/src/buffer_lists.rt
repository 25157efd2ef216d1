// The buffers of any form: how many there are, and that their entries stay.
ghost use Rattle.std.specs.Prelude.{◌≡◌, ◌+◌, ◌<◌, ℕ, List, length};
ghost use Rattle.stream_core.specs.declared.node.LibForm.{LibForm};
ghost use Rattle.stream_core.specs.Term.{Term};
ghost use Rattle.stream_core.specs.Lower.{buffers, buffers_of, depth};
ghost use Rattle.stream_core.specs.WellTyped.{operand_types};
ghost use Rattle.form_laws.specs.Buffers.{Samples, buffer_entry, with_now};

/// A form over its operands has as many buffers as its kind says.
pub fn forms_have_their_buffers()
    ensures { (f : LibForm) (number b at : ℕ) (ps : List Term) → length ps ≡ length (operand_types f) → length (buffers_of f number b at ps) ≡ buffers f }
{}

/// What the buffers hold before a step doesn't depend on that step's samples.
pub fn entries_stay_as_samples_grow()
    ensures { (f : LibForm) (t : ℕ) (p : Samples) (now : List ℕ) (k i : ℕ) → i < depth f + t → buffer_entry f (with_now t p now) k i ≡ buffer_entry f p k i }
{}
