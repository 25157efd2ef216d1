// The forms over a window of the last samples.
ghost use Rattle.std.specs.Prelude.{ℕ};
ghost use Rattle.stream_types.specs.declared.scalar.Scalar.{Scalar};
ghost use Rattle.stream_core.specs.declared.node.LibForm.TheVariants as form;
ghost use Rattle.stream_core.specs.WellTyped.{IsGoodForm};
ghost use Rattle.form_laws.specs.Buffers.{FormIsKept};

/// `window_max n e`: its buffer is the last `n - 1` samples of `e`, and the least number of its type before the first.
pub fn window_max_is_kept()
    ensures { (n : ℕ) (s : Scalar) → IsGoodForm (form.WindowMax n s) → FormIsKept (form.WindowMax n s) }
{}

/// `window_min n e`: its buffer is the last `n - 1` samples of `e`, and the greatest number of its type before the first.
pub fn window_min_is_kept()
    ensures { (n : ℕ) (s : Scalar) → IsGoodForm (form.WindowMin n s) → FormIsKept (form.WindowMin n s) }
{}

/// `window_sum n e`: its buffer is the last `n - 1` samples of `e`, and zeros before the first.
pub fn window_sum_is_kept()
    ensures { (n : ℕ) (s : Scalar) → IsGoodForm (form.WindowSum n s) → FormIsKept (form.WindowSum n s) }
{}
