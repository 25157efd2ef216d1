// The forms of bounded distance, whose buffers hold the last samples.
ghost use Rattle.std.specs.Prelude.{ℕ};
ghost use Rattle.stream_core.specs.WellTyped.{IsGoodForm};
ghost use Rattle.stream_core.specs.declared.node.LibForm.TheVariants as form;
ghost use Rattle.form_laws.specs.Buffers.{FormIsKept};

/// `once within low to high steps`: its buffer is the operand of the last steps, and false before the first.
pub fn once_in_is_kept()
    ensures { (low high : ℕ) → IsGoodForm (form.OnceIn low high) → FormIsKept (form.OnceIn low high) }
{}

/// `historically within low to high steps`: its buffer is the operand of the last steps, and true before the first.
pub fn historically_in_is_kept()
    ensures { (low high : ℕ) → IsGoodForm (form.HistoricallyIn low high) → FormIsKept (form.HistoricallyIn low high) }
{}

/// `p since q within low to high steps`: its buffers are the operands of the last steps; before the first, `p` is true and
/// `q` false.
pub fn since_in_is_kept()
    ensures { (low high : ℕ) → IsGoodForm (form.SinceIn low high) → FormIsKept (form.SinceIn low high) }
{}
