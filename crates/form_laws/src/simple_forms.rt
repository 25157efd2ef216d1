// The forms whose buffer is one value.
ghost use Rattle.stream_core.specs.declared.node.LibForm.TheVariants as form;
ghost use Rattle.std.specs.Prelude.{ℕ};
ghost use Rattle.stream_core.specs.WellTyped.{IsGoodForm};
ghost use Rattle.form_laws.specs.Buffers.{FormIsKept};

/// `once p`: its buffer is whether `p` held at some step before.
pub fn once_is_kept()
    ensures { FormIsKept form.Once }
{}

/// `historically p`: its buffer is whether `p` held at each step before.
pub fn historically_is_kept()
    ensures { FormIsKept form.Historically }
{}

/// `yesterday p`: its buffer is `p` at the step before, and at first false.
pub fn yesterday_is_kept()
    ensures { FormIsKept form.Yesterday }
{}

/// `weakly yesterday p`: its buffer is `p` at the step before, and at first true.
pub fn weakly_yesterday_is_kept()
    ensures { FormIsKept form.WeaklyYesterday }
{}

/// `p since q`: its buffer is whether `q` held at some step before, and `p` at each step after that one.
pub fn since_is_kept()
    ensures { FormIsKept form.Since }
{}

/// A clock: its buffer is the step's number modulo the period.
pub fn clock_is_kept()
    ensures { (period phase : ℕ) → IsGoodForm (form.Clock period phase) → FormIsKept (form.Clock period phase) }
{}
