// What is true of the typed specification of every text.
ghost use Rattle.std.specs.Prelude.{◌≡◌, ◌≤◌, None};
ghost use Rattle.spec_text.specs.declared.surface.Surface.{Surface};
ghost use Rattle.spec_text.specs.Extent.{item_count, nesting};
ghost use Rattle.spec_text.specs.Form.{form_of};
ghost use Rattle.spec_text.specs.KeepsTable.{KeepsTable};
ghost use Rattle.stream_core.specs.Ordered.{Ordered};
ghost use Rattle.stream_core.specs.Term.{trees};
ghost use Rattle.stream_core.specs.Value.{SpecValue};
ghost use Rattle.stream_core.specs.WellTyped.{WellTyped};
ghost use Rattle.type_check.specs.Checked.{type_fault};
ghost use Rattle.typed_text.specs.InExpressions.{AreParts};
ghost use Rattle.typed_text.specs.ReadSpec.{spec_of};

/// A specification whose trees are those that a text without a fault stands for, whose nodes are in order, and whose
/// every node stands in one of its expressions, is well typed. The text keeps the table of forms and its bounds.
pub fn typed_texts_are_well_typed()
    ensures { (s : Surface) (x : SpecValue) → KeepsTable s → item_count (form_of s) ≤ 1048576 → nesting (form_of s) ≤ 64
        → type_fault s ≡ None → trees x ≡ spec_of s → Ordered x.nodes x.libs → AreParts x → WellTyped x }
{}
