// What the two texts are. The function is a law, and does nothing.
ghost use Rattle.c99_tree.specs.declared.unit.Unit.{Unit as CUnit};
ghost use Rattle.c99_tree.specs.Spelling.{Spells, header_text, source_text};
ghost use Rattle.c99_tree.specs.WellFormed.{IsWellFormed};

/// A well formed unit has a spelling, and it is the two texts that are printed.
pub fn printed_texts_are_spelled()
    ensures { (u : CUnit) → IsWellFormed u → Spells u (header_text u) (source_text u) }
{}
