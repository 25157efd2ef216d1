// What the two texts of a program tell. The functions are laws, and do nothing.
ghost use Rattle.std.specs.Prelude.{◌≡◌, ℕ, List, ◌⊎◌};
ghost use Rattle.c99_tree.specs.declared.unit.Unit.{Unit as CUnit};
ghost use Rattle.c99_tree.specs.Spelling.{Spells};

/// Two texts spell at most one program.
pub fn texts_spell_one_unit()
    ensures { (u v : CUnit) (header source : List ℕ) → Spells u header source → Spells v header source → u ≡ v }
{}

/// Of any two texts there is a program that they spell, or there is none: reading finds out which.
pub fn texts_are_decided()
    ensures { (header source : List ℕ) → ((u : CUnit) × Spells u header source) ⊎ ((u : CUnit) → Spells u header source → ⊥) }
{}
