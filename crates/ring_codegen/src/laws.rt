// What is true of every translation.
ghost use Rattle.std.specs.Prelude.{◌≡◌, map};
ghost use Rattle.ring_codegen.specs.TranslationRows.{AreTranslated};
ghost use Rattle.ring_codegen.specs.LibraryRows.{BuffersAreRings};
ghost use Rattle.ring_codegen.specs.ExpressionRows.{expression_rows, written};

/// The worked specifications have the worked programs as translations: a heater, an empty one, a door, a counter of one
/// value, two streams, a wide product, the least number, negative constants, and a member of an element.
pub fn translations_are_written()
    ensures { AreTranslated }
{}

/// Each form of expression is written as specs/ExpressionRows.antt says.
pub fn expressions_are_written()
    ensures { map (λ r. written r.1) expression_rows ≡ map (λ r. r.0) expression_rows }
{}

/// A buffer of the library is a ring, behind those of the streams, as specs/LibraryRows.antt says.
pub fn buffers_are_rings()
    ensures { BuffersAreRings }
{}
