// The translation of each expression gives the expression's value. Each function is a law, and does nothing.
ghost use Rattle.std.specs.Prelude.{◌≡◌, ℕ, List, [], Ok};
ghost use Rattle.stream_types.specs.declared.scalar.Ty.{Ty};
ghost use Rattle.stream_core.specs.Term.{Term, TreeSpec};
ghost use Rattle.stream_core.specs.Signature.{signature_of};
ghost use Rattle.stream_core.specs.WellTyped.{HasType};
ghost use Rattle.stream_core.specs.WrittenOut.{IsWrittenOut};
ghost use Rattle.stream_core.specs.Plain.{IsPlain};
ghost use Rattle.stream_core.specs.Eval.{Moment, value};
ghost use Rattle.c99_tree.specs.declared.unit.Unit.{Unit as CUnit};
ghost use Rattle.c99_tree.specs.Evaluation.{Statics};
ghost use Rattle.ring_codegen.specs.Translation.{translated};
ghost use Rattle.ring_codegen.specs.Standing.{IsTranslatable, Declares, IsMomentOf, StandsFor, Gives};

/// Over statics that stand for a moment, the translation of a plain and typed expression, its defs written out, is defined
/// where the expression has a value, and gives it: the word of a scalar, or the value of an array or a struct that its words
/// are, of the type's C type.
pub fn expressions_give_their_values()
    ensures { (spec : TreeSpec) (u : CUnit) (m : Moment) (s : Statics) (e : Term) (t : Ty) (ws : List ℕ)
        → IsTranslatable spec → Declares spec u → IsMomentOf spec m → StandsFor spec m s
        → IsPlain e → IsWrittenOut [] e → HasType (signature_of spec) e t → value m e ≡ Ok ws
        → Gives spec.types u s (translated spec e) t ws }
{}
