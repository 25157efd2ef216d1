// The step of a translation does what a step of the specification means. Each function is a law, and does nothing.
ghost use Rattle.std.specs.Prelude.{◌≡◌, ℕ, List};
ghost use Rattle.stream_types.specs.Types.{AreWords};
ghost use Rattle.stream_core.specs.Term.{TreeSpec};
ghost use Rattle.stream_core.specs.Eval.{Moment, StepValues, row_leaves};
ghost use Rattle.stream_core.specs.StepParts.{IsCleanStep};
ghost use Rattle.c99_tree.specs.declared.unit.Unit.{Unit as CUnit};
ghost use Rattle.c99_tree.specs.Evaluation.{Statics};
ghost use Rattle.ring_codegen.specs.Standing.{IsProgramOf, HasSteps, IsMomentOf, IsNextMoment, AreBefore, Steps};

/// A step without hazard of a plain specification without library forms: on statics whose rings stand for the moment, the
/// program's step is defined, calls the handlers of the triggers that fire with their arguments' words, in order, and leaves
/// rings that stand for the next moment.
pub fn steps_make_the_calls()
    ensures { (spec : TreeSpec) (u : CUnit) (m next : Moment) (s : Statics) (v : StepValues)
        → HasSteps spec → IsProgramOf spec u → IsMomentOf spec m → AreBefore spec m s → AreWords (row_leaves spec) m.row
        → IsCleanStep spec m v → IsNextMoment spec m next v.nexts → Steps spec u next s m.row v.triggered }
{}
