// Worked rows: what the definitions give at given programs. Each function is a law, and does nothing.
ghost use Rattle.std.specs.Prelude.{◌≡◌, List, [], map, None};
ghost use Rattle.c99_tree.specs.Rows.{AreRight, AreCarriedOut, probe, probe_statics, probe_row};
ghost use Rattle.c99_tree.specs.OperatorRows.{operator_rows};
ghost use Rattle.c99_tree.specs.ConversionRows.{conversion_rows};
ghost use Rattle.c99_tree.specs.UndefinedRows.{undefined_rows};
ghost use Rattle.c99_tree.specs.ObjectRows.{object_rows};
ghost use Rattle.c99_tree.specs.StepRows.{step_rows};
ghost use Rattle.c99_tree.specs.UntypedRows.{untyped_rows};
ghost use Rattle.c99_tree.specs.Spelling.{text};
ghost use Rattle.c99_tree.specs.Typing.{type_of};
ghost use Rattle.c99_tree.specs.StorageRows.{storage_rows};
ghost use Rattle.c99_tree.specs.Programs.{HeaterWorks, EmptyWorks, DoorWorks, CounterWorks, OldCounterWorks, PairWorks, SquareWorks, LeastWorks, ConstantsWorks, PickerWorks};
ghost use Rattle.c99_tree.specs.RefusedUnits.{broken, refused_units, rules_broken};
ghost use Rattle.c99_tree.specs.WellFormed.{IsWellFormed};
ghost use Rattle.c99_tree.specs.declared.unit.Unit.{Unit as CUnit};
ghost use Rattle.c99_tree.specs.Storage.{ring_storage, storage_of};

/// Each operator gives what specs/OperatorRows.antt says, after as many operators.
pub fn operators_give()
    ensures { AreRight probe probe_statics operator_rows }
{}

/// Operands are promoted and converted, unsigned results wrap, and casts convert, as specs/ConversionRows.antt says.
pub fn conversions_give()
    ensures { AreRight probe probe_statics conversion_rows }
{}

/// Each kind of Undefined is met where specs/UndefinedRows.antt says, and not beside it.
pub fn undefined_is_met()
    ensures { AreRight probe probe_statics undefined_rows }
{}

/// Copies, rings, elements and members are read, and compound literals made, as specs/ObjectRows.antt says.
pub fn objects_give()
    ensures { AreRight probe probe_statics object_rows }
{}

/// The expressions of specs/UntypedRows.antt have no type.
pub fn these_have_no_type()
    ensures written { map (λ r. text r.1) untyped_rows ≡ map (λ r. r.0) untyped_rows }
    ensures types { map (λ r. type_of probe r.1) untyped_rows ≡ map (λ r. None) untyped_rows }
{}

/// Statements make the calls of specs/StepRows.antt, with converted arguments, or meet the kind that it says.
pub fn statements_call()
    ensures { AreCarriedOut probe probe_statics probe_row step_rows }
{}

/// Rings take as many bytes as specs/StorageRows.antt says; the whole program takes 23.
pub fn rings_take()
    ensures rings { map (λ r. ring_storage probe.types r.0) storage_rows ≡ map (λ r. r.1) storage_rows }
    ensures all { storage_of probe ≡ 23 }
{}

/// A well-formed unit breaks no rule, and each rule refuses a unit of specs/RefusedUnits.antt, which keeps all the
/// others. An expression without a type breaks also the rule of the place where it stands.
pub fn each_rule_refuses()
    ensures kept { (u : CUnit) → IsWellFormed u → broken u ≡ [] }
    ensures refused { map broken refused_units ≡ rules_broken }
{}

/// The programs of specs/Programs.antt have the texts and the totals that it says, are well formed, and make its calls or
/// stop where it says.
pub fn programs_work()
    ensures heater { HeaterWorks }
    ensures empty { EmptyWorks }
    ensures door { DoorWorks }
    ensures counter { CounterWorks }
    ensures old_counter { OldCounterWorks }
    ensures pair { PairWorks }
    ensures square { SquareWorks }
    ensures least { LeastWorks }
    ensures constants { ConstantsWorks }
    ensures picker { PickerWorks }
{}
