// What is true of the faults of every surface.
ghost use Rattle.std.specs.Prelude.{◌≡◌, ◌≢◌, ◌↔◌, Some, None};
ghost use Rattle.spec_text.specs.declared.surface.Surface.{Surface};
ghost use Rattle.spec_text.specs.WithoutPlaces.{SameButPlaces};
ghost use Rattle.type_check.specs.declared.fault.TypeFault.TheVariants.{Memory};
ghost use Rattle.type_check.specs.Checked.{type_fault};

/// Surfaces that are one but for places both have a fault, or neither has.
pub fn faults_depend_on_no_place()
    ensures { (s t : Surface) → SameButPlaces s t → (type_fault s ≡ None) ↔ (type_fault t ≡ None) }
{}

/// A surface's fault is never want of memory.
pub fn memory_is_no_fault_of_a_text()
    ensures { (s : Surface) → type_fault s ≢ Some Memory }
{}
