// From a text to the specification that it stands for.
ghost use Rattle.std.specs.Prelude.{◌≡◌, ℕ, List, MatchOption, Some, None};
ghost use Rattle.stream_core.specs.Value.{SpecValue};
ghost use Rattle.stream_core.specs.Term.{trees};
ghost use Rattle.tool_top.specs.declared.outcome.Refusal.{Refusal as RefusalValue};
ghost use Rattle.spec_text.specs.declared.surface.Surface.{Surface};
ghost use Rattle.tool_top.specs.declared.outcome.Outcome.TheVariants.{Refused};
ghost use Rattle.tool_top.specs.Analysis.{at_place, nowhere, stop_of_scan, stop_of_shape, stop_of_types, stop_of_soundness, ScansTo, ShapesTo, TypesTo, Analyses, Means, HasFirstFault};

use crate::outcome::{Outcome, Refusal, RefusalKind};
use recursion_check::{Sound, SoundFault, sound};
use spec_forest::text_has_one_forest;
use spec_text::{
    Forest, ScanFault, ShapeFault, Surface, declarations, forest_has_one_surface, trees,
};
use std::alloc::Global;
use stream_core::Spec;
use typing::{TypeFault, type_all};

/// A refusal that tells no place.
pub fn nowhere(kind: RefusalKind) -> Outcome
    ensures { result ≡ Refused (nowhere kind) }
{
    Outcome::Refused(Refusal {
        kind,
        item: 0,
        at: 0,
    })
}

// A refusal at a place.
fn at_place(kind: RefusalKind, at: u64) -> Outcome
    ensures { result ≡ Refused (at_place kind at) }
{
    Outcome::Refused(Refusal { kind, item: 0, at })
}

fn stop_of_scan(fault: ScanFault) -> Outcome
    ensures { result ≡ stop_of_scan fault }
{
    match fault {
        ScanFault::TextTooLong => nowhere(RefusalKind::TextTooLong),
        ScanFault::BadByte(at) => at_place(RefusalKind::BadByte, at),
        ScanFault::Unbalanced(at) => at_place(RefusalKind::Unbalanced, at),
        ScanFault::TooDeep(at) => at_place(RefusalKind::TooDeep, at),
        ScanFault::Memory => Outcome::NoMemory,
    }
}

fn stop_of_shape(fault: ShapeFault) -> Outcome
    ensures { result ≡ stop_of_shape fault }
{
    match fault {
        ShapeFault::BadForm(at) => at_place(RefusalKind::BadForm, at),
        ShapeFault::BadName(at) => at_place(RefusalKind::BadName, at),
        ShapeFault::BadLiteral(at) => at_place(RefusalKind::BadLiteral, at),
        ShapeFault::Memory => Outcome::NoMemory,
    }
}

fn stop_of_types(fault: TypeFault) -> Outcome
    ensures { result ≡ stop_of_types fault }
{
    match fault {
        TypeFault::Redeclared(at) => at_place(RefusalKind::Redeclared, at),
        TypeFault::Unknown(at) => at_place(RefusalKind::Unknown, at),
        TypeFault::TypeClash(at) => at_place(RefusalKind::TypeClash, at),
        TypeFault::NestedArray(at) => at_place(RefusalKind::NestedArray, at),
        TypeFault::TypeTooWide(at) => at_place(RefusalKind::TypeTooWide, at),
        TypeFault::DropOfNoBuffer(at) => at_place(RefusalKind::DropOfNoBuffer, at),
        TypeFault::DropTooFar(at) => at_place(RefusalKind::DropTooFar, at),
        TypeFault::Memory => Outcome::NoMemory,
    }
}

fn stop_of_soundness(fault: SoundFault) -> Outcome
    ensures { result ≡ stop_of_soundness fault }
{
    match fault {
        SoundFault::Cycle(at) => at_place(RefusalKind::Cycle, at),
        SoundFault::TooManyDecls => nowhere(RefusalKind::TooManyDecls),
        SoundFault::TooManyWords => nowhere(RefusalKind::TooManyWords),
        SoundFault::RootTooHeavy(at) => at_place(RefusalKind::RootTooHeavy, at),
        SoundFault::SpecTooHeavy => nowhere(RefusalKind::SpecTooHeavy),
        SoundFault::Memory => Outcome::NoMemory,
    }
}

fn scanned(alloc: Global, text: &[u8]) -> Result<Forest, Outcome>
    ensures { ScansTo text.now result }
{
    match trees(alloc, text) {
        Ok(forest) => Ok(forest),
        Err(fault) => Err(stop_of_scan(fault)),
    }
}

fn shaped(alloc: Global, text: &[u8]) -> Result<Surface, Outcome>
    ensures { ShapesTo text.now result }
{
    let forest = match scanned(alloc, text) {
        Ok(forest) => forest,
        Err(stop) => return Err(stop),
    };
    match declarations(alloc, &forest) {
        Ok(surface) => Ok(surface),
        Err(fault) => Err(stop_of_shape(fault)),
    }
}

fn typed(alloc: Global, text: &[u8]) -> Result<Spec, Outcome>
    ensures { TypesTo text.now result }
{
    let surface = match shaped(alloc, text) {
        Ok(surface) => surface,
        Err(stop) => return Err(stop),
    };
    match type_all(alloc, &surface) {
        Ok(spec) => Ok(spec),
        Err(fault) => Err(stop_of_types(fault)),
    }
}

/// The sound specification that a text stands for, or the text's first fault.
pub fn analyse(alloc: Global, text: &[u8]) -> Result<Sound, Outcome>
    ensures { Analyses text.now result }
{
    let spec = match typed(alloc, text) {
        Ok(spec) => spec,
        Err(stop) => return Err(stop),
    };
    match sound(alloc, spec) {
        Ok(sound) => Ok(sound),
        Err((_, fault)) => Err(stop_of_soundness(fault)),
    }
}

/// A text has one first fault, and none where it stands for a specification, whose trees are then one.
pub fn first_fault_is_one()
    ensures sound { (text : List ℕ) (s : SpecValue) (a : RefusalValue) → Means text s → HasFirstFault text a → ⊥ }
    ensures one { (text : List ℕ) (a b : RefusalValue) → HasFirstFault text a → HasFirstFault text b → a ≡ b }
    ensures meaning { (text : List ℕ) (s t : SpecValue) → Means text s → Means text t → trees s ≡ trees t }
{
    text_has_one_forest();
    forest_has_one_surface();
}
