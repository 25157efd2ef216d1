// Texts, with the first fault of their names and types.
ghost use Rattle.std.specs.Prelude.{◌≤◌, IfOk};
ghost use Rattle.spec_text.specs.Extent.{item_count, list_count, nesting};
ghost use Rattle.spec_text.specs.Form.{form_of};
ghost use Rattle.spec_text.specs.KeepsTable.{KeepsTable};

use crate::{TypeFault, type_all};
use spec_text::{Surface, declarations, trees};
use std::alloc::Global;
use std::test::Fail;

// The surface of a text without a fault of brackets and forms.
fn surface(alloc: Global, text: &str) -> Result<Surface, Fail>
    ensures { IfOk result (λ s. KeepsTable s × (nesting (form_of s) ≤ 64) × (list_count (form_of s) ≤ 524288) × (item_count (form_of s) ≤ 1048576)) }
{
    let Ok(forest) = trees(alloc, text.as_bytes()) else {
        return Err(Fail::from("brackets"));
    };
    let Ok(surface) = declarations(alloc, &forest) else {
        return Err(Fail::from("forms"));
    };
    Ok(surface)
}

// The kind of a text's fault, and its place.
fn fault(alloc: Global, text: &str) -> Result<(&'static str, u64), Fail> {
    let surface = surface(alloc, text)?;
    Ok(match type_all(alloc, &surface) {
        Ok(_) => ("", 0),
        Err(TypeFault::Redeclared(at)) => ("Redeclared", at),
        Err(TypeFault::Unknown(at)) => ("Unknown", at),
        Err(_) => ("another", 0),
    })
}

const FAULTS: [(&str, &str, u64); 6] = [
    (
        "(spec f (extern x Bool) (def x Bool true))",
        "Redeclared",
        29,
    ),
    ("(spec a (struct P (x Int8) (x Int8)))", "Redeclared", 28),
    (
        "(spec m (extern a Bool) (trigger t a) (trigger t a))",
        "Redeclared",
        47,
    ),
    (
        "(spec2 m (extern a Bool) (trigger t a) (trigger t a))",
        "",
        0,
    ),
    ("(spec t (trigger a b))", "Unknown", 19),
    ("(spec a)", "", 0),
];

#[test]
fn first_faults(rt: HostRuntime) -> Result<(), Fail> {
    let alloc = rt.alloc();
    for (text, kind, place) in FAULTS {
        let told = fault(alloc, text)?;
        assert_eq!(rt; told.0, kind, "{text}");
        assert_eq!(rt; told.1, place, "{text}");
    }
    Ok(())
}

// 'Door'.
#[test]
fn door(rt: HostRuntime) -> Result<(), Fail> {
    let alloc = rt.alloc();
    let text = "(spec door\n  (extern ajar Bool)\n  (trigger chime ajar))\n";
    let surface = surface(alloc, text)?;
    let Ok(spec) = type_all(alloc, &surface) else {
        return Err(Fail::from("refused"));
    };
    assert_eq!(rt; spec.name().bytes(), b"door".as_slice());
    assert_eq!(rt; spec.externs().len(), 1);
    assert_eq!(rt; spec.triggers().len(), 1);
    Ok(())
}
