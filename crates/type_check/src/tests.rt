// Texts, with the first fault of their names and types, or their type list.
ghost use Rattle.std.specs.Prelude.{◌≤◌, IfOk};
ghost use Rattle.spec_text.specs.Extent.{item_count, list_count, nesting};
ghost use Rattle.spec_text.specs.Form.{form_of};
ghost use Rattle.spec_text.specs.KeepsTable.{KeepsTable};

use crate::{TypeFault, check_types};
use spec_text::{Surface, declarations, trees};
use std::alloc::Global;
use std::test::Fail;
use stream_types::{Scalar, Ty, TypeEntry};

// The surface of a text without a fault of brackets and forms.
fn surface(alloc: Global, text: &str) -> Result<Surface, Fail>
    ensures { IfOk result (λ s. KeepsTable s × (nesting (form_of s) ≤ 64) × (list_count (form_of s) ≤ 524288) × (item_count (form_of s) ≤ 1048576)) }
{
    let Ok(forest) = trees(alloc, text.as_bytes()) else {
        return Err(Fail::from("brackets"));
    };
    let Ok(surface) = declarations(alloc, &forest) else {
        return Err(Fail::from("forms"));
    };
    Ok(surface)
}

// The kind of a text's fault, and its place.
fn fault(alloc: Global, text: &str) -> Result<(&'static str, u64), Fail> {
    let surface = surface(alloc, text)?;
    Ok(match check_types(alloc, &surface) {
        Ok(_) => ("", 0),
        Err(TypeFault::Redeclared(at)) => ("Redeclared", at),
        Err(TypeFault::Unknown(at)) => ("Unknown", at),
        Err(TypeFault::TypeClash(at)) => ("TypeClash", at),
        Err(TypeFault::NestedArray(at)) => ("NestedArray", at),
        Err(TypeFault::TypeTooWide(at)) => ("TypeTooWide", at),
        Err(TypeFault::DropOfNoBuffer(at)) => ("DropOfNoBuffer", at),
        Err(TypeFault::DropTooFar(at)) => ("DropTooFar", at),
        Err(TypeFault::Memory) => ("Memory", 0),
    })
}

const FAULTS: [(&str, &str, u64); 34] = [
    (
        "(spec f (extern x Bool) (def x Bool true))",
        "Redeclared",
        29,
    ),
    ("(spec a (struct P (x Int8) (x Int8)))", "Redeclared", 28),
    (
        "(spec m (extern a Int8) (trigger t true a) (trigger t true 1:Int16))",
        "Redeclared",
        52,
    ),
    (
        "(spec2 m (extern a Int8) (trigger t true a) (trigger t true 1:Int16))",
        "TypeClash",
        44,
    ),
    (
        "(spec2 m (extern a Int8) (trigger t true a) (trigger t true 1:Int8))",
        "",
        0,
    ),
    (
        "(spec2 m (extern a Int8) (trigger t true a) (trigger t true))",
        "TypeClash",
        44,
    ),
    ("(spec t (trigger a b))", "Unknown", 19),
    (
        "(spec d (stream s Word8 (1:Word8) (drop 1 s)))",
        "DropTooFar",
        34,
    ),
    ("(spec d (stream s Word8 (1:Word8) (drop 0 s)))", "", 0),
    (
        "(spec d (extern s Word8) (observer o (drop 0 s)))",
        "DropOfNoBuffer",
        37,
    ),
    (
        "(spec d (observer o (drop 0 s)) (def s Word8 1:Word8))",
        "DropOfNoBuffer",
        20,
    ),
    (
        "(spec t (extern x Int8) (trigger a (+ x 1:Int16)))",
        "TypeClash",
        35,
    ),
    ("(spec t (trigger a 1:Int8))", "TypeClash", 8),
    ("(spec t (trigger a x) (extern x Bool))", "", 0),
    (
        "(spec t (trigger a x) (trigger u 1:Int8) (extern x Q))",
        "TypeClash",
        22,
    ),
    ("(spec t (trigger a x) (extern x Q))", "Unknown", 32),
    (
        "(spec2 t (trigger a true x) (trigger a true 1:Int8) (extern x Q))",
        "Unknown",
        62,
    ),
    (
        "(spec2 t (trigger a true x) (trigger a true) (extern x Q))",
        "TypeClash",
        28,
    ),
    ("(spec a (struct P (x P)))", "Unknown", 21),
    ("(spec a (extern p P) (struct P (x Int8)))", "Unknown", 18),
    (
        "(spec a (extern p (array (array Int8 2) 2)))",
        "NestedArray",
        18,
    ),
    (
        "(spec a (struct P (x (array Word8 1024)) (y Bool)))",
        "TypeTooWide",
        8,
    ),
    (
        "(spec a (struct P (x Int8) (y Int8)) (extern p (array P 513)))",
        "TypeTooWide",
        47,
    ),
    (
        "(spec a (observer o (array (array true))))",
        "NestedArray",
        20,
    ),
    ("(spec a (observer o (array true 1:Int8)))", "TypeClash", 20),
    ("(spec a (observer o (field true x)))", "TypeClash", 20),
    (
        "(spec a (struct P (x Bool)) (observer o (field (record P true) y)))",
        "Unknown",
        63,
    ),
    (
        "(spec a (struct P (x Bool)) (observer o (record P 1:Int8)))",
        "TypeClash",
        40,
    ),
    (
        "(spec a (struct P (x Bool)) (observer o (record P true true)))",
        "TypeClash",
        40,
    ),
    ("(spec a (observer o (record P true)))", "Unknown", 28),
    ("(spec a (observer o (cast Bool true)))", "TypeClash", 20),
    (
        "(spec a (observer o (majority true 1:Int8)))",
        "TypeClash",
        20,
    ),
    ("(spec a (stream s Int8 (1:Int16) 1:Int8))", "TypeClash", 8),
    (
        "(spec a (stream s (array Bool 2) ((array true false)) (if true s s)))",
        "",
        0,
    ),
];

#[test]
fn first_faults(rt: HostRuntime) -> Result<(), Fail> {
    let alloc = rt.alloc();
    for (text, kind, place) in FAULTS {
        let told = fault(alloc, text)?;
        assert_eq!(rt; told.0, kind, "{text}");
        assert_eq!(rt; told.1, place, "{text}");
    }
    Ok(())
}

// An array of Bool is met first, then one of a struct that ends later, which waits for it.
#[test]
fn types_in_order(rt: HostRuntime) -> Result<(), Fail> {
    let alloc = rt.alloc();
    let text =
        "(spec g (extern b (array Bool 2)) (observer o (index (array q q) i)) (struct Z (z Int8)) (struct P (x Int16) (y Z)) (def q P (record P 1:Int16 (record Z 1:Int8))) (extern p (array P 3)) (extern i Word32))";
    let surface = surface(alloc, text)?;
    let Ok(types) = check_types(alloc, &surface) else {
        return Err(Fail::from("refused"));
    };
    assert_eq!(rt; types.len(), 5);
    let bools = matches!(
        types.entry(0),
        TypeEntry::Array {
            elem: Ty::Scalar(Scalar::Bool),
            n: 2
        }
    );
    assert!(rt; bools);
    let waited = matches!(
        types.entry(3),
        TypeEntry::Array {
            elem: Ty::Struct(2),
            n: 2
        }
    );
    assert!(rt; waited);
    let last = matches!(
        types.entry(4),
        TypeEntry::Array {
            elem: Ty::Struct(2),
            n: 3
        }
    );
    assert!(rt; last);
    Ok(())
}
