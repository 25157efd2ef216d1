// Texts, and what their specifications hold.
ghost use Rattle.std.specs.Prelude.{◌≤◌, IfOk};
ghost use Rattle.spec_text.specs.Extent.{item_count, list_count, nesting};
ghost use Rattle.spec_text.specs.Form.{form_of};
ghost use Rattle.spec_text.specs.KeepsTable.{KeepsTable};

use crate::spec_over;
use spec_text::{Surface, declarations, trees};
use std::alloc::Global;
use std::test::Fail;
use stream_core::{LibForm, Node, Spec};
use stream_types::{Scalar, Ty};
use type_check::check_types;

// The surface of a text without a fault of brackets and forms.
fn surface(alloc: Global, text: &str) -> Result<Surface, Fail>
    ensures { IfOk result (λ s. KeepsTable s × (nesting (form_of s) ≤ 64) × (list_count (form_of s) ≤ 524288) × (item_count (form_of s) ≤ 1048576)) }
{
    let Ok(forest) = trees(alloc, text.as_bytes()) else {
        return Err(Fail::from("brackets"));
    };
    let Ok(surface) = declarations(alloc, &forest) else {
        return Err(Fail::from("forms"));
    };
    Ok(surface)
}

// The specification of a text without faults.
fn read(alloc: Global, text: &str) -> Result<Spec, Fail> {
    let surface = surface(alloc, text)?;
    let Ok(types) = check_types(alloc, &surface) else {
        return Err(Fail::from("types"));
    };
    let Ok(spec) = spec_over(alloc, &surface, types) else {
        return Err(Fail::from("memory"));
    };
    Ok(spec)
}

#[test]
fn forms_are_numbered_in_text_order(rt: HostRuntime) -> Result<(), Fail> {
    let spec = read(
        rt.alloc(),
        "(spec t (extern x Bool) (observer o (since (once x) (yesterday (once x)))))",
    )?;
    assert_eq!(rt; spec.libs().len(), 4);
    assert!(rt; matches!(spec.libs()[0].form, LibForm::Since));
    assert!(rt; matches!(spec.libs()[1].form, LibForm::Once));
    assert!(rt; matches!(spec.libs()[2].form, LibForm::Yesterday));
    assert!(rt; matches!(spec.libs()[3].form, LibForm::Once));
    assert_eq!(rt; spec.libs()[0].at, 36);
    assert_eq!(rt; spec.libs()[3].at, 63);
    assert_eq!(rt; spec.observers().len(), 1);
    let root = spec.observers()[0].root.expr;
    assert!(rt; root.0 < spec.nodes());
    assert!(rt; matches!(*spec.node(root), Node::Lib(0)));
    Ok(())
}

#[test]
fn members_are_named_by_their_numbers(rt: HostRuntime) -> Result<(), Fail> {
    let spec = read(
        rt.alloc(),
        "(spec t (struct P (x Int8) (y Bool)) (extern p P) (observer o (field p y)))",
    )?;
    assert_eq!(rt; spec.observers().len(), 1);
    assert_eq!(rt; spec.observers()[0].root.ty, Ty::Scalar(Scalar::Bool));
    let value = spec.observers()[0].root.expr;
    assert!(rt; value.0 < spec.nodes());
    assert!(rt;
        matches!(
            *spec.node(value),
            Node::Field {
                of: Ty::Struct(0),
                member: 1,
                ..
            }
        )
    );
    Ok(())
}

#[test]
fn equal_expressions_share_their_nodes(rt: HostRuntime) -> Result<(), Fail> {
    let spec = read(
        rt.alloc(),
        "(spec s (extern x Word8) (trigger t true (+ x x) (+ x x)))",
    )?;
    assert_eq!(rt; spec.nodes(), 3);
    assert_eq!(rt; spec.triggers().len(), 1);
    let args = spec.triggers()[0].args.as_slice();
    assert_eq!(rt; args.len(), 2);
    assert_eq!(rt; args[0].expr, args[1].expr);
    Ok(())
}
