// Worked specifications, and the programs that they give.
ghost use Rattle.std.specs.Prelude.{◌≡◌, IfOk};
ghost use Rattle.sm_io.specs.Names.{IsNameBytes};
ghost use Rattle.stream_core.specs.WellTyped.{WellTyped};
ghost use Rattle.ring_codegen.specs.WorkedSpecs.{bare, bare_trigger, bool_item, empty, door, doors};

use crate::generate;
use c99_tree::{CExpr, CProto, CScalar, CStmt, CTy, CVar, Unit};
use recursion_check::sound;
use sm_io::{Name, Seq};
use std::alloc::{AllocError, Global};
use std::process::Abort;
use std::test::Fail;
use stream_core::{ExternItem, Item, Node, NodeId, Root, Spec, TriggerItem};
use stream_lib::{Plain, lower};
use stream_types::{Scalar, Ty, Types};

const BOOL: Ty = Ty::Scalar(Scalar::Bool);

fn name(alloc: Global, text: &str) -> Result<Name, AllocError>
    requires { IsNameBytes text.now }
    ensures { IfOk result (λ name. name ≡ text.now) }
{
    Ok(Name::new(Vec::from_slice(alloc, text.as_bytes())?))
}

fn extern_item(alloc: Global, text: &str) -> Result<Item, AllocError>
    requires { IsNameBytes text.now }
    ensures { IfOk result (λ item. item ≡ Item.Extern (bool_item text.now)) }
{
    Ok(Item::Extern(ExternItem {
        name: name(alloc, text)?,
        ty: BOOL,
    }))
}

fn trigger_item(alloc: Global, text: &str, guard: NodeId, at: u64) -> Result<Item, AllocError>
    requires { IsNameBytes text.now }
    ensures { IfOk result (λ item. item ≡ Item.Trigger (bare_trigger (bare text.now guard at))) }
{
    let guard = Root {
        expr: guard,
        ty: BOOL,
        at,
    };
    Ok(Item::Trigger(TriggerItem {
        name: name(alloc, text)?,
        guard,
        args: Seq::new(alloc),
    }))
}

fn empty_spec(alloc: Global) -> Result<Spec, AllocError>
    ensures { IfOk result (λ spec. spec ≡ empty) }
{
    Ok(Spec::new(alloc, name(alloc, "a")?, Types::new(alloc)))
}

fn door_spec(alloc: Global) -> Result<Spec, AllocError>
    ensures { IfOk result (λ spec. spec ≡ door) }
{
    let mut spec = Spec::new(alloc, name(alloc, "door")?, Types::new(alloc));
    let ajar = spec.place(Node::Extern(0))?;
    spec.add(extern_item(alloc, "ajar")?)?;
    spec.add(trigger_item(alloc, "chime", ajar, 49)?)?;
    Ok(spec)
}

// One trigger more, of the same name.
fn doors_spec(alloc: Global) -> Result<Spec, AllocError>
    ensures { IfOk result (λ spec. spec ≡ doors) }
{
    let mut spec = door_spec(alloc)?;
    spec.add(trigger_item(alloc, "chime", NodeId(0), 72)?)?;
    Ok(spec)
}

// The specification without library forms, of which it has none.
fn plain(rt: &impl Abort, alloc: Global, spec: Spec) -> Result<Plain, AllocError>
    requires { WellTyped spec }
{
    let Ok(checked) = sound(alloc, spec) else {
        panic!(rt; "a sound specification");
    };
    lower(alloc, &checked)
}

// The unit has this name and storage, meets no operator, and has no types and rings.
fn is_small(unit: &Unit, name: &[u8], storage: u32) -> bool {
    unit.name.bytes() == name
        && unit.storage == storage
        && unit.need == 0
        && unit.types.as_slice().is_empty()
        && unit.rings.as_slice().is_empty()
}

// `extern bool x;`
fn is_bool(var: &CVar, name: &[u8]) -> bool {
    var.name.bytes() == name && matches!(var.ty, CTy::Scalar(CScalar::Bool))
}

// `void h(void);`
fn is_bare(proto: &CProto, name: &[u8]) -> bool {
    proto.name.bytes() == name && proto.params.as_slice().is_empty()
}

// `cp_c_x = x;`
fn is_copy(statement: &CStmt, x: &[u8]) -> bool {
    match statement {
        CStmt::Copy { name } => name.bytes() == x,
        _ => false,
    }
}

// `if (cp_c_x) { h(); }`
fn is_call(statement: &CStmt, h: &[u8], x: &[u8]) -> bool {
    match statement {
        CStmt::Call {
            handler,
            guard: CExpr::Copy(name),
            args,
        } => handler.bytes() == h && name.bytes() == x && args.as_slice().is_empty(),
        _ => false,
    }
}

#[test]
fn nothing_is_sampled_and_called(rt: HostRuntime) -> Result<(), Fail> {
    let alloc = rt.alloc();
    let unit = generate(
        alloc,
        &plain(&rt, alloc, empty_spec(alloc)?)?,
        &name(alloc, "a")?,
    )?;
    assert!(rt; is_small(&unit, b"a", 0));
    assert!(rt; unit.externs.as_slice().is_empty());
    assert!(rt; unit.handlers.as_slice().is_empty());
    assert!(rt; unit.step.as_slice().is_empty());
    Ok(())
}

#[test]
fn a_door_chimes(rt: HostRuntime) -> Result<(), Fail> {
    let alloc = rt.alloc();
    let unit = generate(
        alloc,
        &plain(&rt, alloc, door_spec(alloc)?)?,
        &name(alloc, "door")?,
    )?;
    assert!(rt; is_small(&unit, b"door", 1));
    assert!(rt; matches!(unit.externs.as_slice(), [x] if is_bool(x, b"ajar")));
    assert!(rt; matches!(unit.handlers.as_slice(), [h] if is_bare(h, b"chime")));
    assert!(rt;
        matches!(unit.step.as_slice(), [a, b] if is_copy(a, b"ajar") && is_call(b, b"chime", b"ajar"))
    );
    Ok(())
}

// Two triggers of one name have one handler, which each of them calls.
#[test]
fn a_door_chimes_twice(rt: HostRuntime) -> Result<(), Fail> {
    let alloc = rt.alloc();
    let unit = generate(
        alloc,
        &plain(&rt, alloc, doors_spec(alloc)?)?,
        &name(alloc, "door")?,
    )?;
    assert!(rt; is_small(&unit, b"door", 1));
    assert!(rt; matches!(unit.handlers.as_slice(), [h] if is_bare(h, b"chime")));
    assert!(rt;
        matches!(unit.step.as_slice(), [a, b, c] if is_copy(a, b"ajar") && is_call(b, b"chime", b"ajar") && is_call(c, b"chime", b"ajar"))
    );
    Ok(())
}
