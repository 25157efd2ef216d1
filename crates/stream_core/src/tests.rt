// A specification that is made by its calls.
ghost use Rattle.std.specs.Prelude.{◌≡◌, [], ◌∷◌, IfOk};
ghost use Rattle.sm_io.specs.Names.{IsNameBytes};
ghost use Rattle.stream_core.specs.Soundness.{HasNoCycle};
ghost use Rattle.stream_core.specs.Term.{defs_of};
ghost use Rattle.stream_core.specs.WellTyped.{WellTyped};

use crate::{
    DefItem, ExternItem, Item, LibForm, LibItem, Node, NodeId, ObserverItem, Root, Spec,
    StreamItem, TriggerItem,
};
use sm_io::{Name, Seq};
use std::alloc::{AllocError, Global};
use std::test::Fail;
use stream_types::{Op2, Scalar, Ty, Types};

const BOOL: Ty = Ty::Scalar(Scalar::Bool);

const WORD8: Ty = Ty::Scalar(Scalar::Word8);

fn name(alloc: Global, text: &str) -> Result<Name, AllocError>
    requires { IsNameBytes text.now }
    ensures { IfOk result (λ name. name ≡ text.now) }
{
    Ok(Name::new(Vec::from_slice(alloc, text.as_bytes())?))
}

// A node that is placed again keeps its number, and so does what is made of it.
#[test]
fn shared_nodes(rt: HostRuntime) -> Result<(), Fail> {
    let alloc = rt.alloc();
    let mut spec = Spec::new(alloc, name(alloc, "s")?, Types::new(alloc));
    spec.place(Node::Lit(Scalar::Bool, 1))?;
    let x = spec.place(Node::Extern(0))?;
    let first = spec.place(Node::Bin(Op2::Add, Scalar::Word8, x, x))?;
    let again = spec.place(Node::Extern(0))?;
    let second = spec.place(Node::Bin(Op2::Add, Scalar::Word8, again, again))?;
    assert_eq!(rt; spec.nodes(), 3);
    assert_eq!(rt; first, second);
    assert!(rt; matches!(spec.node(x), Node::Extern(0)));
    Ok(())
}

fn root(expr: NodeId) -> Root
    ensures { result.expr ≡ expr }
{
    Root {
        expr,
        ty: BOOL,
        at: 9,
    }
}

#[test]
fn externs_and_triggers(rt: HostRuntime) -> Result<(), Fail> {
    let alloc = rt.alloc();
    let mut spec = Spec::new(alloc, name(alloc, "s")?, Types::new(alloc));
    spec.add(Item::Extern(ExternItem {
        name: name(alloc, "x")?,
        ty: BOOL,
    }))?;
    spec.add(Item::Trigger(TriggerItem {
        name: name(alloc, "t")?,
        guard: root(NodeId(0)),
        args: Seq::new(alloc),
    }))?;
    assert_eq!(rt; spec.externs().len(), 1);
    assert_eq!(rt; spec.triggers().len(), 1);
    assert_eq!(rt; spec.name().bytes(), b"s".as_slice());
    assert_eq!(rt; spec.types().len(), 0);
    Ok(())
}

#[test]
fn streams_and_defs(rt: HostRuntime) -> Result<(), Fail> {
    let alloc = rt.alloc();
    let mut spec = Spec::new(alloc, name(alloc, "s")?, Types::new(alloc));
    spec.add(Item::Stream(StreamItem {
        name: name(alloc, "a")?,
        ty: BOOL,
        init: Seq::of(vec![in alloc; 0u64]?),
        expr: NodeId(0),
        at: 1,
    }))?;
    spec.add(Item::Def(DefItem {
        name: name(alloc, "b")?,
        ty: BOOL,
        expr: NodeId(0),
        at: 2,
    }))?;
    assert_eq!(rt; spec.streams().len(), 1);
    assert_eq!(rt; spec.defs().len(), 1);
    Ok(())
}

#[test]
fn observers_and_forms(rt: HostRuntime) -> Result<(), Fail> {
    let alloc = rt.alloc();
    let mut spec = Spec::new(alloc, name(alloc, "s")?, Types::new(alloc));
    spec.add(Item::Observer(ObserverItem {
        name: name(alloc, "c")?,
        root: root(NodeId(0)),
    }))?;
    spec.add(Item::Lib(LibItem {
        form: LibForm::Clock(2, 1),
        args: Seq::new(alloc),
        at: 4,
    }))?;
    assert_eq!(rt; spec.observers().len(), 1);
    assert_eq!(rt; spec.libs().len(), 1);
    Ok(())
}

fn typed_root(expr: NodeId, ty: Ty) -> Root
    ensures { result ≡ record { expr = expr; ty = ty; at = 9 } }
{
    Root { expr, ty, at: 9 }
}

// (trigger t GUARD FIRST SECOND)
fn trigger_over(
    alloc: Global,
    guard: NodeId,
    first: NodeId,
    second: NodeId,
) -> Result<TriggerItem, AllocError>
    ensures { IfOk result (λ t. t ≡ record { name = 116 ∷ []; guard = record { expr = guard; ty = BOOL; at = 9 }; args = record { expr = first; ty = WORD8; at = 9 } ∷ record { expr = second; ty = WORD8; at = 9 } ∷ [] }) }
{
    let t = name(alloc, "t")?;
    let args = vec![in alloc; typed_root(first, WORD8), typed_root(second, WORD8)]?;
    Ok(TriggerItem {
        name: t,
        guard: typed_root(guard, BOOL),
        args: Seq::of(args),
    })
}

// (extern x Word8) (trigger t true (+ x x) (+ x x))
fn shared_sums(alloc: Global) -> Result<Spec, AllocError>
    ensures typed { IfOk result (λ s. WellTyped s) }
    ensures no_cycle { IfOk result (λ s. HasNoCycle (defs_of s)) }
{
    let mut spec = Spec::new(alloc, name(alloc, "s")?, Types::new(alloc));
    let x_name = name(alloc, "x")?;
    spec.add(Item::Extern(ExternItem {
        name: x_name,
        ty: WORD8,
    }))?;
    let yes = spec.place(Node::Lit(Scalar::Bool, 1))?;
    let x = spec.place(Node::Extern(0))?;
    let first = spec.place(Node::Bin(Op2::Add, Scalar::Word8, x, x))?;
    let second = spec.place(Node::Bin(Op2::Add, Scalar::Word8, x, x))?;
    let trigger = trigger_over(alloc, yes, first, second)?;
    spec.add(Item::Trigger(trigger))?;
    Ok(spec)
}

// A shared node weighs at each use: 1 for the guard and 3 for each argument.
#[test]
fn shared_sums_weigh_seven(rt: HostRuntime) -> Result<(), Fail> {
    let spec = shared_sums(rt.alloc())?;
    assert_eq!(rt; spec.nodes(), 3);
    assert_eq!(rt; spec.weight(), 7);
    Ok(())
}
