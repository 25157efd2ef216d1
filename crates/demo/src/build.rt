// The specification of a demonstration.
ghost use Rattle.std.specs.Prelude.{◌≡◌, ◌<◌, ◌≤◌, ◌+◌, ◌∷◌, ◌++◌, ℕ, codes, decimal, length, IfOk, OnOk};
ghost use Rattle.std.specs.List.{range_with_len};
ghost use Rattle.stream_core.specs.Term.{trees};
ghost use Rattle.stream_core.specs.WellTyped.{WellTyped};
ghost use Rattle.demo.specs.Built.{IsBuilt};
ghost use Rattle.demo.specs.Demonstration.{ahead, demo_spec};

use itoa::Buffer;
use sm_io::{Name, Seq};
use std::alloc::{AllocError, Global};
use stream_core::{Item, Node, NodeId, Root, Spec, StreamItem, TriggerItem};
use stream_types::{Op2, Scalar, Ty, Types};

const BOOL: Ty = Ty::Scalar(Scalar::Bool);

const WORD32: Ty = Ty::Scalar(Scalar::Word32);

// A letter and a number.
fn numbered(alloc: Global, letter: u8, i: u32) -> Result<Name, AllocError>
    requires low { 97 ≤ letter }
    requires high { letter ≤ 122 }
    ensures { IfOk result (λ name. name ≡ letter ∷ decimal i) }
{
    let mut buffer = Buffer::new();
    let mut bytes = Vec::new(alloc);
    bytes.push(letter)?;
    bytes.extend_from_slice(buffer.format(i).as_bytes())?;
    Ok(Name::new(bytes))
}

// The first values of stream i.
fn first_values(alloc: Global, i: u32) -> Result<Seq<u64>, AllocError>
    requires { i < 1000 }
    ensures { IfOk result (λ words. words ≡ range_with_len i (ahead i + 1)) }
{
    let mut words = Vec::new(alloc);
    for n in i..i + i % 8 + 1 {
        words.push(u64::from(n))?;
    }
    Ok(Seq::of(words))
}

// Adds stream i.
fn add_stream(alloc: Global, spec: &mut Spec, i: u32) -> Result<(), AllocError>
    requires few { i < 1000 }
    requires room { length spec.old.streams ≤ 1000 }
    ensures { (k m : ℕ) → IsBuilt k i m spec.old → i < k → OnOk result (IsBuilt k (i + 1) m spec.new) }
{
    let name = numbered(alloc, b's', i)?;
    let init = first_values(alloc, i)?;
    let later = spec.place(Node::Drop {
        stream: i,
        k: i % 8,
    })?;
    let one = spec.place(Node::Lit(Scalar::Word32, 1))?;
    let expr = spec.place(Node::Bin(Op2::Add, Scalar::Word32, later, one))?;
    spec.add(Item::Stream(StreamItem {
        name,
        ty: WORD32,
        init,
        expr,
        at: 0,
    }))
}

// A part of a trigger, which has no place in a text.
fn root(expr: NodeId, ty: Ty) -> Root
    ensures { result ≡ record { expr = expr; ty = ty; at = 0 } }
{
    Root { expr, ty, at: 0 }
}

// Adds trigger i.
fn add_trigger(alloc: Global, spec: &mut Spec, i: u32) -> Result<(), AllocError>
    requires few { i < 1000 }
    requires room { length spec.old.triggers ≤ 1000 }
    ensures { (k n : ℕ) → IsBuilt k n i spec.old → i < k → OnOk result (IsBuilt k n (i + 1) spec.new) }
{
    let name = numbered(alloc, b'h', i)?;
    let value = spec.place(Node::Stream(i))?;
    let seven = spec.place(Node::Lit(Scalar::Word32, 7))?;
    let rest = spec.place(Node::Bin(Op2::Rem, Scalar::Word32, value, seven))?;
    let zero = spec.place(Node::Lit(Scalar::Word32, 0))?;
    let test = spec.place(Node::Bin(Op2::Eq, Scalar::Word32, rest, zero))?;
    let mut args = Seq::new(alloc);
    args.push(root(value, WORD32))?;
    spec.add(Item::Trigger(TriggerItem {
        name,
        guard: root(test, BOOL),
        args,
    }))
}

/// The specification of a demonstration of so many streams, from 1 to 1,000.
pub(crate) fn make_spec(alloc: Global, streams: u32) -> Result<Spec, AllocError>
    requires { streams ≤ 1000 }
    ensures trees { IfOk result (λ s. trees s ≡ demo_spec streams) }
    ensures typed { IfOk result WellTyped }
{
    let name = Name::new(Vec::from_slice(alloc, b"demo")?);
    let mut spec = Spec::new(alloc, name, Types::new(alloc));
    for i in 0..streams {
        add_stream(alloc, &mut spec, i)?;
    }
    for i in 0..streams {
        add_trigger(alloc, &mut spec, i)?;
    }
    Ok(spec)
}
