// Two worked specifications, and the events that their definitions give by hand.
ghost use Rattle.std.specs.Prelude.{◌≡◌, ◌+◌, ◌<◌, ◌≤◌, ◌++◌, [], ◌∷◌, length};
ghost use Rattle.std.specs.List.{AllByRecursion};
ghost use Rattle.stream_core.specs.Parts.{parts};
ghost use Rattle.stream_core.specs.Lower.{lowered_spec};
ghost use Rattle.stream_core.specs.Stored.{HasRoom, with_item};
ghost use Rattle.stream_core.specs.Term.{trees};
ghost use Rattle.stream_types.specs.Types.{AreWords};
ghost use Rattle.stream_core.specs.Eval.{row_leaves};
ghost use Rattle.stream_core.specs.Meaning.{closed_spec};
ghost use Rattle.recursion_check.specs.TestSpecs.{with_node};
ghost use Rattle.stream_interp.specs.TestSpecs.{counter, two_streams};

use crate::{Monitor, Who};
use recursion_check::sound;
use sm_io::{Name, Seq, Steps};
use std::alloc::Global;
use std::marker::Brand;
use std::process::Abort;
use std::sync::ledger::{Blank, Ledger};
use stream_core::{
    ExternItem, Item, Node, NodeId, ObserverItem, Root, Spec, StreamItem, TriggerItem,
};
use stream_lib::{Plain, lower};
use stream_types::{Op2, Scalar, Ty, Types};

const BOOL: Ty = Ty::Scalar(Scalar::Bool);

const WORD8: Ty = Ty::Scalar(Scalar::Word8);

fn root(i: usize, ty: Ty) -> Root
    ensures { result ≡ record { expr = i; ty = ty; at = 9 } }
{
    Root {
        expr: NodeId(i),
        ty,
        at: 9,
    }
}

// Makes specifications and runs them, and ends the test where there is no memory.
#[derive(Drop)]
struct Maker<'a, R: Abort> {
    rt: &'a R,
    alloc: Global,
}

impl<R: Abort> Maker<'_, R> {
    // A name of one small letter.
    fn letter(&self, byte: u8) -> Name
        requires low { 97 ≤ byte }
        requires high { byte ≤ 122 }
        ensures { result ≡ byte ∷ [] }
    {
        Name::new(Vec::from_slice(self.alloc, &[byte]).expect(self.rt, "memory"))
    }

    // Adds a node that isn't there yet.
    fn put(&self, spec: &mut Spec, node: Node)
        requires { AllByRecursion (λ j. j < length spec.old.nodes) (parts node) }
        ensures { spec.new ≡ with_node spec.old node }
    {
        let before = spec.nodes();
        let id = spec.place(node).expect(self.rt, "memory");
        assert!(self.rt; id.0 == before);
    }

    fn add(&self, spec: &mut Spec, item: Item)
        requires { HasRoom spec.old item }
        ensures { spec.new ≡ with_item spec.old item }
    {
        spec.add(item).expect(self.rt, "memory");
    }

    fn stream(&self, letter: u8, init: &[u64], expr: usize) -> Item
        requires low { 97 ≤ letter }
        requires high { letter ≤ 122 }
        ensures { result ≡ Item.Stream (record { name = letter ∷ []; ty = WORD8; init = init.now; expr = expr; at = 9 }) }
    {
        Item::Stream(StreamItem {
            name: self.letter(letter),
            ty: WORD8,
            init: Seq::of(Vec::from_slice(self.alloc, init).expect(self.rt, "memory")),
            expr: NodeId(expr),
            at: 9,
        })
    }

    fn observer(&self, letter: u8, expr: usize) -> Item
        requires low { 97 ≤ letter }
        requires high { letter ≤ 122 }
        ensures { result ≡ Item.Observer (record { name = letter ∷ []; root = record { expr = expr; ty = WORD8; at = 9 } }) }
    {
        Item::Observer(ObserverItem {
            name: self.letter(letter),
            root: root(expr, WORD8),
        })
    }

    fn counter(&self) -> Spec
        ensures { result ≡ counter }
    {
        let mut spec = Spec::new(self.alloc, self.letter(b'c'), Types::new(self.alloc));
        self.put(&mut spec, Node::Stream(0));
        self.put(&mut spec, Node::Lit(Scalar::Word8, 1));
        self.put(
            &mut spec,
            Node::Bin(Op2::Add, Scalar::Word8, NodeId(0), NodeId(1)),
        );
        self.add(&mut spec, self.stream(b'n', &[254], 2));
        self.add(&mut spec, self.observer(b'o', 0));
        spec
    }

    fn extern_of(&self, letter: u8, ty: Ty) -> Item
        requires low { 97 ≤ letter }
        requires high { letter ≤ 122 }
        ensures { result ≡ Item.Extern (record { name = letter ∷ []; ty = ty }) }
    {
        Item::Extern(ExternItem {
            name: self.letter(letter),
            ty,
        })
    }

    // (trigger a b c d)
    fn call(&self) -> Item
        ensures { result ≡ Item.Trigger (record { name = 97 ∷ []; guard = record { expr = 0; ty = BOOL; at = 9 }; args = record { expr = 1; ty = WORD8; at = 9 } ∷ record { expr = 2; ty = WORD8; at = 9 } ∷ [] }) }
    {
        let mut args = Seq::new(self.alloc);
        args.push(root(1, WORD8)).expect(self.rt, "memory");
        args.push(root(2, WORD8)).expect(self.rt, "memory");
        Item::Trigger(TriggerItem {
            name: self.letter(b'a'),
            guard: root(0, BOOL),
            args,
        })
    }

    fn two_streams(&self) -> Spec
        ensures { result ≡ two_streams }
    {
        let mut spec = Spec::new(self.alloc, self.letter(b'g'), Types::new(self.alloc));
        self.put(&mut spec, Node::Extern(0));
        self.put(&mut spec, Node::Extern(1));
        self.put(&mut spec, Node::Stream(0));
        self.put(&mut spec, Node::Stream(1));
        self.put(
            &mut spec,
            Node::Bin(Op2::Add, Scalar::Word8, NodeId(2), NodeId(1)),
        );
        self.add(&mut spec, self.extern_of(b'b', BOOL));
        self.add(&mut spec, self.extern_of(b'c', WORD8));
        self.add(&mut spec, self.stream(b'd', &[0], 1));
        self.add(&mut spec, self.stream(b'e', &[7, 9], 4));
        self.add(&mut spec, self.call());
        self.add(&mut spec, self.observer(b'f', 3));
        spec
    }

    // A step without a hazard.
    fn takes<L: Ledger>(&self, monitor: &mut Monitor, row: &[u64], steps: &mut Steps<L>)
        requires { AreWords (row_leaves (closed_spec monitor.old.spec)) row.now }
        ensures { monitor.new.spec ≡ monitor.old.spec }
    {
        assert!(self.rt; monitor.step(row, steps).is_ok());
    }

    // These are the last step's events: whose each is, and its words.
    fn shows(&self, monitor: &Monitor, wanted: &[(Who, &[u64])]) {
        let events = monitor.events();
        assert_eq!(self.rt; events.len(), wanted.len());
        for (i, (who, words)) in wanted.iter().enumerate() {
            assert!(self.rt; i < events.len());
            assert!(self.rt; events.who(i) == *who);
            assert_eq!(self.rt; events.words(i), *words);
        }
    }
}

// The counter goes from 254 over 255 to 0.
fn counts<R: Abort, L: Ledger>(m: &Maker<R>, plain: &Plain, blank: Blank)
    requires spec { trees plain.now ≡ lowered_spec (trees counter) }
    requires name { blank.name ≡ L.name }
    requires parts { blank.parts ≡ L.parts }
    requires one { blank.parts ≡ 1 }
{
    let mut steps: Steps<L> = Steps::new(blank);
    let mut monitor = Monitor::start(m.alloc, plain).expect(m.rt, "memory");
    m.shows(&monitor, &[]);
    m.takes(&mut monitor, &[], &mut steps);
    m.shows(&monitor, &[(Who::Observer(0), &[254])]);
    m.takes(&mut monitor, &[], &mut steps);
    m.shows(&monitor, &[(Who::Observer(0), &[255])]);
    m.takes(&mut monitor, &[], &mut steps);
    m.shows(&monitor, &[(Who::Observer(0), &[0])]);
}

// d is the last c, e goes 7, 9, and then the sum of c and d two steps before; where b holds, a is called with c and d.
fn calls<R: Abort, L: Ledger>(m: &Maker<R>, plain: &Plain, blank: Blank)
    requires spec { trees plain.now ≡ lowered_spec (trees two_streams) }
    requires name { blank.name ≡ L.name }
    requires parts { blank.parts ≡ L.parts }
    requires one { blank.parts ≡ 1 }
{
    let mut steps: Steps<L> = Steps::new(blank);
    let mut monitor = Monitor::start(m.alloc, plain).expect(m.rt, "memory");
    m.takes(&mut monitor, &[1, 5], &mut steps);
    m.shows(
        &monitor,
        &[(Who::Trigger(0), &[5, 0]), (Who::Observer(0), &[7])],
    );
    m.takes(&mut monitor, &[0, 6], &mut steps);
    m.shows(&monitor, &[(Who::Observer(0), &[9])]);
    m.takes(&mut monitor, &[1, 2], &mut steps);
    m.shows(
        &monitor,
        &[(Who::Trigger(0), &[2, 6]), (Who::Observer(0), &[5])],
    );
    m.takes(&mut monitor, &[1, 250], &mut steps);
    m.shows(
        &monitor,
        &[(Who::Trigger(0), &[250, 2]), (Who::Observer(0), &[11])],
    );
    m.takes(&mut monitor, &[0, 10], &mut steps);
    m.shows(&monitor, &[(Who::Observer(0), &[8])]);
}

#[test]
fn a_counter_wraps(rt: HostRuntime) {
    let alloc = rt.alloc();
    let m = Maker { rt: &rt, alloc };
    let Ok(checked) = sound(alloc, m.counter()) else {
        panic!(rt; "a sound specification");
    };
    let plain = lower(alloc, &checked).expect(&rt, "memory");
    counts::<HostRuntime, Brand>(&m, &plain, Blank::new(1));
}

#[test]
fn a_trigger_has_its_arguments(rt: HostRuntime) {
    let alloc = rt.alloc();
    let m = Maker { rt: &rt, alloc };
    let Ok(checked) = sound(alloc, m.two_streams()) else {
        panic!(rt; "a sound specification");
    };
    let plain = lower(alloc, &checked).expect(&rt, "memory");
    calls::<HostRuntime, Brand>(&m, &plain, Blank::new(1));
}
