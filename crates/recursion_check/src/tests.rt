// Specifications made by hand, and what is answered of them.
ghost use Rattle.std.specs.Prelude.{◌≡◌, ◌+◌, ◌<◌, ◌≤◌, [], ◌∷◌, length};
ghost use Rattle.std.specs.List.{AllByRecursion};
ghost use Rattle.stream_core.specs.Parts.{parts};
ghost use Rattle.stream_core.specs.Stored.{HasRoom, with_item};
ghost use Rattle.recursion_check.specs.TestSpecs.{bare_trigger, bool_def, doubled, empty, four_defs, many, sums, with_node};

use crate::{Sound, SoundFault, sound};
use sm_io::{Name, Seq};
use std::alloc::Global;
use std::process::Abort;
use stream_core::{DefItem, ExternItem, Item, Node, NodeId, Root, Spec, TriggerItem};
use stream_types::{Op2, Scalar, Ty, Types};

const BOOL: Ty = Ty::Scalar(Scalar::Bool);

const WORD8: Ty = Ty::Scalar(Scalar::Word8);

// Makes specifications, and ends the test where there is no memory.
#[derive(Drop)]
struct Maker<'a, R: Abort> {
    rt: &'a R,
    alloc: Global,
}

impl<R: Abort> Maker<'_, R> {
    // A name of one small letter.
    fn letter(&self, byte: u8) -> Name
        requires low { 97 ≤ byte }
        requires high { byte ≤ 122 }
        ensures { result ≡ byte ∷ [] }
    {
        Name::new(Vec::from_slice(self.alloc, &[byte]).expect(self.rt, "memory"))
    }

    fn empty(&self) -> Spec
        ensures { result ≡ empty }
    {
        Spec::new(self.alloc, self.letter(b's'), Types::new(self.alloc))
    }

    // Adds a node that isn't there yet.
    fn put(&self, spec: &mut Spec, node: Node)
        requires { AllByRecursion (λ j. j < length spec.old.nodes) (parts node) }
        ensures { spec.new ≡ with_node spec.old node }
    {
        let before = spec.nodes();
        let id = spec.place(node).expect(self.rt, "memory");
        assert!(self.rt; id.0 == before);
    }

    fn add(&self, spec: &mut Spec, item: Item)
        requires { HasRoom spec.old item }
        ensures { spec.new ≡ with_item spec.old item }
    {
        spec.add(item).expect(self.rt, "memory");
    }

    fn bool_def(&self, letter: u8, expr: usize, at: u64) -> Item
        requires low { 97 ≤ letter }
        requires high { letter ≤ 122 }
        ensures { result ≡ Item.Def (bool_def letter expr at) }
    {
        Item::Def(DefItem {
            name: self.letter(letter),
            ty: BOOL,
            expr: NodeId(expr),
            at,
        })
    }

    // (spec s (def a Bool ..) (def b Bool ..) (def c Bool ..) (def d Bool ..)): 0 is true, 1 to 4 the defs.
    fn four_defs(&self, a: usize, b: usize, c: usize, d: usize) -> Spec
        ensures { result ≡ four_defs a b c d }
    {
        let mut spec = self.empty();
        self.put(&mut spec, Node::Lit(Scalar::Bool, 1));
        self.put(&mut spec, Node::Def(0));
        self.put(&mut spec, Node::Def(1));
        self.put(&mut spec, Node::Def(2));
        self.put(&mut spec, Node::Def(3));
        self.add(&mut spec, self.bool_def(b'a', a, 8));
        self.add(&mut spec, self.bool_def(b'b', b, 23));
        self.add(&mut spec, self.bool_def(b'c', c, 38));
        self.add(&mut spec, self.bool_def(b'd', d, 53));
        spec
    }

    fn judged(&self, a: usize, b: usize, c: usize, d: usize) -> Option<SoundFault>
        requires a { a ≤ 4 }
        requires b { b ≤ 4 }
        requires c { c ≤ 4 }
        requires d { d ≤ 4 }
    {
        fault(sound(self.alloc, self.four_defs(a, b, c, d)))
    }

    // (trigger t true ..), with these arguments
    fn trigger(&self, args: Seq<Root>) -> Item
        ensures { result ≡ Item.Trigger (bare_trigger args) }
    {
        Item::Trigger(TriggerItem {
            name: self.letter(b't'),
            guard: Root {
                expr: NodeId(0),
                ty: BOOL,
                at: 100,
            },
            args,
        })
    }

    // so many times (trigger t true)
    fn many(&self, times: u64) -> Spec
        requires { times < 4294967295 }
        ensures { result ≡ many times }
    {
        let mut spec = self.empty();
        self.put(&mut spec, Node::Lit(Scalar::Bool, 1));
        for k in 0..times {
            let _ = k;
            self.add(&mut spec, self.trigger(Seq::new(self.alloc)));
        }
        spec
    }

    // Over an extern of Word8, so many defs, each the sum of the one before and itself.
    fn sums(&self, count: u32) -> Spec
        requires { count ≤ 11 }
        ensures { result ≡ sums count }
    {
        let mut spec = self.empty();
        self.put(&mut spec, Node::Lit(Scalar::Bool, 1));
        self.put(&mut spec, Node::Extern(0));
        self.add(
            &mut spec,
            Item::Extern(ExternItem {
                name: self.letter(b'a'),
                ty: WORD8,
            }),
        );
        for k in 0..count {
            let one = NodeId(2 * k as usize + 1);
            self.put(&mut spec, Node::Bin(Op2::Add, Scalar::Word8, one, one));
            self.put(&mut spec, Node::Def(k));
            self.add(
                &mut spec,
                Item::Def(DefItem {
                    name: self.letter(b'b' + k as u8),
                    ty: WORD8,
                    expr: NodeId(2 * k as usize + 2),
                    at: u64::from(k),
                }),
            );
        }
        spec
    }

    // .. and (trigger t true dN)
    fn doubled(&self, def: usize) -> Spec
        requires { def ≤ 11 }
        ensures { result ≡ doubled def }
    {
        let mut spec = self.sums(11);
        let arg = Root {
            expr: NodeId(2 * def + 1),
            ty: WORD8,
            at: 200,
        };
        let args = vec![in self.alloc; arg].expect(self.rt, "memory");
        self.add(&mut spec, self.trigger(Seq::of(args)));
        spec
    }
}

// The fault of an answer, or none.
fn fault(answer: Result<Sound, (Spec, SoundFault)>) -> Option<SoundFault> {
    match answer {
        Ok(sound) => {
            drop(sound);
            None
        }
        Err((spec, fault)) => {
            drop(spec);
            Some(fault)
        }
    }
}

// The first def that lies on a cycle is reported, not the first cycle that is found.
#[test]
fn cycles(rt: HostRuntime) {
    let alloc = rt.alloc();
    let m = Maker { rt: &rt, alloc };
    assert!(rt; m.judged(2, 3, 4, 0).is_none());
    assert!(rt; m.judged(0, 0, 1, 2).is_none());
    assert!(rt; matches!(m.judged(2, 3, 4, 2), Some(SoundFault::Cycle(23))));
    assert!(rt; matches!(m.judged(2, 3, 2, 0), Some(SoundFault::Cycle(23))));
    assert!(rt; matches!(m.judged(4, 2, 0, 4), Some(SoundFault::Cycle(23))));
    assert!(rt; matches!(m.judged(2, 3, 3, 1), Some(SoundFault::Cycle(38))));
    assert!(rt; matches!(m.judged(3, 2, 1, 4), Some(SoundFault::Cycle(8))));
    assert!(rt; matches!(m.judged(0, 0, 0, 4), Some(SoundFault::Cycle(53))));
}

#[test]
fn declarations(rt: HostRuntime) {
    let alloc = rt.alloc();
    let m = Maker { rt: &rt, alloc };
    assert!(rt; fault(sound(alloc, m.many(4_096))).is_none());
    assert!(rt;
        matches!(
            fault(sound(alloc, m.many(4_097))),
            Some(SoundFault::TooManyDecls)
        )
    );
}

// d10 weighs 2,047, and d11 4,095.
#[test]
fn doubling_defs(rt: HostRuntime) {
    let alloc = rt.alloc();
    let m = Maker { rt: &rt, alloc };
    assert!(rt; fault(sound(alloc, m.doubled(10))).is_none());
    assert!(rt;
        matches!(
            fault(sound(alloc, m.doubled(11))),
            Some(SoundFault::RootTooHeavy(200))
        )
    );
}
