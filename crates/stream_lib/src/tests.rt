// A worked specification is lowered.
ghost use Rattle.std.specs.Prelude.{◌≡◌, ◌≤◌, [], ◌∷◌, ◌<◌, length};
ghost use Rattle.std.specs.List.{AllByRecursion};
ghost use Rattle.stream_core.specs.Parts.{parts};
ghost use Rattle.stream_core.specs.Stored.{HasRoom, with_item};
ghost use Rattle.recursion_check.specs.TestSpecs.{with_node};
ghost use Rattle.stream_lib.specs.WorkedForms.{call, form_over, yesterdays};

use crate::lower;
use recursion_check::sound;
use sm_io::{Name, Seq};
use std::alloc::Global;
use std::process::Abort;
use stream_core::{
    ExternItem, Item, LibForm, LibItem, Node, NodeId, Root, Spec, StreamItem, TriggerItem,
};
use stream_types::{Scalar, Ty, Types};

const BOOL: Ty = Ty::Scalar(Scalar::Bool);

// Makes specifications, and ends the test where there is no memory.
#[derive(Drop)]
struct Maker<'a, R: Abort> {
    rt: &'a R,
    alloc: Global,
}

impl<R: Abort> Maker<'_, R> {
    // A name of one small letter.
    fn letter(&self, byte: u8) -> Name
        requires low { 97 ≤ byte }
        requires high { byte ≤ 122 }
        ensures { result ≡ byte ∷ [] }
    {
        Name::new(Vec::from_slice(self.alloc, &[byte]).expect(self.rt, "memory"))
    }

    // Adds a node that isn't there yet.
    fn put(&self, spec: &mut Spec, node: Node)
        requires { AllByRecursion (λ j. j < length spec.old.nodes) (parts node) }
        ensures { spec.new ≡ with_node spec.old node }
    {
        let before = spec.nodes();
        let id = spec.place(node).expect(self.rt, "memory");
        assert!(self.rt; id.0 == before);
    }

    fn add(&self, spec: &mut Spec, item: Item)
        requires { HasRoom spec.old item }
        ensures { spec.new ≡ with_item spec.old item }
    {
        spec.add(item).expect(self.rt, "memory");
    }

    fn form(&self, form: LibForm) -> Item
        ensures { result ≡ Item.Lib (form_over form (0 ∷ [])) }
    {
        let args = Vec::from_slice(self.alloc, &[NodeId(0)]).expect(self.rt, "memory");
        Item::Lib(LibItem {
            form,
            args: Seq::of(args),
            at: 9,
        })
    }

    fn call(&self, letter: u8, guard: usize) -> Item
        requires low { 97 ≤ letter }
        requires high { letter ≤ 122 }
        ensures { result ≡ Item.Trigger (call letter guard []) }
    {
        let guard = Root {
            expr: NodeId(guard),
            ty: BOOL,
            at: 9,
        };
        Item::Trigger(TriggerItem {
            name: self.letter(letter),
            guard,
            args: Seq::new(self.alloc),
        })
    }

    // (spec y (extern p Bool) (trigger a (yesterday p)) (trigger b (weakly-yesterday p)))
    fn yesterdays(&self) -> Spec
        ensures { result ≡ yesterdays }
    {
        let mut spec = Spec::new(self.alloc, self.letter(b'y'), Types::new(self.alloc));
        self.put(&mut spec, Node::Extern(0));
        self.put(&mut spec, Node::Lib(0));
        self.put(&mut spec, Node::Lib(1));
        let input = ExternItem {
            name: self.letter(b'p'),
            ty: BOOL,
        };
        self.add(&mut spec, Item::Extern(input));
        self.add(&mut spec, self.form(LibForm::Yesterday));
        self.add(&mut spec, self.form(LibForm::WeaklyYesterday));
        self.add(&mut spec, self.call(b'a', 1));
        self.add(&mut spec, self.call(b'b', 2));
        spec
    }

    // The stream is a buffer of this name, with one truth value at first.
    fn is_buffer(&self, x: &StreamItem, name: &[u8], first: u64) {
        assert_eq!(self.rt; x.name.bytes(), name);
        assert!(self.rt; x.ty == BOOL);
        assert_eq!(self.rt; x.init.as_slice(), [first].as_slice());
    }
}

#[test]
fn forms_have_buffers(rt: HostRuntime) {
    let alloc = rt.alloc();
    let m = Maker { rt: &rt, alloc };
    let Ok(checked) = sound(alloc, m.yesterdays()) else {
        panic!(rt; "a sound specification");
    };
    let plain = lower(alloc, &checked).expect(&rt, "memory");
    let streams = plain.spec().streams();
    assert_eq!(rt; streams.len(), 2);
    m.is_buffer(&streams[0], b"1", 0);
    m.is_buffer(&streams[1], b"2", 1);
}
