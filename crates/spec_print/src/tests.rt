// Surfaces written byte for byte.
ghost use Rattle.sm_io.specs.Names.{IsNameBytes};

use super::write_text;
use sm_io::{MemSink, Name, Seq, VecSink};
use spec_text::{
    ConstForm, Decl, Expr, FieldForm, NameAt, ScanFault, ShapeFault, Surface, TypeForm,
    declarations, trees,
};
use sqlite_items::{Boxed, Items};
use std::alloc::Global;
use std::process::Abort;
use std::test::Fail;
use stream_types::{Dir, Op1, Op2, Scalar};

// Makes the parts of surfaces, and ends the test where there is no memory.
#[derive(Drop)]
struct Maker<'a, R: Abort> {
    rt: &'a R,
    alloc: Global,
}

impl<R: Abort> Maker<'_, R> {
    fn name(&self, text: &[u8]) -> NameAt
        requires { IsNameBytes text.now }
    {
        NameAt {
            at: 7,
            name: Name::new(Vec::from_slice(self.alloc, text).expect(self.rt, "memory")),
        }
    }

    fn push<T: Drop>(&self, all: &mut Seq<T>, x: T) {
        match all.push(x) {
            Ok(()) => {}
            Err(_) => panic!(self.rt; "memory"),
        }
    }

    fn one<T: Drop>(&self, x: T) -> Seq<T> {
        let mut all = Seq::new(self.alloc);
        self.push(&mut all, x);
        all
    }

    fn two<T: Drop>(&self, x: T, y: T) -> Seq<T> {
        let mut all = self.one(x);
        self.push(&mut all, y);
        all
    }

    fn boxed<T: Drop>(&self, x: T) -> Boxed<T> {
        Boxed::new(self.alloc, x).expect(self.rt, "memory")
    }

    fn items<T: Drop>(&self, x: T, y: T) -> Items<T> {
        let mut all = Items::new(self.alloc);
        all.push(x).expect(self.rt, "memory");
        all.push(y).expect(self.rt, "memory");
        all
    }

    fn scalar(&self, scalar: Scalar) -> TypeForm {
        TypeForm::Scalar { at: 1, scalar }
    }

    fn array(&self, scalar: Scalar, n: u32) -> TypeForm {
        TypeForm::Array {
            at: 2,
            elem: self.boxed(self.scalar(scalar)),
            n,
        }
    }

    fn field(&self, text: &[u8], ty: TypeForm) -> FieldForm
        requires { IsNameBytes text.now }
    {
        FieldForm {
            at: 3,
            name: self.name(text),
            ty,
        }
    }

    fn constant(&self, scalar: Scalar, word: u64) -> ConstForm {
        ConstForm::Lit {
            at: 4,
            scalar,
            word,
        }
    }

    fn initial(&self) -> ConstForm {
        let words = ConstForm::Array {
            at: 5,
            items: self.items(
                self.constant(Scalar::Word16, 0),
                self.constant(Scalar::Word16, 65535),
            ),
        };
        ConstForm::Record {
            at: 6,
            name: self.name(b"P"),
            items: self.items(self.constant(Scalar::Int8, 0xFFFF_FFFF_FFFF_FF80), words),
        }
    }

    fn mention(&self, text: &[u8]) -> Expr
        requires { IsNameBytes text.now }
    {
        Expr::Name(self.name(text))
    }

    fn literal(&self, scalar: Scalar, word: u64) -> Expr {
        Expr::Lit {
            at: 8,
            scalar,
            word,
        }
    }

    fn last(&self) -> Expr {
        Expr::Drop {
            at: 9,
            k: 1,
            name: self.name(b"s"),
        }
    }

    fn not(&self, a: Expr) -> Expr {
        Expr::Un {
            at: 10,
            op: Op1::Not,
            a: self.boxed(a),
        }
    }

    fn both(&self, a: Expr, b: Expr) -> Expr {
        Expr::And {
            at: 11,
            a: self.boxed(a),
            b: self.boxed(b),
        }
    }

    fn sum(&self, a: Expr, b: Expr) -> Expr {
        Expr::Bin {
            at: 12,
            op: Op2::Add,
            a: self.boxed(a),
            b: self.boxed(b),
        }
    }

    fn shift(&self, a: Expr, count: Expr) -> Expr {
        Expr::Shift {
            at: 13,
            dir: Dir::Right,
            a: self.boxed(a),
            count: self.boxed(count),
        }
    }

    fn cast(&self, scalar: Scalar, a: Expr) -> Expr {
        Expr::Cast {
            at: 14,
            to: self.scalar(scalar),
            a: self.boxed(a),
        }
    }

    fn member(&self, a: Expr, text: &[u8]) -> Expr
        requires { IsNameBytes text.now }
    {
        Expr::Field {
            at: 15,
            a: self.boxed(a),
            member: self.name(text),
        }
    }

    fn since_in(&self, p: Expr, q: Expr) -> Expr {
        Expr::SinceIn {
            at: 16,
            low: 0,
            high: 128,
            p: self.boxed(p),
            q: self.boxed(q),
        }
    }

    fn clock(&self) -> Expr {
        Expr::Clock {
            at: 17,
            period: 4_294_967_295,
            phase: 3,
        }
    }

    fn majority(&self, a: Expr, b: Expr) -> Expr {
        Expr::Majority {
            at: 18,
            items: self.items(a, b),
        }
    }

    fn record(&self, a: Expr, b: Expr) -> Expr {
        Expr::Record {
            at: 19,
            name: self.name(b"P"),
            items: self.items(a, b),
        }
    }

    fn greatest(&self, e: Expr) -> Expr {
        Expr::WindowMax {
            at: 20,
            n: 12,
            e: self.boxed(e),
        }
    }

    fn types(&self) -> Seq<Decl> {
        self.two(
            Decl::Struct {
                at: 21,
                name: self.name(b"P"),
                fields: self.two(
                    self.field(b"x", self.scalar(Scalar::Int8)),
                    self.field(b"y", self.array(Scalar::Word16, 2)),
                ),
            },
            Decl::Extern {
                at: 22,
                name: self.name(b"i"),
                ty: self.scalar(Scalar::Word32),
            },
        )
    }

    fn stream(&self) -> Decl {
        Decl::Stream {
            at: 23,
            name: self.name(b"s"),
            ty: TypeForm::Named(self.name(b"P")),
            init: self.two(self.initial(), self.initial()),
            expr: self.record(
                self.literal(Scalar::Int8, 7),
                self.member(self.last(), b"y"),
            ),
        }
    }

    fn def(&self) -> Decl {
        Decl::Def {
            at: 24,
            name: self.name(b"d"),
            ty: self.scalar(Scalar::Bool),
            expr: self.both(self.literal(Scalar::Bool, 1), self.not(self.clock())),
        }
    }

    fn trigger(&self) -> Decl {
        Decl::Trigger {
            at: 25,
            name: self.name(b"t"),
            guard: self.since_in(self.mention(b"d"), self.literal(Scalar::Bool, 0)),
            args: self.two(
                self.cast(Scalar::Int64, self.mention(b"i")),
                self.literal(Scalar::Int64, 0x8000_0000_0000_0000),
            ),
        }
    }

    fn observer(&self) -> Decl {
        Decl::Observer {
            at: 26,
            name: self.name(b"o"),
            expr: self.majority(
                self.greatest(self.mention(b"i")),
                self.shift(
                    self.mention(b"i"),
                    self.sum(self.mention(b"i"), self.mention(b"i")),
                ),
            ),
        }
    }

    // One of each declaration.
    fn whole(&self) -> Surface {
        let mut decls = self.types();
        self.push(&mut decls, self.stream());
        self.push(&mut decls, self.def());
        self.push(&mut decls, self.trigger());
        self.push(&mut decls, self.observer());
        Surface {
            version: 2,
            name: self.name(b"whole").name,
            decls,
        }
    }

    fn empty(&self) -> Surface {
        Surface {
            version: 1,
            name: self.name(b"a").name,
            decls: Seq::new(self.alloc),
        }
    }
}

const WHOLE: &str = "(spec2 whole
  (struct P (x Int8) (y (array Word16 2)))
  (extern i Word32)
  (stream s P ((record P -128:Int8 (array 0:Word16 65535:Word16)) (record P -128:Int8 (array 0:Word16 65535:Word16))) (record P 7:Int8 (field (drop 1 s) y)))
  (def d Bool (and true (not (clock 4294967295 3))))
  (trigger t (since-in 0 128 d false) (cast Int64 i) -9223372036854775808:Int64)
  (observer o (majority (window-max 12 i) (>> i (+ i i)))))
";

#[test]
fn a_surface_is_written(rt: HostRuntime) {
    let alloc = rt.alloc();
    let surface = Maker { rt: &rt, alloc }.whole();
    let mut sink = VecSink::new(alloc);
    assert!(rt; write_text(&surface, &mut sink).is_ok());
    assert_eq!(rt; sink.taken(), WHOLE.as_bytes());
}

#[test]
fn the_shortest_is_written(rt: HostRuntime) {
    let alloc = rt.alloc();
    let surface = Maker { rt: &rt, alloc }.empty();
    let mut sink = VecSink::new(alloc);
    assert!(rt; write_text(&surface, &mut sink).is_ok());
    assert_eq!(rt; sink.taken(), b"(spec a)\n".as_slice());
}

// After a fault nothing more is written.
#[test]
fn a_fault_ends_the_text(rt: HostRuntime) -> Result<(), Fail> {
    let alloc = rt.alloc();
    let surface = Maker { rt: &rt, alloc }.empty();
    let mut sink = MemSink::new(alloc, 1000, vec![in alloc; 2]?)?;
    assert!(rt; write_text(&surface, &mut sink).is_err());
    assert_eq!(rt; sink.taken(), b"(spec".as_slice());
    Ok(())
}

const HEATER: &[u8] =
    b"(spec heater\n  (extern temp Int32)\n  (trigger heat (< temp 18:Int32) temp))\n";

// What the two readers answer for a text.
#[derive(Debug, PartialEq, Drop)]
enum Answer {
    Read,
    Unbalanced(u64),
    BadForm(u64),
    Other,
}

fn read(alloc: Global, text: &[u8]) -> Answer {
    let forest = match trees(alloc, text) {
        Ok(forest) => forest,
        Err(ScanFault::Unbalanced(at)) => return Answer::Unbalanced(at),
        Err(_) => return Answer::Other,
    };
    match declarations(alloc, &forest) {
        Ok(_) => Answer::Read,
        Err(ShapeFault::BadForm(at)) => Answer::BadForm(at),
        Err(_) => Answer::Other,
    }
}

// The text of a heater, cut off behind each of its bytes.
#[test]
fn a_cut_text_is_refused(rt: HostRuntime) {
    let alloc = rt.alloc();
    assert_eq!(rt; read(alloc, b""), Answer::BadForm(0));
    for k in 1..75 {
        assert_eq!(rt; read(alloc, &HEATER[..k]), Answer::Unbalanced(k as u64));
    }
    assert_eq!(rt; read(alloc, &HEATER[..75]), Answer::Read);
    assert_eq!(rt; read(alloc, HEATER), Answer::Read);
}
