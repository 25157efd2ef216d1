// Programs carried out over a few rows, with their calls, their counts and what is undefined.
ghost use Rattle.sm_io.specs.Names.{IsNameBytes};
ghost use Rattle.std.specs.Prelude.{◌≡◌, ◌++◌, ◌∷◌, [], ℕ, true};
ghost use Rattle.c99_tree.specs.Typed.{IsRow};
ghost use Rattle.c99_tree.specs.Values.{is_word};
ghost use Rattle.c99_tree.specs.declared.types.CScalar.TheVariants as scalars;
ghost use Rattle.c99_tree.specs.declared.types.CTy.TheVariants as types;

use super::{Machine, Undefined};
use c99_ast::{unit_weight, well_formed};
use c99_tree::{CBin, CDef, CExpr, CLit, CProto, CRing, CScalar, CStmt, CTy, CUn, CVar, Unit};
use sm_io::{Name, Seq, Steps};
use sqlite_items::{Boxed, Items};
use std::alloc::Global;
use std::marker::Brand;
use std::process::Abort;
use std::sync::ledger::{Blank, Ledger};

// Makes the parts of programs, and ends the test where there is no memory.
#[derive(Drop)]
struct Maker<'a, R: Abort> {
    rt: &'a R,
    alloc: Global,
}

impl<R: Abort> Maker<'_, R> {
    fn name(&self, text: &[u8]) -> Name
        requires { IsNameBytes text.now }
    {
        Name::new(Vec::from_slice(self.alloc, text).expect(self.rt, "memory"))
    }

    fn push<T: Drop>(&self, all: &mut Seq<T>, x: T)
        ensures { all.new ≡ all.old ++ x ∷ [] }
    {
        match all.push(x) {
            Ok(()) => {}
            Err(_) => panic!(self.rt; "memory"),
        }
    }

    fn one<T: Drop>(&self, x: T) -> Seq<T>
        ensures { result ≡ x ∷ [] }
    {
        let mut all = Seq::new(self.alloc);
        self.push(&mut all, x);
        all
    }

    fn two<T: Drop>(&self, x: T, y: T) -> Seq<T> {
        let mut all = self.one(x);
        self.push(&mut all, y);
        all
    }

    fn scalar(&self, text: &[u8], t: CScalar) -> CVar
        requires { IsNameBytes text.now }
        ensures { result.ty ≡ types.Scalar t }
    {
        CVar {
            name: self.name(text),
            ty: CTy::Scalar(t),
        }
    }

    fn array_type(&self, elem: &[u8], n: u32) -> CDef
        requires { IsNameBytes elem.now }
    {
        CDef::Array {
            elem: self.name(elem),
            n,
        }
    }

    fn handler(&self, text: &[u8], params: Seq<CTy>) -> CProto
        requires { IsNameBytes text.now }
    {
        CProto {
            name: self.name(text),
            params,
        }
    }

    fn unit(&self, text: &[u8], storage: u32, need: u32) -> Unit
        requires { IsNameBytes text.now }
        ensures types { result.types ≡ [] }
        ensures externs { result.externs ≡ [] }
    {
        Unit {
            name: self.name(text),
            types: Seq::new(self.alloc),
            storage,
            need,
            externs: Seq::new(self.alloc),
            handlers: Seq::new(self.alloc),
            rings: Seq::new(self.alloc),
            step: Seq::new(self.alloc),
        }
    }

    fn boxed(&self, e: CExpr) -> Boxed<CExpr> {
        Boxed::new(self.alloc, e).expect(self.rt, "memory")
    }

    fn copy(&self, text: &[u8]) -> CExpr
        requires { IsNameBytes text.now }
    {
        CExpr::Copy(self.name(text))
    }

    fn unary(&self, op: CUn, a: CExpr) -> CExpr {
        CExpr::Un(op, self.boxed(a))
    }

    fn binary(&self, op: CBin, a: CExpr, b: CExpr) -> CExpr {
        CExpr::Bin(op, self.boxed(a), self.boxed(b))
    }

    fn cast(&self, t: CScalar, a: CExpr) -> CExpr {
        CExpr::Cast(t, self.boxed(a))
    }

    fn pick(&self, n: u32, a: CExpr, i: CExpr) -> CExpr {
        CExpr::Pick(self.name(b"P"), n, self.boxed(a), self.boxed(i))
    }

    fn member(&self, a: CExpr, text: &[u8]) -> CExpr
        requires { IsNameBytes text.now }
    {
        CExpr::Field(self.boxed(a), self.name(text))
    }

    fn pair(&self, x: CExpr, y: CExpr) -> Items<CExpr> {
        let mut all = Items::new(self.alloc);
        all.push(x).expect(self.rt, "memory");
        all.push(y).expect(self.rt, "memory");
        all
    }

    fn read(&self, text: &[u8]) -> CStmt
        requires { IsNameBytes text.now }
    {
        CStmt::Copy {
            name: self.name(text),
        }
    }

    fn call(&self, text: &[u8], guard: CExpr, args: Seq<CExpr>) -> CStmt
        requires { IsNameBytes text.now }
    {
        CStmt::Call {
            handler: self.name(text),
            guard,
            args,
        }
    }

    fn next(&self, text: &[u8], value: CExpr) -> CStmt
        requires { IsNameBytes text.now }
    {
        CStmt::Next {
            ring: self.name(text),
            value,
        }
    }

    fn put(&self, text: &[u8]) -> CStmt
        requires { IsNameBytes text.now }
    {
        CStmt::Put {
            ring: self.name(text),
        }
    }

    fn heater(&self) -> Unit
        ensures { (w : ℕ) → is_word scalars.I32 w ≡ true → IsRow result (w ∷ []) }
    {
        let mut unit = self.unit(b"heater", 4, 1);
        unit.externs = self.one(self.scalar(b"temp", CScalar::I32));
        unit.handlers = self.one(self.handler(b"heat", self.one(CTy::Scalar(CScalar::I32))));
        let low = self.binary(CBin::Lt, self.copy(b"temp"), CExpr::Lit(CLit::I, 18));
        let call = self.call(b"heat", low, self.one(self.copy(b"temp")));
        unit.step = self.two(self.read(b"temp"), call);
        unit
    }

    // Ten, shared out among as many as the extern says.
    fn divider(&self) -> Unit
        ensures { (w : ℕ) → is_word scalars.I32 w ≡ true → IsRow result (w ∷ []) }
    {
        let mut unit = self.unit(b"share", 4, 1);
        unit.externs = self.one(self.scalar(b"among", CScalar::I32));
        unit.handlers = self.one(self.handler(b"give", self.one(CTy::Scalar(CScalar::I32))));
        let part = self.binary(CBin::Div, self.lit(10), self.copy(b"among"));
        let call = self.call(b"give", CExpr::True, self.one(part));
        unit.step = self.two(self.read(b"among"), call);
        unit
    }

    // The index of the counter's ring, so much further.
    fn moved(&self, by: u64) -> CExpr {
        let head = CExpr::Head(self.name(b"n"));
        let sum = self.binary(CBin::Add, head, CExpr::Lit(CLit::U, by));
        self.binary(CBin::Rem, sum, CExpr::Lit(CLit::U, 1))
    }

    // The value of the counter, in its layout.
    fn counted(&self, indexed: bool) -> CExpr {
        if indexed {
            CExpr::RingAt(self.name(b"n"), self.boxed(self.moved(0)))
        } else {
            CExpr::Cell(self.name(b"n"))
        }
    }

    // How the counter's ring takes its next value, in its layout.
    fn keep(&self, indexed: bool, step: &mut Seq<CStmt>) {
        if indexed {
            let at = CExpr::Head(self.name(b"n"));
            self.push(
                step,
                CStmt::Store {
                    ring: self.name(b"n"),
                    at,
                },
            );
            let value = self.moved(1);
            self.push(
                step,
                CStmt::Move {
                    ring: self.name(b"n"),
                    value,
                },
            );
        } else {
            self.push(step, self.put(b"n"));
        }
    }

    fn counter_ring(&self, indexed: bool) -> CRing {
        CRing {
            name: self.name(b"n"),
            ty: CTy::Scalar(CScalar::U8),
            len: 1,
            indexed,
            init: self.one(0),
        }
    }

    #[tactic(auto, using(crate::proofs::TestRows::no_row))]
    fn counter(&self, indexed: bool, storage: u32, need: u32) -> Unit
        ensures { IsRow result [] }
    {
        let mut unit = self.unit(b"c", storage, need);
        unit.handlers = self.one(self.handler(b"t", self.one(CTy::Scalar(CScalar::U8))));
        unit.rings = self.one(self.counter_ring(indexed));
        let is_none = self.binary(CBin::Eq, self.counted(indexed), CExpr::Lit(CLit::U, 0));
        let call = self.call(b"t", is_none, self.one(self.counted(indexed)));
        let now = self.cast(CScalar::U32, self.counted(indexed));
        let one = self.cast(CScalar::U32, CExpr::Lit(CLit::U, 1));
        let sum = self.binary(CBin::Add, now, one);
        let mut step = self.two(call, self.next(b"n", self.cast(CScalar::U8, sum)));
        self.keep(indexed, &mut step);
        unit.step = step;
        unit
    }

    // `struct P` of two numbers.
    fn point(&self, y: CScalar) -> CDef {
        CDef::Struct {
            name: self.name(b"P"),
            fields: self.two(self.scalar(b"x", CScalar::I16), self.scalar(b"y", y)),
        }
    }

    fn words(&self, words: &[u64]) -> Seq<u64> {
        Seq::of(Vec::from_slice(self.alloc, words).expect(self.rt, "memory"))
    }

    fn lit(&self, n: u64) -> CExpr {
        CExpr::Lit(CLit::I, n)
    }

    // `((struct P){ X, Y })`.
    fn new_point(&self, x: CExpr, y: CExpr) -> CExpr {
        CExpr::Rec(self.name(b"P"), self.pair(x, y))
    }

    // The ring's index, so much further.
    fn turned(&self, by: u64) -> CExpr {
        let head = CExpr::Head(self.name(b"r"));
        let sum = self.binary(CBin::Add, head, CExpr::Lit(CLit::U, by));
        self.binary(CBin::Rem, sum, CExpr::Lit(CLit::U, 2))
    }

    fn ring_at(&self, by: u64) -> CExpr {
        CExpr::RingAt(self.name(b"r"), self.boxed(self.turned(by)))
    }

    // A ring of two points with an index, an array of two points that is picked from, and a choice of points.
    #[tactic(auto, using(crate::proofs::TestRows::no_row))]
    fn points(&self) -> Unit
        ensures { IsRow result [] }
    {
        let mut unit = self.unit(b"s", 12, 29);
        unit.types = self.two(self.point(CScalar::U16), self.array_type(b"P", 2));
        unit.handlers = self.one(self.handler(
            b"t",
            self.two(CTy::Struct(self.name(b"P")), CTy::Scalar(CScalar::U8)),
        ));
        unit.rings = self.one(CRing {
            name: self.name(b"r"),
            ty: CTy::Struct(self.name(b"P")),
            len: 2,
            indexed: true,
            init: self.words(&[u64::MAX, 7, 3, 4]),
        });
        let one = self.new_point(self.unary(CUn::Neg, self.lit(2)), self.lit(70000));
        let array = CExpr::Arr(self.name(b"P"), 2, self.pair(one, self.ring_at(1)));
        let picked = self.pick(2, array, CExpr::Head(self.name(b"r")));
        let is_less = self.binary(CBin::Lt, self.member(self.ring_at(0), b"x"), self.lit(0));
        let choice = CExpr::Cond(
            self.boxed(is_less),
            self.boxed(picked),
            self.boxed(self.ring_at(1)),
        );
        let args = self.two(choice, self.member(self.ring_at(0), b"x"));
        let call = self.call(b"t", CExpr::True, args);
        let next = self.new_point(self.member(self.ring_at(1), b"x"), self.lit(9));
        let mut step = self.two(call, self.next(b"r", next));
        let at = CExpr::Head(self.name(b"r"));
        self.push(
            &mut step,
            CStmt::Store {
                ring: self.name(b"r"),
                at,
            },
        );
        let value = self.turned(1);
        self.push(
            &mut step,
            CStmt::Move {
                ring: self.name(b"r"),
                value,
            },
        );
        unit.step = step;
        unit
    }
}

// A step that meets nothing undefined.
fn step<L: Ledger, R: Abort>(rt: &R, machine: &mut Machine<'_>, row: &[u64], steps: &mut Steps<L>)
    requires { IsRow machine.old.unit row.now }
    ensures { machine.new.unit ≡ machine.old.unit }
{
    assert_eq!(rt; machine.call_step(row, steps), Ok(()));
}

// A step that divides by zero, and so calls nothing.
fn stops<L: Ledger, R: Abort>(rt: &R, machine: &mut Machine<'_>, row: &[u64], steps: &mut Steps<L>)
    requires { IsRow machine.old.unit row.now }
    ensures { machine.new.unit ≡ machine.old.unit }
{
    assert_eq!(rt; machine.call_step(row, steps), Err(Undefined::ZeroDivisor));
    assert_eq!(rt; machine.events().len(), 0);
}

// The last step called the first handler alone, with these words.
fn called<R: Abort>(rt: &R, machine: &Machine<'_>, words: &[u64]) {
    let calls = machine.events();
    assert_eq!(rt; calls.len(), 1);
    assert_eq!(rt; calls.handler(0), 0);
    assert_eq!(rt; calls.words(0), words);
}

fn run_heater<L: Ledger, R: Abort>(m: &Maker<'_, R>, blank: Blank)
    requires name { blank.name ≡ L.name }
    requires parts { blank.parts ≡ L.parts }
    requires one { blank.parts ≡ 1 }
{
    let rt = m.rt;
    let unit = m.heater();
    assert!(rt; well_formed(&unit));
    let mut steps: Steps<L> = Steps::new(blank);
    let mut machine = Machine::start(m.alloc, &unit).expect(rt, "memory");
    step(rt, &mut machine, &[17], &mut steps);
    called(rt, &machine, &[17]);
    step(rt, &mut machine, &[18], &mut steps);
    assert_eq!(rt; machine.events().len(), 0);
    step(rt, &mut machine, &[u64::MAX], &mut steps);
    called(rt, &machine, &[u64::MAX]);
}

#[test]
fn heater_calls_below_eighteen(rt: HostRuntime) {
    let m = Maker {
        rt: &rt,
        alloc: rt.alloc(),
    };
    run_heater::<Brand, _>(&m, Blank::new(1));
}

fn run_divider<L: Ledger, R: Abort>(m: &Maker<'_, R>, blank: Blank)
    requires name { blank.name ≡ L.name }
    requires parts { blank.parts ≡ L.parts }
    requires one { blank.parts ≡ 1 }
{
    let rt = m.rt;
    let unit = m.divider();
    assert!(rt; well_formed(&unit));
    let mut steps: Steps<L> = Steps::new(blank);
    let mut machine = Machine::start(m.alloc, &unit).expect(rt, "memory");
    step(rt, &mut machine, &[5], &mut steps);
    called(rt, &machine, &[2]);
    stops(rt, &mut machine, &[0], &mut steps);
    stops(rt, &mut machine, &[5], &mut steps);
}

#[test]
fn zero_divisor_is_met_for_good(rt: HostRuntime) {
    let m = Maker {
        rt: &rt,
        alloc: rt.alloc(),
    };
    run_divider::<Brand, _>(&m, Blank::new(1));
}

fn run_points<L: Ledger, R: Abort>(m: &Maker<'_, R>, blank: Blank)
    requires name { blank.name ≡ L.name }
    requires parts { blank.parts ≡ L.parts }
    requires one { blank.parts ≡ 1 }
{
    let rt = m.rt;
    let unit = m.points();
    assert_eq!(rt; unit_weight(&unit), 29);
    assert!(rt; well_formed(&unit));
    let mut steps: Steps<L> = Steps::new(blank);
    let mut machine = Machine::start(m.alloc, &unit).expect(rt, "memory");
    step(rt, &mut machine, &[], &mut steps);
    called(rt, &machine, &[u64::MAX - 1, 4464, 255]);
    step(rt, &mut machine, &[], &mut steps);
    called(rt, &machine, &[3, 9, 3]);
    step(rt, &mut machine, &[], &mut steps);
    called(rt, &machine, &[3, 9, 3]);
}

#[test]
fn points_turn_round(rt: HostRuntime) {
    let m = Maker {
        rt: &rt,
        alloc: rt.alloc(),
    };
    run_points::<Brand, _>(&m, Blank::new(1));
}

fn run_counter<L: Ledger, R: Abort>(m: &Maker<'_, R>, blank: Blank)
    requires name { blank.name ≡ L.name }
    requires parts { blank.parts ≡ L.parts }
    requires one { blank.parts ≡ 1 }
{
    let rt = m.rt;
    let unit = m.counter(false, 1, 5);
    assert!(rt; well_formed(&unit));
    let mut steps: Steps<L> = Steps::new(blank);
    let mut machine = Machine::start(m.alloc, &unit).expect(rt, "memory");
    for n in 0..513_u32 {
        step(rt, &mut machine, &[], &mut steps);
        assert_eq!(rt; machine.events().len() == 1, n % 256 == 0);
    }
}

#[test]
fn counter_wraps(rt: HostRuntime) {
    let m = Maker {
        rt: &rt,
        alloc: rt.alloc(),
    };
    run_counter::<Brand, _>(&m, Blank::new(1));
}
