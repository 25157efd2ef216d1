// Programs of the old layout, and what becomes of them.
ghost use Rattle.std.specs.Prelude.{◌≡◌, ◌++◌, ◌∷◌, []};
ghost use Rattle.sm_io.specs.Names.{IsNameBytes};

use super::{MigrateFault, migrate};
use c99_ast::{unit_weight, well_formed};
use c99_tree::{CBin, CDef, CExpr, CLit, CProto, CRing, CScalar, CStmt, CTy, CVar, Unit, is_same};
use sm_io::{Name, Seq, is_name};
use sqlite_items::{Boxed, Items};
use std::alloc::Global;
use std::process::Abort;

// Makes the parts of programs, and ends the test where there is no memory.
#[derive(Drop)]
struct Maker<'a, R: Abort> {
    rt: &'a R,
    alloc: Global,
}

impl<R: Abort> Maker<'_, R> {
    fn name(&self, text: &[u8]) -> Name
        requires { IsNameBytes text.now }
    {
        Name::new(Vec::from_slice(self.alloc, text).expect(self.rt, "memory"))
    }

    fn push<T: Drop>(&self, all: &mut Seq<T>, x: T)
        ensures { all.new ≡ all.old ++ x ∷ [] }
    {
        match all.push(x) {
            Ok(()) => {}
            Err(_) => panic!(self.rt; "memory"),
        }
    }

    fn one<T: Drop>(&self, x: T) -> Seq<T>
        ensures { result ≡ x ∷ [] }
    {
        let mut all = Seq::new(self.alloc);
        self.push(&mut all, x);
        all
    }

    fn words(&self, words: &[u64]) -> Seq<u64> {
        Seq::of(Vec::from_slice(self.alloc, words).expect(self.rt, "memory"))
    }

    fn boxed(&self, e: CExpr) -> Boxed<CExpr> {
        Boxed::new(self.alloc, e).expect(self.rt, "memory")
    }

    fn binary(&self, op: CBin, a: CExpr, b: CExpr) -> CExpr {
        CExpr::Bin(op, self.boxed(a), self.boxed(b))
    }

    fn cast(&self, t: CScalar, a: CExpr) -> CExpr {
        CExpr::Cast(t, self.boxed(a))
    }

    // `((cp_i_r + byU) % lenU)`
    fn place(&self, r: &[u8], by: u64, len: u64) -> CExpr
        requires { IsNameBytes r.now }
    {
        let head = CExpr::Head(self.name(r));
        let sum = self.binary(CBin::Add, head, CExpr::Lit(CLit::U, by));
        self.binary(CBin::Rem, sum, CExpr::Lit(CLit::U, len))
    }

    // `cp_b_r[((cp_i_r + 0U) % lenU)]`
    fn read(&self, r: &[u8], len: u64) -> CExpr
        requires { IsNameBytes r.now }
    {
        CExpr::RingAt(self.name(r), self.boxed(self.place(r, 0, len)))
    }

    // `cp_b_r[cp_i_r] = cp_n_r;` and `cp_i_r = ((cp_i_r + 1U) % lenU);`
    fn keep(&self, step: &mut Seq<CStmt>, r: &[u8], len: u64)
        requires { IsNameBytes r.now }
    {
        let at = CExpr::Head(self.name(r));
        let ring = self.name(r);
        self.push(step, CStmt::Store { ring, at });
        let value = self.place(r, 1, len);
        let ring = self.name(r);
        self.push(step, CStmt::Move { ring, value });
    }

    fn ring(&self, r: &[u8], ty: CTy, len: u32, init: Seq<u64>) -> CRing
        requires { IsNameBytes r.now }
    {
        CRing {
            name: self.name(r),
            ty,
            len,
            indexed: true,
            init,
        }
    }

    fn next(&self, r: &[u8], value: CExpr) -> CStmt
        requires { IsNameBytes r.now }
    {
        CStmt::Next {
            ring: self.name(r),
            value,
        }
    }

    fn call(&self, guard: CExpr, args: Seq<CExpr>) -> CStmt {
        CStmt::Call {
            handler: self.name(b"t"),
            guard,
            args,
        }
    }

    fn unit(&self, storage: u32, ty: CTy) -> Unit {
        Unit {
            name: self.name(b"c"),
            types: Seq::new(self.alloc),
            storage,
            need: 0,
            externs: Seq::new(self.alloc),
            handlers: self.one(CProto {
                name: self.name(b"t"),
                params: self.one(ty),
            }),
            rings: Seq::new(self.alloc),
            step: Seq::new(self.alloc),
        }
    }

    fn counted(&self, mut unit: Unit) -> Unit {
        let weight = unit_weight(&unit);
        assert!(self.rt; weight <= 4_294_967_295);
        unit.need = weight as u32;
        unit
    }

    // The wrapping counter, its first read of the ring by a remainder of this.
    fn counter(&self, first: u64) -> Unit {
        let mut unit = self.unit(5, CTy::Scalar(CScalar::U8));
        unit.rings = self.one(self.ring(b"n", CTy::Scalar(CScalar::U8), 1, self.words(&[0])));
        let is_none = self.binary(CBin::Eq, self.read(b"n", first), CExpr::Lit(CLit::U, 0));
        let mut step = self.one(self.call(is_none, self.one(self.read(b"n", 1))));
        let now = self.cast(CScalar::U32, self.read(b"n", 1));
        let one = self.cast(CScalar::U32, CExpr::Lit(CLit::U, 1));
        let sum = self.binary(CBin::Add, now, one);
        self.push(&mut step, self.next(b"n", self.cast(CScalar::U8, sum)));
        self.keep(&mut step, b"n", 1);
        unit.step = step;
        self.counted(unit)
    }

    fn point(&self) -> CTy {
        CTy::Struct(self.name(b"P"))
    }

    // A ring of a struct of one number.
    fn points(&self) -> Unit {
        let mut unit = self.unit(6, self.point());
        unit.types = self.one(CDef::Struct {
            name: self.name(b"P"),
            fields: self.one(CVar {
                name: self.name(b"x"),
                ty: CTy::Scalar(CScalar::I16),
            }),
        });
        unit.rings = self.one(self.ring(b"p", self.point(), 1, self.words(&[u64::MAX])));
        let mut step = self.one(self.call(CExpr::True, self.one(self.read(b"p", 1))));
        let old = CExpr::Field(self.boxed(self.read(b"p", 1)), self.name(b"x"));
        let mut all = Items::new(self.alloc);
        all.push(old).expect(self.rt, "memory");
        self.push(&mut step, self.next(b"p", CExpr::Rec(self.name(b"P"), all)));
        self.keep(&mut step, b"p", 1);
        unit.step = step;
        self.counted(unit)
    }

    // A ring of two values, and one of one value that is read there; the latter's index too, if it is told.
    fn two_rings(&self, told: bool) -> Unit {
        let byte = CTy::Scalar(CScalar::U8);
        let mut unit = self.unit(11, CTy::Scalar(CScalar::U8));
        let mut rings = self.one(self.ring(b"a", byte, 2, self.words(&[1, 2])));
        let byte = CTy::Scalar(CScalar::U8);
        self.push(&mut rings, self.ring(b"b", byte, 1, self.words(&[3])));
        unit.rings = rings;
        let at = if told {
            self.binary(
                CBin::Rem,
                CExpr::Head(self.name(b"b")),
                CExpr::Lit(CLit::U, 2),
            )
        } else {
            self.place(b"a", 0, 2)
        };
        let read = CExpr::RingAt(self.name(b"a"), self.boxed(at));
        let mut step = self.one(self.call(CExpr::True, self.one(read)));
        self.push(&mut step, self.next(b"a", self.read(b"b", 1)));
        self.push(&mut step, self.next(b"b", self.read(b"a", 2)));
        self.keep(&mut step, b"a", 2);
        self.keep(&mut step, b"b", 1);
        unit.step = step;
        self.counted(unit)
    }

    // The new program of a well formed one, under the name `d`.
    fn migrated(&self, unit: &Unit) -> Result<Unit, MigrateFault> {
        let name = self.name(b"d");
        assert!(self.rt; is_name(name.bytes()));
        assert!(self.rt; well_formed(unit));
        migrate(self.alloc, unit, &name)
    }

    // The number of the ring that a program is refused for, or 0 if it isn't.
    fn refused(&self, unit: &Unit) -> u32 {
        match self.migrated(unit) {
            Err(MigrateFault::OldUse(i)) => i,
            Err(MigrateFault::Memory) => panic!(self.rt; "memory"),
            Ok(_) => 0,
        }
    }

    // The new program has these totals and so many statements, and is well formed.
    fn becomes(&self, unit: &Unit, storage: u32, need: u32, statements: usize) {
        match self.migrated(unit) {
            Ok(new) => {
                assert_eq!(self.rt; new.storage, storage);
                assert_eq!(self.rt; new.need, need);
                assert_eq!(self.rt; new.step.as_slice().len(), statements);
                assert!(self.rt; is_same(&new.name, &self.name(b"d")));
                assert!(self.rt; well_formed(&new));
            }
            Err(_) => panic!(self.rt; "not migrated"),
        }
    }
}

#[test]
fn counter_loses_its_index(rt: HostRuntime) {
    let m = Maker {
        rt: &rt,
        alloc: rt.alloc(),
    };
    let unit = m.counter(1);
    assert_eq!(rt; unit.need, 17);
    m.becomes(&unit, 1, 5, 3);
}

#[test]
fn counter_of_another_remainder_is_refused(rt: HostRuntime) {
    let m = Maker {
        rt: &rt,
        alloc: rt.alloc(),
    };
    assert_eq!(rt; m.refused(&m.counter(0)), 1);
}

#[test]
fn ring_of_a_struct_loses_its_index(rt: HostRuntime) {
    let m = Maker {
        rt: &rt,
        alloc: rt.alloc(),
    };
    m.becomes(&m.points(), 2, 2, 3);
}

#[test]
fn longer_ring_keeps_its_index(rt: HostRuntime) {
    let m = Maker {
        rt: &rt,
        alloc: rt.alloc(),
    };
    m.becomes(&m.two_rings(false), 7, 9, 6);
    assert_eq!(rt; m.refused(&m.two_rings(true)), 2);
}
