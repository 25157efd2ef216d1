// A program with a struct and an array of it, executed over a few rows.
ghost use Rattle.sm_io.specs.Names.{IsNameBytes};
ghost use Rattle.std.specs.Prelude.{◌≡◌, ◌++◌, ◌∷◌, []};

use crate::{columns, execute};
use c_exec::Undefined;
use c99_ast::well_formed;
use c99_tree::{CBin, CDef, CExpr, CProto, CScalar, CStmt, CTy, CVar, Unit};
use row_sessions::Ending;
use sm_io::{MemSink, MemSource, Name, Seq};
use sqlite_items::Boxed;
use std::alloc::Global;
use std::process::Abort;

// Makes the parts of programs, and ends the test where there is no memory.
#[derive(Drop)]
struct Maker<'a, R: Abort> {
    rt: &'a R,
    alloc: Global,
}

impl<R: Abort> Maker<'_, R> {
    fn bytes(&self, text: &[u8]) -> Vec<u8>
        ensures { result.items ≡ text.now }
    {
        Vec::from_slice(self.alloc, text).expect(self.rt, "memory")
    }

    fn name(&self, text: &[u8]) -> Name
        requires { IsNameBytes text.now }
    {
        Name::new(self.bytes(text))
    }

    fn push<T: Drop>(&self, all: &mut Seq<T>, x: T)
        ensures { all.new ≡ all.old ++ x ∷ [] }
    {
        match all.push(x) {
            Ok(()) => {}
            Err(_) => panic!(self.rt; "memory"),
        }
    }

    fn one<T: Drop>(&self, x: T) -> Seq<T> {
        let mut all = Seq::new(self.alloc);
        self.push(&mut all, x);
        all
    }

    fn two<T: Drop>(&self, x: T, y: T) -> Seq<T> {
        let mut all = self.one(x);
        self.push(&mut all, y);
        all
    }

    fn var(&self, text: &[u8], ty: CTy) -> CVar
        requires { IsNameBytes text.now }
    {
        CVar {
            name: self.name(text),
            ty,
        }
    }

    fn handler(&self, text: &[u8], params: Seq<CTy>) -> CProto
        requires { IsNameBytes text.now }
    {
        CProto {
            name: self.name(text),
            params,
        }
    }

    fn copy(&self, text: &[u8]) -> CExpr
        requires { IsNameBytes text.now }
    {
        CExpr::Copy(self.name(text))
    }

    fn read(&self, text: &[u8]) -> CStmt
        requires { IsNameBytes text.now }
    {
        CStmt::Copy {
            name: self.name(text),
        }
    }

    fn call(&self, text: &[u8], arg: CExpr) -> CStmt
        requires { IsNameBytes text.now }
    {
        CStmt::Call {
            handler: self.name(text),
            guard: CExpr::True,
            args: self.one(arg),
        }
    }

    // `struct P` of a truth value and a number.
    fn pair(&self) -> CDef {
        let x = self.var(b"x", CTy::Scalar(CScalar::Bool));
        let y = self.var(b"y", CTy::Scalar(CScalar::U8));
        CDef::Struct {
            name: self.name(b"P"),
            fields: self.two(x, y),
        }
    }

    fn pairs(&self) -> CTy {
        CTy::Array(self.name(b"P"), 2)
    }

    // The other extern, divided by itself.
    fn quotient(&self) -> CExpr {
        let above = Boxed::new(self.alloc, self.copy(b"n")).expect(self.rt, "memory");
        let below = Boxed::new(self.alloc, self.copy(b"n")).expect(self.rt, "memory");
        CExpr::Bin(CBin::Div, above, below)
    }

    // Calls `h` with the array of pairs, and `d` with that quotient.
    fn unit(&self) -> Unit {
        let array = CDef::Array {
            elem: self.name(b"P"),
            n: 2,
        };
        let n = self.var(b"n", CTy::Scalar(CScalar::I32));
        let number = self.one(CTy::Scalar(CScalar::I32));
        let handlers = self.two(
            self.handler(b"h", self.one(self.pairs())),
            self.handler(b"d", number),
        );
        let mut step = self.two(self.read(b"a"), self.read(b"n"));
        self.push(&mut step, self.call(b"h", self.copy(b"a")));
        self.push(&mut step, self.call(b"d", self.quotient()));
        Unit {
            name: self.name(b"u"),
            types: self.two(self.pair(), array),
            storage: 8,
            need: 1,
            externs: self.two(self.var(b"a", self.pairs()), n),
            handlers,
            rings: Seq::new(self.alloc),
            step,
        }
    }
}

#[test]
fn writes_the_calls_of_each_step(rt: HostRuntime) {
    let m = Maker {
        rt: &rt,
        alloc: rt.alloc(),
    };
    let unit = m.unit();
    assert!(rt; well_formed(&unit));
    let leaves = columns(m.alloc, &unit).expect(m.rt, "memory");
    let head = "n,a[0].x,a[0].y,a[1].x,a[1].y\n";
    let rows = "-3,true,1,false,2\n5,0,7,1,255\n0,0,0,0,0\n1,0,0,0,0\n";
    let mut text = m.bytes(head.as_bytes());
    text.extend_from_slice(rows.as_bytes())
        .expect(m.rt, "memory");
    let mut input = MemSource::new(text, 7, Vec::new(m.alloc));
    let mut out = MemSink::new(m.alloc, 100, Vec::new(m.alloc)).expect(m.rt, "memory");
    let ending = execute(m.alloc, &unit, leaves.as_slice(), &mut input, &mut out);
    let want = "0 h [{true,1},{false,2}]\n0 d 1\n1 h [{false,7},{true,255}]\n1 d 1\n";
    assert!(rt; out.taken() == want.as_bytes());
    let fault = Undefined::ZeroDivisor;
    assert!(rt; ending == Ending::Stopped { step: 2, fault });
}
