// Programs printed byte for byte, and one whose expression is as high as the subset allows.
ghost use Rattle.sm_io.specs.Names.{IsNameBytes};

use super::{print_header, print_source};
use c99_ast::well_formed;
use c99_tree::{CBin, CDef, CExpr, CLit, CProto, CRing, CScalar, CStmt, CTy, CUn, CVar, Unit};
use sm_io::{MemSink, Name, Seq, VecSink};
use sqlite_items::{Boxed, Items};
use std::alloc::{AllocError, Global};
use std::process::Abort;
use std::test::Fail;

// Makes the parts of programs, and ends the test where there is no memory.
#[derive(Drop)]
struct Maker<'a, R: Abort> {
    rt: &'a R,
    alloc: Global,
}

impl<R: Abort> Maker<'_, R> {
    fn name(&self, text: &[u8]) -> Name
        requires { IsNameBytes text.now }
    {
        Name::new(Vec::from_slice(self.alloc, text).expect(self.rt, "memory"))
    }

    fn push<T: Drop>(&self, all: &mut Seq<T>, x: T) {
        match all.push(x) {
            Ok(()) => {}
            Err(_) => panic!(self.rt; "memory"),
        }
    }

    fn one<T: Drop>(&self, x: T) -> Seq<T> {
        let mut all = Seq::new(self.alloc);
        self.push(&mut all, x);
        all
    }

    fn two<T: Drop>(&self, x: T, y: T) -> Seq<T> {
        let mut all = self.one(x);
        self.push(&mut all, y);
        all
    }

    fn scalar(&self, text: &[u8], t: CScalar) -> CVar
        requires { IsNameBytes text.now }
    {
        CVar {
            name: self.name(text),
            ty: CTy::Scalar(t),
        }
    }

    fn array(&self, text: &[u8], elem: &[u8], n: u32) -> CVar
        requires text { IsNameBytes text.now }
        requires elem { IsNameBytes elem.now }
    {
        CVar {
            name: self.name(text),
            ty: CTy::Array(self.name(elem), n),
        }
    }

    fn array_type(&self, elem: &[u8], n: u32) -> CDef
        requires { IsNameBytes elem.now }
    {
        CDef::Array {
            elem: self.name(elem),
            n,
        }
    }

    fn handler(&self, text: &[u8], params: Seq<CTy>) -> CProto
        requires { IsNameBytes text.now }
    {
        CProto {
            name: self.name(text),
            params,
        }
    }

    fn unit(&self, text: &[u8], storage: u32, need: u32) -> Unit
        requires { IsNameBytes text.now }
    {
        Unit {
            name: self.name(text),
            types: Seq::new(self.alloc),
            storage,
            need,
            externs: Seq::new(self.alloc),
            handlers: Seq::new(self.alloc),
            rings: Seq::new(self.alloc),
            step: Seq::new(self.alloc),
        }
    }

    fn boxed(&self, e: CExpr) -> Boxed<CExpr> {
        Boxed::new(self.alloc, e).expect(self.rt, "memory")
    }

    fn copy(&self, text: &[u8]) -> CExpr
        requires { IsNameBytes text.now }
    {
        CExpr::Copy(self.name(text))
    }

    fn unary(&self, op: CUn, a: CExpr) -> CExpr {
        CExpr::Un(op, self.boxed(a))
    }

    fn binary(&self, op: CBin, a: CExpr, b: CExpr) -> CExpr {
        CExpr::Bin(op, self.boxed(a), self.boxed(b))
    }

    fn cast(&self, t: CScalar, a: CExpr) -> CExpr {
        CExpr::Cast(t, self.boxed(a))
    }

    fn pick(&self, n: u32, a: CExpr, i: CExpr) -> CExpr {
        CExpr::Pick(self.name(b"P"), n, self.boxed(a), self.boxed(i))
    }

    fn member(&self, a: CExpr, text: &[u8]) -> CExpr
        requires { IsNameBytes text.now }
    {
        CExpr::Field(self.boxed(a), self.name(text))
    }

    fn pair(&self, x: CExpr, y: CExpr) -> Items<CExpr> {
        let mut all = Items::new(self.alloc);
        all.push(x).expect(self.rt, "memory");
        all.push(y).expect(self.rt, "memory");
        all
    }

    fn read(&self, text: &[u8]) -> CStmt
        requires { IsNameBytes text.now }
    {
        CStmt::Copy {
            name: self.name(text),
        }
    }

    fn call(&self, text: &[u8], guard: CExpr, args: Seq<CExpr>) -> CStmt
        requires { IsNameBytes text.now }
    {
        CStmt::Call {
            handler: self.name(text),
            guard,
            args,
        }
    }

    fn next(&self, text: &[u8], value: CExpr) -> CStmt
        requires { IsNameBytes text.now }
    {
        CStmt::Next {
            ring: self.name(text),
            value,
        }
    }

    fn put(&self, text: &[u8]) -> CStmt
        requires { IsNameBytes text.now }
    {
        CStmt::Put {
            ring: self.name(text),
        }
    }

    fn heater(&self) -> Unit {
        let mut unit = self.unit(b"heater", 4, 1);
        unit.externs = self.one(self.scalar(b"temp", CScalar::I32));
        unit.handlers = self.one(self.handler(b"heat", self.one(CTy::Scalar(CScalar::I32))));
        let low = self.binary(CBin::Lt, self.copy(b"temp"), CExpr::Lit(CLit::I, 18));
        let call = self.call(b"heat", low, self.one(self.copy(b"temp")));
        unit.step = self.two(self.read(b"temp"), call);
        unit
    }

    fn door(&self) -> Unit {
        let mut unit = self.unit(b"door", 1, 0);
        unit.externs = self.one(self.scalar(b"ajar", CScalar::Bool));
        unit.handlers = self.one(self.handler(b"chime", Seq::new(self.alloc)));
        let call = self.call(b"chime", self.copy(b"ajar"), Seq::new(self.alloc));
        unit.step = self.two(self.read(b"ajar"), call);
        unit
    }

    // The index of the counter's ring, so much further.
    fn moved(&self, by: u64) -> CExpr {
        let head = CExpr::Head(self.name(b"n"));
        let sum = self.binary(CBin::Add, head, CExpr::Lit(CLit::U, by));
        self.binary(CBin::Rem, sum, CExpr::Lit(CLit::U, 1))
    }

    // The value of the counter, in its layout.
    fn counted(&self, indexed: bool) -> CExpr {
        if indexed {
            CExpr::RingAt(self.name(b"n"), self.boxed(self.moved(0)))
        } else {
            CExpr::Cell(self.name(b"n"))
        }
    }

    // How the counter's ring takes its next value, in its layout.
    fn keep(&self, indexed: bool, step: &mut Seq<CStmt>) {
        if indexed {
            let at = CExpr::Head(self.name(b"n"));
            self.push(
                step,
                CStmt::Store {
                    ring: self.name(b"n"),
                    at,
                },
            );
            let value = self.moved(1);
            self.push(
                step,
                CStmt::Move {
                    ring: self.name(b"n"),
                    value,
                },
            );
        } else {
            self.push(step, self.put(b"n"));
        }
    }

    fn counter_ring(&self, indexed: bool) -> CRing {
        CRing {
            name: self.name(b"n"),
            ty: CTy::Scalar(CScalar::U8),
            len: 1,
            indexed,
            init: self.one(0),
        }
    }

    fn counter(&self, indexed: bool, storage: u32, need: u32) -> Unit {
        let mut unit = self.unit(b"c", storage, need);
        unit.handlers = self.one(self.handler(b"t", self.one(CTy::Scalar(CScalar::U8))));
        unit.rings = self.one(self.counter_ring(indexed));
        let is_none = self.binary(CBin::Eq, self.counted(indexed), CExpr::Lit(CLit::U, 0));
        let call = self.call(b"t", is_none, self.one(self.counted(indexed)));
        let now = self.cast(CScalar::U32, self.counted(indexed));
        let one = self.cast(CScalar::U32, CExpr::Lit(CLit::U, 1));
        let sum = self.binary(CBin::Add, now, one);
        let mut step = self.two(call, self.next(b"n", self.cast(CScalar::U8, sum)));
        self.keep(indexed, &mut step);
        unit.step = step;
        unit
    }

    // `struct P` of two numbers.
    fn point(&self, y: CScalar) -> CDef {
        CDef::Struct {
            name: self.name(b"P"),
            fields: self.two(self.scalar(b"x", CScalar::I16), self.scalar(b"y", y)),
        }
    }

    fn picker(&self) -> Unit {
        let mut unit = self.unit(b"g", 16, 3);
        unit.types = self.two(self.point(CScalar::I16), self.array_type(b"P", 3));
        unit.externs = self.two(self.array(b"p", b"P", 3), self.scalar(b"i", CScalar::U32));
        unit.handlers = self.one(self.handler(b"t", self.one(CTy::Scalar(CScalar::I16))));
        let x = self.member(self.pick(3, self.copy(b"p"), self.copy(b"i")), b"x");
        let mut step = self.two(self.read(b"p"), self.read(b"i"));
        self.push(&mut step, self.call(b"t", CExpr::True, self.one(x)));
        unit.step = step;
        unit
    }

    // `struct Q` of an array of structs, a number and an array of bools.
    fn nested(&self) -> CDef {
        let mut fields = self.two(self.array(b"p", b"P", 2), self.scalar(b"u", CScalar::U64));
        self.push(&mut fields, self.array(b"b", b"Bool", 2));
        CDef::Struct {
            name: self.name(b"Q"),
            fields,
        }
    }

    fn words(&self, words: &[u64]) -> Seq<u64> {
        Seq::of(Vec::from_slice(self.alloc, words).expect(self.rt, "memory"))
    }

    // A ring with an index of structs.
    fn nested_ring(&self) -> CRing {
        let least = 0x8000_0000_0000_0000;
        CRing {
            name: self.name(b"1"),
            ty: CTy::Struct(self.name(b"Q")),
            len: 2,
            indexed: true,
            init: self.words(&[
                1,
                2,
                u64::MAX - 1,
                least,
                u64::MAX,
                1,
                0,
                3,
                4,
                u64::MAX,
                0,
                0,
                0,
                1,
            ]),
        }
    }

    // A ring without an index of an array.
    fn single_ring(&self) -> CRing {
        CRing {
            name: self.name(b"s"),
            ty: CTy::Array(self.name(b"P"), 2),
            len: 1,
            indexed: false,
            init: self.words(&[0, 0, 0, 0]),
        }
    }

    // `(true ? (!false) : ((bool)1))`.
    fn chosen(&self) -> CExpr {
        let yes = self.boxed(self.unary(CUn::Not, CExpr::False));
        let one = self.boxed(self.cast(CScalar::Bool, CExpr::Lit(CLit::I, 1)));
        CExpr::Cond(self.boxed(CExpr::True), yes, one)
    }

    // `((struct P){ x, y })`.
    fn made(&self, x: CExpr, y: CExpr) -> CExpr {
        CExpr::Rec(self.name(b"P"), self.pair(x, y))
    }

    // `((struct cp_arr_P_2){ { ((struct P){ (-1), (~0LL) }), cp_ix_P_2(cp_b_s, 0) } })`.
    fn made_points(&self) -> CExpr {
        let x = self.unary(CUn::Neg, CExpr::Lit(CLit::I, 1));
        let first = self.made(x, self.unary(CUn::BitNot, CExpr::Lit(CLit::LL, 0)));
        let second = self.pick(2, CExpr::Cell(self.name(b"s")), CExpr::Lit(CLit::I, 0));
        CExpr::Arr(self.name(b"P"), 2, self.pair(first, second))
    }

    fn nested_call(&self) -> CStmt {
        let old = CExpr::RingAt(self.name(b"1"), self.boxed(CExpr::Lit(CLit::U, 0)));
        let point = self.pick(2, self.member(old, b"p"), CExpr::Lit(CLit::I, 1));
        let made = self.made(CExpr::Lit(CLit::I, 5), CExpr::Lit(CLit::LL, 6));
        self.call(
            b"t",
            self.chosen(),
            self.two(self.member(point, b"x"), made),
        )
    }

    // Structs and arrays in one another, in types, initialisers and compound literals.
    fn nest(&self) -> Unit {
        let mut unit = self.unit(b"m", 84, 15);
        let mut types = self.two(self.point(CScalar::I64), self.array_type(b"P", 2));
        self.push(&mut types, self.array_type(b"Bool", 2));
        self.push(&mut types, self.nested());
        unit.types = types;
        let params = self.two(CTy::Scalar(CScalar::I16), CTy::Struct(self.name(b"P")));
        unit.handlers = self.one(self.handler(b"t", params));
        unit.rings = self.two(self.nested_ring(), self.single_ring());
        let mut step = self.two(self.nested_call(), self.next(b"s", self.made_points()));
        self.push(&mut step, self.put(b"s"));
        unit.step = step;
        unit
    }

    // A call whose guard is `true` under 8,192 signs.
    fn deep(&self) -> Unit {
        let mut unit = self.unit(b"d", 0, 8192);
        unit.handlers = self.one(self.handler(b"h", Seq::new(self.alloc)));
        unit.step = self.one(self.call(b"h", self.deep_guard(), Seq::new(self.alloc)));
        unit
    }

    fn deep_guard(&self) -> CExpr {
        let mut guard = CExpr::True;
        for _ in 0..8192 {
            guard = self.unary(CUn::Not, guard);
        }
        guard
    }

    fn units(&self) -> Seq<Unit> {
        let mut all = self.two(self.heater(), self.unit(b"a", 0, 0));
        self.push(&mut all, self.door());
        self.push(&mut all, self.counter(false, 1, 5));
        self.push(&mut all, self.counter(true, 5, 17));
        self.push(&mut all, self.picker());
        self.push(&mut all, self.nest());
        all
    }
}

// The header and the source of each.
const TEXTS: [(&str, &str); 7] = [
    (
        "#ifndef CP_heater_H\n#define CP_heater_H\n#include <stdint.h>\n#include <stdbool.h>\nenum { cp_storage = 4, cp_need = 1 };\nextern int32_t temp;\nvoid heat(int32_t);\nvoid step(void);\n#endif\n",
        "#include \"heater.h\"\nstatic int32_t cp_c_temp;\nvoid step(void)\n{\n  cp_c_temp = temp;\n  if ((cp_c_temp < 18)) { heat(cp_c_temp); }\n}\n",
    ),
    (
        "#ifndef CP_a_H\n#define CP_a_H\n#include <stdint.h>\n#include <stdbool.h>\nenum { cp_storage = 0, cp_need = 0 };\nvoid step(void);\n#endif\n",
        "#include \"a.h\"\nvoid step(void)\n{\n}\n",
    ),
    (
        "#ifndef CP_door_H\n#define CP_door_H\n#include <stdint.h>\n#include <stdbool.h>\nenum { cp_storage = 1, cp_need = 0 };\nextern bool ajar;\nvoid chime(void);\nvoid step(void);\n#endif\n",
        "#include \"door.h\"\nstatic bool cp_c_ajar;\nvoid step(void)\n{\n  cp_c_ajar = ajar;\n  if (cp_c_ajar) { chime(); }\n}\n",
    ),
    (
        "#ifndef CP_c_H\n#define CP_c_H\n#include <stdint.h>\n#include <stdbool.h>\nenum { cp_storage = 1, cp_need = 5 };\nvoid t(uint8_t);\nvoid step(void);\n#endif\n",
        "#include \"c.h\"\nstatic uint8_t cp_b_n = 0U;\nvoid step(void)\n{\n  if ((cp_b_n == 0U)) { t(cp_b_n); }\n  uint8_t cp_n_n = ((uint8_t)(((uint32_t)cp_b_n) + ((uint32_t)1U)));\n  cp_b_n = cp_n_n;\n}\n",
    ),
    (
        "#ifndef CP_c_H\n#define CP_c_H\n#include <stdint.h>\n#include <stdbool.h>\nenum { cp_storage = 5, cp_need = 17 };\nvoid t(uint8_t);\nvoid step(void);\n#endif\n",
        "#include \"c.h\"\nstatic uint8_t cp_b_n[1] = { 0U };\nstatic uint32_t cp_i_n = 0U;\nvoid step(void)\n{\n  if ((cp_b_n[((cp_i_n + 0U) % 1U)] == 0U)) { t(cp_b_n[((cp_i_n + 0U) % 1U)]); }\n  uint8_t cp_n_n = ((uint8_t)(((uint32_t)cp_b_n[((cp_i_n + 0U) % 1U)]) + ((uint32_t)1U)));\n  cp_b_n[cp_i_n] = cp_n_n;\n  cp_i_n = ((cp_i_n + 1U) % 1U);\n}\n",
    ),
    (
        "#ifndef CP_g_H\n#define CP_g_H\n#include <stdint.h>\n#include <stdbool.h>\nenum { cp_storage = 16, cp_need = 3 };\nstruct P { int16_t x; int16_t y; };\nstruct cp_arr_P_3 { struct P e[3]; };\nextern struct cp_arr_P_3 p;\nextern uint32_t i;\nvoid t(int16_t);\nvoid step(void);\n#endif\n",
        "#include \"g.h\"\nstatic struct P cp_ix_P_3(struct cp_arr_P_3 cp_a, uint32_t cp_k) { return cp_a.e[cp_k]; }\nstatic struct cp_arr_P_3 cp_c_p;\nstatic uint32_t cp_c_i;\nvoid step(void)\n{\n  cp_c_p = p;\n  cp_c_i = i;\n  if (true) { t((cp_ix_P_3(cp_c_p, cp_c_i).x)); }\n}\n",
    ),
    (
        "#ifndef CP_m_H\n#define CP_m_H\n#include <stdint.h>\n#include <stdbool.h>\nenum { cp_storage = 84, cp_need = 15 };\nstruct P { int16_t x; int64_t y; };\nstruct cp_arr_P_2 { struct P e[2]; };\nstruct cp_arr_Bool_2 { bool e[2]; };\nstruct Q { struct cp_arr_P_2 p; uint64_t u; struct cp_arr_Bool_2 b; };\nvoid t(int16_t, struct P);\nvoid step(void);\n#endif\n",
        "#include \"m.h\"\nstatic struct P cp_ix_P_2(struct cp_arr_P_2 cp_a, uint32_t cp_k) { return cp_a.e[cp_k]; }\nstatic bool cp_ix_Bool_2(struct cp_arr_Bool_2 cp_a, uint32_t cp_k) { return cp_a.e[cp_k]; }\nstatic struct Q cp_b_1[2] = { { { { { 1, 2LL }, { ((-1) - 1), ((-9223372036854775807LL) - 1LL) } } }, 18446744073709551615ULL, { { true, false } } }, { { { { 3, 4LL }, { ((-0) - 1), 0LL } } }, 0ULL, { { false, true } } } };\nstatic uint32_t cp_i_1 = 0U;\nstatic struct cp_arr_P_2 cp_b_s = { { { 0, 0LL }, { 0, 0LL } } };\nvoid step(void)\n{\n  if ((true ? (!false) : ((bool)1))) { t((cp_ix_P_2((cp_b_1[0U].p), 1).x), ((struct P){ 5, 6LL })); }\n  struct cp_arr_P_2 cp_n_s = ((struct cp_arr_P_2){ { ((struct P){ (-1), (~0LL) }), cp_ix_P_2(cp_b_s, 0) } });\n  cp_b_s = cp_n_s;\n}\n",
    ),
];

#[test]
fn units_are_printed(rt: HostRuntime) {
    let alloc = rt.alloc();
    let units = Maker { rt: &rt, alloc }.units();
    assert_eq!(rt; units.as_slice().len(), TEXTS.len());
    for (unit, (header, source)) in units.as_slice().iter().zip(TEXTS.iter()) {
        assert!(rt; well_formed(unit), "{header}");
        let mut sink = VecSink::new(alloc);
        assert!(rt; print_header(unit, &mut sink).is_ok());
        assert_eq!(rt; sink.taken(), header.as_bytes());
        let mut sink = VecSink::new(alloc);
        assert!(rt; print_source(unit, &mut sink).is_ok());
        assert_eq!(rt; sink.taken(), source.as_bytes());
    }
}

// After a fault nothing more is written.
#[test]
fn a_fault_ends_the_text(rt: HostRuntime) -> Result<(), Fail> {
    let alloc = rt.alloc();
    let unit = Maker { rt: &rt, alloc }.door();
    assert!(rt; well_formed(&unit));
    let mut sink = MemSink::new(alloc, 1000, vec![in alloc; 1]?)?;
    assert!(rt; print_source(&unit, &mut sink).is_err());
    assert_eq!(rt; sink.taken(), b"#include \"".as_slice());
    Ok(())
}

// The source of the program whose guard stands under 8,192 signs.
fn deep_text(alloc: Global) -> Result<Vec<u8>, AllocError> {
    let mut text = Vec::from_slice(alloc, b"#include \"d.h\"\nvoid step(void)\n{\n  if (")?;
    for _ in 0..8192 {
        text.extend_from_slice(b"(!")?;
    }
    text.extend_from_slice(b"true")?;
    for _ in 0..8192 {
        text.extend_from_slice(b")")?;
    }
    text.extend_from_slice(b") { h(); }\n}\n")?;
    Ok(text)
}

#[test]
fn the_highest_expression_is_printed(rt: HostRuntime) -> Result<(), Fail> {
    let alloc = rt.alloc();
    let unit = Maker { rt: &rt, alloc }.deep();
    assert!(rt; well_formed(&unit));
    let mut sink = VecSink::new(alloc);
    assert!(rt; print_source(&unit, &mut sink).is_ok());
    assert!(rt; sink.taken() == deep_text(alloc)?.as_slice());
    Ok(())
}
