// A small program.
ghost use Rattle.std.specs.Prelude.{IfOk, IsTrue};
ghost use Rattle.sm_io.specs.Names.{IsNameBytes};
ghost use Rattle.c99_tree.specs.WellFormed.{types_come_first};

use super::{
    CBin, CExpr, CLit, CProto, CScalar, CStmt, CTy, CVar, Unit, storage, unit_weight, well_formed,
};
use sm_io::{Name, Seq};
use sqlite_items::Boxed;
use std::alloc::{AllocError, Global};

fn name(alloc: Global, text: &[u8]) -> Result<Name, AllocError>
    requires { IsNameBytes text.now }
{
    Ok(Name::new(Vec::from_slice(alloc, text)?))
}

fn copy(alloc: Global) -> Result<CExpr, AllocError> {
    Ok(CExpr::Copy(name(alloc, b"temp")?))
}

// One copy, and one call of a handler where `temp < 18`.
fn heater(alloc: Global, need: u32) -> Result<Unit, AllocError>
    ensures { IfOk result (λ u. IsTrue (types_come_first u)) }
{
    let temp = CVar {
        name: name(alloc, b"temp")?,
        ty: CTy::Scalar(CScalar::I32),
    };
    let left = Boxed::new(alloc, copy(alloc)?)?;
    let right = Boxed::new(alloc, CExpr::Lit(CLit::I, 18))?;
    let call = CStmt::Call {
        handler: name(alloc, b"heat")?,
        guard: CExpr::Bin(CBin::Lt, left, right),
        args: Seq::of(vec![in alloc; copy(alloc)?]?),
    };
    let heat = CProto {
        name: name(alloc, b"heat")?,
        params: Seq::of(vec![in alloc; CTy::Scalar(CScalar::I32)]?),
    };
    let read = CStmt::Copy {
        name: name(alloc, b"temp")?,
    };
    Ok(Unit {
        name: name(alloc, b"heater")?,
        types: Seq::new(alloc),
        storage: 4,
        need,
        externs: Seq::of(vec![in alloc; temp]?),
        handlers: Seq::of(vec![in alloc; heat]?),
        rings: Seq::new(alloc),
        step: Seq::of(vec![in alloc; read, call]?),
    })
}

#[test]
fn heater_is_well_formed_with_its_own_totals(rt: HostRuntime) -> Result<(), AllocError> {
    let unit = heater(rt.alloc(), 1)?;
    assert_eq!(rt; storage(&unit), 4);
    assert_eq!(rt; unit_weight(&unit), 1);
    assert!(rt; well_formed(&unit));
    assert!(rt; !well_formed(&heater(rt.alloc(), 2)?));
    Ok(())
}
