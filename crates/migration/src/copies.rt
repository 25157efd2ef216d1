// What the new program has from the old one as it is.
ghost use Rattle.std.specs.Prelude.{◌≡◌, IfOk};

use c99_tree::{CDef, CProto, CTy, CVar};
use sm_io::Seq;
use std::alloc::{AllocError, Global};

pub(crate) fn copied_type(alloc: Global, ty: &CTy) -> Result<CTy, AllocError>
    ensures { IfOk result (λ t. t ≡ ty.now) }
{
    match ty {
        CTy::Scalar(s) => Ok(CTy::Scalar(*s)),
        CTy::Struct(x) => Ok(CTy::Struct(x.copy(alloc)?)),
        CTy::Array(x, n) => Ok(CTy::Array(x.copy(alloc)?, *n)),
    }
}

fn copied_types(alloc: Global, types: &[CTy]) -> Result<Seq<CTy>, AllocError>
    ensures { IfOk result (λ all. all ≡ types.now) }
{
    let mut all = Seq::new(alloc);
    for t in types {
        let ty = copied_type(alloc, t)?;
        all.push(ty)?;
    }
    Ok(all)
}

pub(crate) fn copied_vars(alloc: Global, vars: &[CVar]) -> Result<Seq<CVar>, AllocError>
    ensures { IfOk result (λ all. all ≡ vars.now) }
{
    let mut all = Seq::new(alloc);
    for v in vars {
        let name = v.name.copy(alloc)?;
        let ty = copied_type(alloc, &v.ty)?;
        all.push(CVar { name, ty })?;
    }
    Ok(all)
}

fn copied_def(alloc: Global, def: &CDef) -> Result<CDef, AllocError>
    ensures { IfOk result (λ d. d ≡ def.now) }
{
    match def {
        CDef::Struct { name, fields } => Ok(CDef::Struct {
            name: name.copy(alloc)?,
            fields: copied_vars(alloc, fields.as_slice())?,
        }),
        CDef::Array { elem, n } => Ok(CDef::Array {
            elem: elem.copy(alloc)?,
            n: *n,
        }),
    }
}

pub(crate) fn copied_defs(alloc: Global, defs: &[CDef]) -> Result<Seq<CDef>, AllocError>
    ensures { IfOk result (λ all. all ≡ defs.now) }
{
    let mut all = Seq::new(alloc);
    for def in defs {
        let d = copied_def(alloc, def)?;
        all.push(d)?;
    }
    Ok(all)
}

pub(crate) fn copied_protos(alloc: Global, protos: &[CProto]) -> Result<Seq<CProto>, AllocError>
    ensures { IfOk result (λ all. all ≡ protos.now) }
{
    let mut all = Seq::new(alloc);
    for h in protos {
        let name = h.name.copy(alloc)?;
        let params = copied_types(alloc, h.params.as_slice())?;
        all.push(CProto { name, params })?;
    }
    Ok(all)
}
