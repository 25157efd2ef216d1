// The parts that show the arguments of triggers and the values of observers.
ghost use Rattle.std.specs.Prelude.{◌≡◌, map, All, IfOk};
ghost use Rattle.stream_types.specs.TypeList.{Stands};
ghost use Rattle.stream_types.specs.declared.scalar.Ty.{Ty as AnyTy};
ghost use Rattle.stream_core.specs.WellTyped.{WellTyped};
ghost use Rattle.stream_core.specs.declared.spec.Root.{Root as AnyRoot};
ghost use Rattle.extern_rows.specs.ValueTexts.{shape_of};
ghost use Rattle.interpreter.specs.Lines.{observer_shape, shapes_of, trigger_shape};

use extern_rows::{Piece, push_pieces};
use sm_io::Seq;
use std::alloc::{AllocError, Global};
use std::marker::Model;
use stream_core::{Root, Spec};
use stream_types::Types;

/// The parts of each trigger's arguments and of each observer's value, by number.
#[derive(Drop)]
pub(crate) struct Shapes {
    pub(crate) triggers: Seq<Seq<Piece>>,
    pub(crate) observers: Seq<Seq<Piece>>,
}

impl Model for Shapes {
    ghost use Rattle.interpreter.specs.Lines.{ShapesValue};

    ghost Value = { ShapesValue };

    ghost view = { λ s. record { triggers = s.triggers; observers = s.observers } };
}

// The parts of some values, one after another.
fn shape(alloc: Global, types: &Types, roots: &[Root]) -> Result<Seq<Piece>, AllocError>
    requires { All (λ (r : AnyRoot). Stands types.now r.ty) roots.now }
    ensures { IfOk result (λ all. all ≡ shape_of types.now (map (λ (r : AnyRoot). r.ty) roots.now)) }
{
    let mut pieces = Vec::new(alloc);
    for root in roots {
        pieces.push(Piece::Gap)?;
        push_pieces(types, root.ty, &mut pieces)?;
    }
    Ok(Seq::of(pieces))
}

fn trigger_shapes(alloc: Global, spec: &Spec) -> Result<Seq<Seq<Piece>>, AllocError>
    requires { WellTyped spec.now }
    ensures { IfOk result (λ all. all ≡ map (trigger_shape spec.now) spec.now.triggers) }
{
    let mut all = Seq::new(alloc);
    let types = spec.types();
    for x in spec.triggers() {
        let pieces = shape(alloc, types, x.args.as_slice())?;
        all.push(pieces)?;
    }
    Ok(all)
}

fn observer_shapes(alloc: Global, spec: &Spec) -> Result<Seq<Seq<Piece>>, AllocError>
    requires { WellTyped spec.now }
    ensures { IfOk result (λ all. all ≡ map (observer_shape spec.now) spec.now.observers) }
{
    let mut all = Seq::new(alloc);
    let types = spec.types();
    for x in spec.observers() {
        let mut pieces = Vec::new(alloc);
        pieces.push(Piece::Gap)?;
        push_pieces(types, x.root.ty, &mut pieces)?;
        all.push(Seq::of(pieces))?;
    }
    Ok(all)
}

impl Shapes {
    /// Those of a specification.
    pub(crate) fn new(alloc: Global, spec: &Spec) -> Result<Shapes, AllocError>
        requires { WellTyped spec.now }
        ensures { IfOk result (λ shapes. shapes ≡ shapes_of spec.now) }
    {
        Ok(Shapes {
            triggers: trigger_shapes(alloc, spec)?,
            observers: observer_shapes(alloc, spec)?,
        })
    }
}
