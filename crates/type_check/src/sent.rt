// What the first trigger of each name sends.
ghost use Rattle.std.specs.Prelude.{◌≡◌, ℕ, List, ◌∷◌, true, Some, OnOk, IfErr};
ghost use Rattle.std.specs.Option.{option_map_or};
ghost use Rattle.spec_text.specs.declared.surface.Expr.{Expr};
ghost use Rattle.spec_text.specs.declared.surface.Decl.TheVariants as decl;
ghost use Rattle.type_check.specs.NamedType.{NamedType, Declarations};
ghost use Rattle.type_check.specs.Untyped.{Sent, sent_types, first_sent, agree};
ghost use Rattle.type_check.specs.Standing.{IsDistinct, AllMean, AllMeanOption};
ghost use Rattle.type_check.specs.Table.{HasSent};

use crate::fault::TypeFault;
use crate::known::{Known, agree};
use indexmap::IndexMap;
use sm_io::{Name, Seq};
use spec_text::NameAt;
use std::alloc::Global;

/// Whether a trigger's arguments agree with those of the first of its name, which it is if there is none.
pub fn agrees(sent: &IndexMap<Name, Seq<Option<Known>>>, name: &Name, args: &[Known]) -> bool
    ensures { (names : List (List ℕ)) (all ds : Declarations) (ts : List NamedType) → IsDistinct names
        → HasSent names all ds sent.now.entries → AllMean names args.now ts
        → result ≡ option_map_or (λ (s : Sent). agree (sent_types all (Some s)) ts) (first_sent ds name.now) true }
{
    match sent.get(name) {
        Some(first) => agree(first.as_slice(), args),
        None => true,
    }
}

/// Keeps what a trigger sends, if it is the first of its name.
pub fn send(
    alloc: Global,
    sent: &mut IndexMap<Name, Seq<Option<Known>>>,
    name: &NameAt,
    args: Vec<Option<Known>>,
) -> Result<(), TypeFault>
    ensures sent { (names : List (List ℕ)) (all ds : Declarations) (at : ℕ) (guard : Expr) (es : List Expr)
        → HasSent names all ds sent.old.entries → AllMeanOption names args.items (sent_types all (Some (record { before = ds; args = es })))
        → OnOk result (HasSent names all (decl.Trigger at name.now guard es ∷ ds) sent.new.entries) }
    ensures err { IfErr result (λ e. e ≡ TypeFault.Memory) }
{
    if sent.contains_key(&name.name) {
        return Ok(());
    }
    sent.insert(name.name.copy(alloc)?, Seq::of(args))?;
    Ok(())
}
