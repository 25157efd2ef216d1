// The parts of a node.
ghost use Rattle.std.specs.Prelude.{◌≡◌, IfOk, IfErr};
ghost use Rattle.std.specs.Global.{Vec as VecValue};
ghost use Rattle.std.specs.Option.{option_map};
ghost use Rattle.type_check.specs.Standing.{all_known};

use crate::fault::TypeFault;
use crate::known::Known;
use std::alloc::Global;

/// The types of some parts, if each has one.
pub fn all_typed(alloc: Global, parts: &[Option<Known>]) -> Result<Option<Vec<Known>>, TypeFault>
    ensures all { IfOk result (λ types. option_map (λ (v : VecValue Known). v.items) types ≡ all_known parts.now) }
    ensures err { IfErr result (λ e. e ≡ TypeFault.Memory) }
{
    let mut types = Vec::new(alloc);
    for part in parts {
        match *part {
            Some(ty) => {
                types.push(ty)?;
            }
            None => return Ok(None),
        }
    }
    Ok(Some(types))
}
