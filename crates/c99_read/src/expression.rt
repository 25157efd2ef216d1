// A whole expression.
ghost use Rattle.c99_tree.specs.Tree.{tree};
ghost use Rattle.c99_read.specs.Expressions.{ReadsExpression};
ghost use Rattle.c99_read.specs.Gives.{Gives};
ghost use Rattle.c99_read.specs.UnitAt.{all_of};

use crate::expressions::expr_of;
use crate::fault::{ReadExpressionFault, ReadFault};
use c99_tree::{CExpr, MOST_HEIGHT};
use std::alloc::Global;

// The expression that is the whole text.
fn whole_expression(alloc: Global, bytes: &[u8]) -> Result<CExpr, ReadFault>
    ensures { Gives tree result (all_of bytes.now) }
{
    let (e, rest) = expr_of(alloc, MOST_HEIGHT, bytes)?;
    if !rest.is_empty() {
        return Err(ReadFault::NotRead);
    }
    Ok(e)
}

/// The expression that has this text, which is the only one. It fails where no expression has it.
pub fn read_expression(alloc: Global, text: &[u8]) -> Result<CExpr, ReadExpressionFault>
    ensures { ReadsExpression text.now result }
{
    match whole_expression(alloc, text) {
        Ok(e) => Ok(e),
        Err(ReadFault::NotRead) => Err(ReadExpressionFault::NotExpression),
        Err(ReadFault::Memory) => Err(ReadExpressionFault::Memory),
    }
}
