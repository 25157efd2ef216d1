// How much room a program needs. What isn't below 2^32 words is refused as what there is no memory for.
ghost use Rattle.std.specs.Prelude.{◌≡◌, ◌+◌, max, map, IfOk};
ghost use Rattle.std.specs.List.{sum_by};
ghost use Rattle.c_exec.specs.Codes.{op_of, act_of};
ghost use Rattle.c_exec.specs.Needs as spec;

use crate::code::{Code, Line};
use crate::layout::sum;
use std::alloc::AllocError;

/// How many words an expression's value has at most.
#[tactic(auto, using(crate::specs::CodeLaws::op_laws))]
fn wide(code: &Code) -> Result<u32, AllocError>
    ensures { IfOk result (λ n. n ≡ spec.wide (op_of code.now)) }
{
    match code {
        Code::Word(_) | Code::Un(_, _, _) | Code::Bin(_, _, _, _, _) | Code::Convert(_, _, _) => {
            Ok(1)
        }
        Code::Load(_, n)
        | Code::Element(_, n, _, _, _)
        | Code::Part(_, n, _)
        | Code::Pick(n, _, _, _) => { Ok(*n) }
        Code::Choose(_, a, b) => Ok(wide(a.get())?.max(wide(b.get())?)),
        Code::Met(a) => wide(a.get()),
        Code::Then(a, b) => sum(wide(a.get())?, wide(b.get())?),
        Code::Nothing => Ok(0),
    }
}

/// How many words more than before lie on the pile at most.
#[tactic(auto, using(crate::specs::CodeLaws::op_laws))]
fn need(code: &Code) -> Result<u32, AllocError>
    ensures { IfOk result (λ n. n ≡ spec.need (op_of code.now)) }
{
    match code {
        Code::Word(_) => Ok(1),
        Code::Load(_, n) => Ok(*n),
        Code::Element(_, n, _, _, a) | Code::Part(_, n, a) => Ok(need(a.get())?.max(*n)),
        Code::Un(_, _, a) | Code::Convert(_, _, a) => Ok(need(a.get())?.max(1)),
        Code::Met(a) => need(a.get()),
        Code::Bin(_, _, _, a, b) => Ok(need(a.get())?.max(sum(1, need(b.get())?)?)),
        Code::Choose(c, a, b) => Ok(need(c.get())?.max(need(a.get())?.max(need(b.get())?))),
        Code::Pick(n, _, a, b) => {
            let array = need(a.get())?.max(*n);
            Ok(array.max(sum(wide(a.get())?, need(b.get())?)?))
        }
        Code::Then(a, b) => Ok(need(a.get())?.max(sum(wide(a.get())?, need(b.get())?)?)),
        Code::Nothing => Ok(0),
    }
}

fn line_need(line: &Line) -> Result<u32, AllocError>
    ensures { IfOk result (λ n. n ≡ spec.act_need (act_of line.now)) }
{
    match line {
        Line::Copy(_, _) | Line::Put(_, _, _) => Ok(0),
        Line::Call(_, guard, args) => Ok(need(guard)?.max(need(args)?)),
        Line::Next(_, a) | Line::Move(_, a) | Line::Store(_, _, _, _, a, _) => need(a),
    }
}

/// How many words lie on the pile at most.
pub(crate) fn most_need(lines: &[Line]) -> Result<u32, AllocError>
    ensures { IfOk result (λ n. n ≡ spec.most_need (map act_of lines.now)) }
{
    let mut most = 0;
    for line in lines {
        most = line_need(line)?.max(most);
    }
    Ok(most)
}

fn line_words(line: &Line) -> Result<u32, AllocError>
    ensures { IfOk result (λ n. n ≡ spec.call_words (act_of line.now)) }
{
    match line {
        Line::Call(_, _, args) => wide(args),
        Line::Copy(_, _)
        | Line::Put(_, _, _)
        | Line::Next(_, _)
        | Line::Move(_, _)
        | Line::Store(_, _, _, _, _, _) => Ok(0),
    }
}

/// How many words the arguments of all calls have at most.
pub(crate) fn all_words(lines: &[Line]) -> Result<u32, AllocError>
    ensures { IfOk result (λ n. n ≡ sum_by spec.call_words (map act_of lines.now)) }
{
    let mut total = 0;
    for line in lines {
        total = sum(total, line_words(line)?)?;
    }
    Ok(total)
}

fn line_calls(line: &Line) -> u32
    ensures { result ≡ spec.call_count (act_of line.now) }
{
    match line {
        Line::Call(_, _, _) => 1,
        Line::Copy(_, _)
        | Line::Put(_, _, _)
        | Line::Next(_, _)
        | Line::Move(_, _)
        | Line::Store(_, _, _, _, _, _) => 0,
    }
}

/// How many calls there are.
pub(crate) fn all_calls(lines: &[Line]) -> Result<u32, AllocError>
    ensures { IfOk result (λ n. n ≡ sum_by spec.call_count (map act_of lines.now)) }
{
    let mut total = 0;
    for line in lines {
        total = sum(total, line_calls(line))?;
    }
    Ok(total)
}
