// Types as they are written.
ghost use Rattle.std.specs.Prelude.{◌++◌, codes};
ghost use Rattle.spec_text.specs.Form.{form_of_type, headed, number, more, none};
ghost use Rattle.spec_text.specs.Canonical.{text};
ghost use Rattle.sm_print.specs.Prints.{Prints};

use crate::lists::{opened, spaced_number};
use sm_io::Sink;
use sm_print::Printer;
use spec_text::TypeForm;
use spec_words::scalar_word;

#[cycle(typing)]
fn type_form<K: Sink>(out: &mut Printer<'_, K>, ty: &TypeForm)
    ensures { Prints K.taken K.faults out.old (text (form_of_type ty.now)) out.new }
{
    match ty {
        TypeForm::Scalar { scalar, .. } => out.put(scalar_word(*scalar)),
        TypeForm::Named(x) => out.put(x.name.bytes()),
        TypeForm::Array { elem, n, .. } => array_type(out, elem.get(), *n),
    }
}

#[cycle(typing)]
fn array_type<K: Sink>(out: &mut Printer<'_, K>, elem: &TypeForm, n: u32)
    ensures { Prints K.taken K.faults out.old (text (headed None (codes "array") (more (form_of_type elem.now) (more (number n) none)))) out.new }
{
    opened(out, b"array");
    spaced_type(out, elem);
    spaced_number(out, n);
    out.put(b")");
}

#[cycle(typing)]
pub fn spaced_type<K: Sink>(out: &mut Printer<'_, K>, ty: &TypeForm)
    ensures { Prints K.taken K.faults out.old (codes " " ++ text (form_of_type ty.now)) out.new }
{
    out.put(b" ");
    type_form(out, ty);
}
