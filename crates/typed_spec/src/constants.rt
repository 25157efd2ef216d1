// The words of constants.
ghost use Rattle.std.specs.Prelude.{◌≡◌, ◌++◌, OnOk};
ghost use Rattle.std.specs.List.{flat_map};
ghost use Rattle.typed_text.specs.ReadSpec.{const_words};

use spec_text::ConstForm;
use std::alloc::AllocError;

/// Puts the words of a constant behind these.
#[cycle(constants)]
#[tactic(auto, using(spec_text::specs::FoldRows::const_rows), unfolding(typed_text::specs::ReadSpec::const_words))]
fn constant(words: &mut Vec<u64>, form: &ConstForm) -> Result<(), AllocError>
    ensures { OnOk result (words.new.items ≡ words.old.items ++ const_words form.now) }
{
    match form {
        ConstForm::Lit { word, .. } => {
            words.push(*word)?;
            Ok(())
        }
        ConstForm::Array { items, .. } => constants(words, items.as_slice()),
        ConstForm::Record { items, .. } => constants(words, items.as_slice()),
    }
}

/// Puts the words of constants behind these.
#[cycle(constants)]
#[tactic(auto, using(spec_text::specs::FoldRows::const_rows), unfolding(typed_text::specs::ReadSpec::const_words))]
pub fn constants(words: &mut Vec<u64>, forms: &[ConstForm]) -> Result<(), AllocError>
    ensures { OnOk result (words.new.items ≡ words.old.items ++ flat_map const_words forms.now) }
{
    for form in forms {
        constant(words, form)?;
    }
    Ok(())
}
