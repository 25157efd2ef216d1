// How many declarations and words a specification has.
ghost use Rattle.std.specs.Prelude.{◌≡◌, ℕ, ◌+◌, ◌<◌, ◌≤◌, min, count_by, All};
ghost use Rattle.stream_core.specs.Soundness.{declarations, is_struct, total_words};
ghost use Rattle.stream_core.specs.Term.{trees};
ghost use Rattle.stream_core.specs.WellTyped.{WellTyped};
ghost use Rattle.stream_core.specs.declared.spec.ExternItem.{ExternItem};
ghost use Rattle.stream_types.specs.TypeList.{Stands};
ghost use Rattle.recursion_check.specs.Counted.{form_words, streams_words, libs_words, externs_words};

use stream_core::{ExternItem, LibForm, LibItem, Spec, StreamItem};
use stream_types::{TypeEntry, Types};

// One more than there may be.
const MOST_DECLS: usize = 4_097;

const MOST_WORDS: u64 = 262_145;

/// How many declarations there are, or 4,097 where there are more.
pub(crate) fn declarations(spec: &Spec) -> usize
    ensures { result ≡ min (declarations (trees spec.now)) 4097 }
{
    let mut total = add(0, structs(spec.types()) as usize);
    total = add(total, spec.externs().len());
    total = add(total, spec.streams().len());
    total = add(total, spec.defs().len());
    total = add(total, spec.triggers().len());
    add(total, spec.observers().len())
}

fn add(total: usize, more: usize) -> usize
    requires { total ≤ 4097 }
    ensures { result ≡ min (total + more) 4097 }
{
    total + more.min(MOST_DECLS - total)
}

fn structs(types: &Types) -> u32
    ensures { result ≡ count_by is_struct types.now }
{
    let mut count = 0;
    for i in 0..types.len() {
        if let TypeEntry::Struct { name: _, fields: _ } = types.entry(i) {
            count += 1;
        }
    }
    count
}

/// How many words there are in externs, streams and buffers, or 262,145 where there are more.
pub(crate) fn words(spec: &Spec) -> u64
    requires { WellTyped spec.now }
    ensures { result ≡ min (total_words (trees spec.now)) 262145 }
{
    let mut total = stream_words(spec.streams(), MOST_WORDS);
    total += lib_words(spec.libs(), MOST_WORDS - total);
    total + extern_words(spec.types(), spec.externs(), MOST_WORDS - total)
}

fn stream_words(streams: &[StreamItem], most: u64) -> u64
    ensures { result ≡ min (streams_words streams.now) most }
{
    let mut total = 0;
    for x in streams {
        let own = x.init.as_slice().len() as u64;
        total += own.min(most - total);
    }
    total
}

fn lib_words(libs: &[LibItem], most: u64) -> u64
    ensures { result ≡ min (libs_words libs.now) most }
{
    let mut total = 0;
    for x in libs {
        total += form_words(x.form).min(most - total);
    }
    total
}

fn extern_words(types: &Types, externs: &[ExternItem], most: u64) -> u64
    requires { All (λ (x : ExternItem). Stands types.now x.ty) externs.now }
    ensures { result ≡ min (externs_words types.now externs.now) most }
{
    let mut total = 0;
    for x in externs {
        let own = u64::from(types.words(x.ty));
        total += own.min(most - total);
    }
    total
}

// The words of a form's buffers.
fn form_words(form: LibForm) -> u64
    ensures { result ≡ form_words form }
{
    match form {
        LibForm::OnceIn(_, high) | LibForm::HistoricallyIn(_, high) => u64::from(high).max(1),
        LibForm::SinceIn(_, high) => 2 * u64::from(high).max(1),
        LibForm::WindowMax(n, _) | LibForm::WindowMin(n, _) | LibForm::WindowSum(n, _) => {
            u64::from(n).saturating_sub(1).max(1)
        }
        _ => 1,
    }
}
