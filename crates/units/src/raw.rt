// The raw path.
ghost use Rattle.std.specs.Prelude.{◌≡◌, take};
ghost use Rattle.units.specs.Kinds.{is_prepend_mark, is_space_replace, prepend_of, raw_path_of};
ghost use Rattle.units.specs.inner.Path.{raw_path_by};

use crate::crossings::metaspace_splits;
use crate::cut::divides;
use crate::{RawPrepend, WordSplit};
use model::mark::MARK;
use model::tables::string_of;
use model::{Metaspace, PrependScheme, Step, StepList};

#[tactic(auto, unfolding(crate::specs::Kinds::is_prepend_mark, model::specs::Mark::mark))]
fn is_prepend_mark(step_bytes: &[u8], step: Step) -> bool
    ensures { result ≡ is_prepend_mark step_bytes.now step }
{
    match step {
        Step::Prepend(content) => string_of(step_bytes, content) == MARK.as_slice(),
        _ => false,
    }
}

#[tactic(auto, unfolding(crate::specs::Kinds::is_space_replace, model::specs::Mark::mark, model::specs::Mark::space))]
fn is_space_replace(step_bytes: &[u8], step: Step) -> bool
    ensures { result ≡ is_space_replace step_bytes.now step }
{
    match step {
        Step::Replace { pattern, content } => {
            string_of(step_bytes, pattern) == b" ".as_slice()
                && string_of(step_bytes, content) == MARK.as_slice()
        }
        _ => false,
    }
}

#[tactic(auto, unfolding(crate::specs::Kinds::prepend_of, crate::specs::Kinds::prepend_by))]
fn prepend_of(metaspace: Option<Metaspace>) -> RawPrepend
    ensures { result ≡ prepend_of metaspace }
{
    match metaspace {
        None => RawPrepend::Never,
        Some(metaspace) => match metaspace.prepend {
            PrependScheme::Never => RawPrepend::Never,
            PrependScheme::Always => RawPrepend::GuardedAlways,
            PrependScheme::First => RawPrepend::GuardedFirst,
        },
    }
}

// The raw path that the steps and metaspace alone would give.
#[tactic(auto, unfolding(crate::specs::Kinds::is_present), using(crate::proofs::RawLaws::path_none, crate::proofs::RawLaws::path_more))]
fn path_of(step_bytes: &[u8], steps: &[Step], metaspace: Option<Metaspace>) -> Option<RawPrepend>
    ensures { result ≡ raw_path_of step_bytes.now steps.now metaspace }
{
    match steps {
        [] if metaspace.is_some() => Some(prepend_of(metaspace)),
        [step] if is_space_replace(step_bytes, *step) => Some(prepend_of(metaspace)),
        [first, second]
            if is_prepend_mark(step_bytes, *first)
                && is_space_replace(step_bytes, *second)
                && !metaspace_splits(metaspace) => { Some(RawPrepend::Unguarded) }
        _ => None,
    }
}

// The raw path of a model, by its kind and whether its second token list is empty.
#[tactic(auto, unfolding(crate::specs::inner::Path::raw_path_by))]
pub fn raw_path(
    steps: &StepList<'_>,
    metaspace: Option<Metaspace>,
    kind: WordSplit,
    second_empty: bool,
) -> Option<RawPrepend>
    ensures { result ≡ raw_path_by kind second_empty steps.now.bytes.now (take steps.now.count steps.now.list) metaspace }
{
    if divides(kind) && second_empty {
        path_of(steps.bytes, &steps.list[..steps.count.min(16)], metaspace)
    } else {
        None
    }
}
