// Whether the model puts a space in front of texts, so that decoding takes one away.
ghost use Rattle.std.specs.Prelude.{◌≡◌, ◌≤◌, take};
ghost use Rattle.std.specs.List.{list_any};
ghost use Rattle.decode.specs.Decode.{scheme_prepends, is_prepend, prepends_space};

use model::{Metaspace, PrependScheme, Step, StepList};

fn prepends_mark(metaspace: Option<Metaspace>) -> bool
    ensures { result ≡ scheme_prepends metaspace }
{
    match metaspace {
        None => false,
        Some(metaspace) => !matches!(metaspace.prepend, PrependScheme::Never),
    }
}

fn is_prepend(step: Step) -> bool
    ensures { result ≡ is_prepend step }
{
    matches!(step, Step::Prepend(_))
}

fn has_prepend(steps: &[Step]) -> bool
    ensures { result ≡ list_any is_prepend steps.now }
{
    steps.iter().any(|step| is_prepend(*step))
}

pub fn prepends_space(metaspace: Option<Metaspace>, steps: &StepList<'_>) -> bool
    requires { steps.now.count ≤ 16 }
    ensures { result ≡ prepends_space metaspace (take steps.now.count steps.now.list) }
{
    prepends_mark(metaspace) || has_prepend(&steps.list[..steps.count])
}
