// Steps and metaspace from the numbers that a caller in C gives.
ghost use Rattle.std.specs.Prelude.{◌≡◌, ◌<◌, ◌≤◌, length, get_or};
ghost use Rattle.varitmol.specs.Numbers.{step_number, span_at, step_of, steps_from, scheme_of, metaspace_from, wrong_step, wrong_steps, wrong_numbers};

use model::tables::number_at;
use model::{Metaspace, PrependScheme, Span, Step};

// The steps that a model has at most.
const STEP_LIMIT: usize = 16;

// The kinds of a step, which are its variants in their order: an exported function takes no enum, so they come as numbers.
const PREPEND: u8 = 0;

const REPLACE: u8 = 1;

const COLLAPSE_SPACES: u8 = 2;

const STRIP: u8 = 3;

// Metaspace: absent, or present with a scheme.
const ABSENT: u8 = 0;

const NEVER: u8 = 1;

const ALWAYS: u8 = 2;

const FIRST: u8 = 3;

// The number at `k` of the step at `i`.
#[tactic(auto, unfolding(crate::specs::Numbers::step_number))]
fn step_number(spans: &[u32], i: usize, k: usize) -> u32
    requires i_bound { i < 16 }
    requires k_bound { k < 4 }
    ensures { result ≡ step_number spans.now i k }
{
    number_at(spans, i * 4 + k)
}

#[tactic(auto, unfolding(crate::specs::Numbers::span_at))]
fn span_at(spans: &[u32], i: usize, k: usize) -> Span
    requires i_bound { i < 16 }
    requires k_bound { k < 3 }
    ensures { result ≡ span_at spans.now i k }
{
    Span {
        place: step_number(spans, i, k),
        len: step_number(spans, i, k + 1),
    }
}

#[tactic(auto, unfolding(crate::specs::Numbers::step_of))]
fn step_of(kind: u8, spans: &[u32], i: usize) -> Step
    requires { i < 16 }
    ensures { result ≡ step_of kind spans.now i }
{
    match kind {
        PREPEND => Step::Prepend(span_at(spans, i, 0)),
        REPLACE => Step::Replace {
            pattern: span_at(spans, i, 0),
            content: span_at(spans, i, 2),
        },
        COLLAPSE_SPACES => Step::CollapseSpaces {
            content: span_at(spans, i, 0),
        },
        _ => Step::Strip {
            left: step_number(spans, i, 0) == 1,
            right: step_number(spans, i, 1) == 1,
        },
    }
}

// The 16 steps; behind the last kind a Strip.
pub fn steps_from(kinds: &[u8], spans: &[u32]) -> [Step; 16]
    ensures { result ≡ steps_from kinds.now spans.now }
{
    let nothing = Step::Strip {
        left: false,
        right: false,
    };
    let mut steps = [nothing; STEP_LIMIT];
    for i in 0..STEP_LIMIT {
        let kind = kinds.get(i).copied().unwrap_or(STRIP);
        steps[i] = step_of(kind, spans, i);
    }
    steps
}

#[tactic(auto, unfolding(crate::specs::Numbers::scheme_of))]
fn scheme_of(number: u8) -> PrependScheme
    ensures { result ≡ scheme_of number }
{
    match number {
        NEVER => PrependScheme::Never,
        ALWAYS => PrependScheme::Always,
        _ => PrependScheme::First,
    }
}

#[tactic(auto, unfolding(crate::specs::Numbers::metaspace_from))]
pub fn metaspace_from(metaspace: u8, split: u8) -> Option<Metaspace>
    ensures { result ≡ metaspace_from metaspace split }
{
    if metaspace == ABSENT {
        return None;
    }
    Some(Metaspace {
        prepend: scheme_of(metaspace),
        split: split == 1,
    })
}

#[tactic(auto, unfolding(crate::specs::Numbers::wrong_step))]
fn wrong_step(spans: &[u32], i: usize, kind: u8) -> bool
    requires { i < 16 }
    ensures { result ≡ wrong_step spans.now (i, kind) }
{
    STRIP < kind || kind == STRIP && (1 < step_number(spans, i, 0) || 1 < step_number(spans, i, 1))
}

fn wrong_steps(kinds: &[u8], spans: &[u32]) -> bool
    requires { length kinds.now ≤ 16 }
    ensures { result ≡ wrong_steps kinds.now spans.now }
{
    kinds
        .iter()
        .enumerate()
        .any(|(i, kind)| wrong_step(spans, i, *kind))
}

// Whether the numbers are wrong: they stand for no steps, or for no metaspace.
#[tactic(auto, unfolding(crate::specs::Numbers::wrong_numbers))]
pub fn wrong_numbers(kinds: &[u8], spans: &[u32], metaspace: u8, split: u8) -> bool
    ensures { result ≡ wrong_numbers kinds.now spans.now metaspace split }
{
    STEP_LIMIT < kinds.len()
        || spans.len() != kinds.len() * 4
        || wrong_steps(kinds, spans)
        || FIRST < metaspace
        || 1 < split
}
