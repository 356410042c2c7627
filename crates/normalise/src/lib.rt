// The normalization: steps and metaspace. Defined in specs/Steps.antt and specs/Spaces.antt, the call in specs/Normalise.antt.

#![tactic(auto)]

mod collapse;
mod copy;
mod exchange;
pub mod finish;
pub mod metaspace;
mod prepend;
mod put;
mod replace;
pub mod run;
pub mod step;
mod strip;

ghost use Rattle.std.specs.Prelude.{◌≡◌, ◌≤◌, Some, min, length, take};
ghost use Rattle.model.specs.Answers.{ScratchOutcome, answer_of};
ghost use Rattle.model.specs.Check.{check_number};
ghost use Rattle.model.specs.Model.{columns};
ghost use Rattle.normalise.specs.Normalise.{normalise_outcome};
ghost use Rattle.normalise.specs.inner.Run.{standing, normal_run, settled_run};

use finish::end;
use model::tables::part;
use model::{Counts, Model, Refusal, TEXT_LIMIT, check};
use run::run_all;
use utf8::chars::valid_prefix;

// Where a text stands while steps run on it, and how long it is there: no local can be now one lent buffer and now the other.
#[derive(Clone, Copy)]
pub enum Ran {
    // In the text that was given.
    Given,
    InA(usize),
    InB(usize),
}

impl Ran {
    // The text that stands there.
    fn standing<'a>(self, text: &'a [u8], a: &'a [u8], b: &'a [u8]) -> &'a [u8]
        ensures { result.now ≡ standing text.now (Some self) a.now b.now }
    {
        match self {
            Ran::Given => text,
            Ran::InA(n) => part(a, 0, n),
            Ran::InB(n) => part(b, 0, n),
        }
    }
}

// Steps and metaspace on a text that is fine, into the result buffer, and scratch cleared.
fn normalise_text(
    model: &Model<'_>,
    text: &[u8],
    first: bool,
    out: &mut [u8],
    a: &mut [u8],
    b: &mut [u8],
) -> Result<Counts, Refusal>
    ensures { ◌≡◌ {A = ScratchOutcome} (record { answer = answer_of result; out = out.new; scratch_a = a.new; scratch_b = b.new }) (settled_run (normal_run model.now.steps.bytes.now (take model.now.steps.count model.now.steps.list) model.now.metaspace first text.now (min (length a.old) (length b.old)) a.old b.old) text.now out.old a.old b.old) }
{
    let room = a.len().min(b.len());
    let ran = run_all(&model.steps, model.metaspace, first, text, room, a, b);
    let outcome = end(ran, text, a, b, out);
    a.fill(0);
    b.fill(0);
    outcome
}

// `normalise` on a model that `model::check` accepts, for a text that is not too long.
fn normalise_short(
    model: &Model<'_>,
    text: &[u8],
    first: bool,
    out: &mut [u8],
    scratch_a: &mut [u8],
    scratch_b: &mut [u8],
) -> Result<Counts, Refusal>
    requires accepted { check_number (columns model.now) ≡ 0 }
    requires short { length text.now ≤ 1048576 }
    ensures { ◌≡◌ {A = ScratchOutcome} (record { answer = answer_of result; out = out.new; scratch_a = scratch_a.new; scratch_b = scratch_b.new }) (normalise_outcome (columns model.now) text.now first out.old scratch_a.old scratch_b.old) }
{
    let place = valid_prefix(text);
    if place != text.len() {
        return Err(Refusal::BadText { place });
    }
    normalise_text(model, text, first, out, scratch_a, scratch_b)
}

// `normalise` on a model that `model::check` accepts.
pub fn normalise_checked(
    model: &Model<'_>,
    text: &[u8],
    first: bool,
    out: &mut [u8],
    scratch_a: &mut [u8],
    scratch_b: &mut [u8],
) -> Result<Counts, Refusal>
    requires { check_number (columns model.now) ≡ 0 }
    ensures { ◌≡◌ {A = ScratchOutcome} (record { answer = answer_of result; out = out.new; scratch_a = scratch_a.new; scratch_b = scratch_b.new }) (normalise_outcome (columns model.now) text.now first out.old scratch_a.old scratch_b.old) }
{
    if TEXT_LIMIT < text.len() {
        return Err(Refusal::WrongSize);
    }
    normalise_short(model, text, first, out, scratch_a, scratch_b)
}

// Steps and metaspace on the whole text. `first` is the first flag that metaspace is run with.
pub fn normalise(
    model: &Model<'_>,
    text: &[u8],
    first: bool,
    out: &mut [u8],
    scratch_a: &mut [u8],
    scratch_b: &mut [u8],
) -> Result<Counts, Refusal>
    ensures { ◌≡◌ {A = ScratchOutcome} (record { answer = answer_of result; out = out.new; scratch_a = scratch_a.new; scratch_b = scratch_b.new }) (normalise_outcome (columns model.now) text.now first out.old scratch_a.old scratch_b.old) }
{
    if TEXT_LIMIT < text.len() {
        return Err(Refusal::WrongSize);
    }
    check(model)?;
    normalise_short(model, text, first, out, scratch_a, scratch_b)
}
