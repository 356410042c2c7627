// What answers 1, 2 and 8 ask of the strings of steps.
ghost use Rattle.std.specs.Prelude.{◌≡◌, ◌≤◌, take};
ghost use Rattle.utf8.specs.Lists.{any};
ghost use Rattle.model.specs.Model.{spans_of};
ghost use Rattle.model.specs.Check.{step_spans};
ghost use Rattle.model.specs.inner.Tests.{span_fails};

use crate::sizes::STRING_LIMIT;
use crate::tables::string_of;
use crate::{Span, Step, StepList};
use utf8::chars::is_valid;

#[derive(Clone, Copy)]
pub enum StepTest {
    // Answer 1: no string is too long.
    Short,
    // Answer 2: none runs past the end of the bytes.
    Inside,
    // Answer 8: all are valid UTF-8.
    Text,
}

fn span_fails(test: StepTest, bytes: &[u8], span: Span) -> bool
    ensures { result ≡ span_fails test bytes.now span }
{
    match test {
        StepTest::Short => STRING_LIMIT < span.len as usize,
        StepTest::Inside => bytes.len() < span.place as usize + span.len as usize,
        StepTest::Text => !is_valid(string_of(bytes, span)),
    }
}

// Some string of the step fails the test.
fn step_fails(test: StepTest, bytes: &[u8], step: Step) -> bool
    ensures { result ≡ any (span_fails test bytes.now) (spans_of step) }
{
    match step {
        Step::Prepend(content) => span_fails(test, bytes, content),
        Step::Replace { pattern, content } => {
            span_fails(test, bytes, pattern) || span_fails(test, bytes, content)
        }
        Step::CollapseSpaces { content } => span_fails(test, bytes, content),
        Step::Strip { .. } => false,
    }
}

// Some string of the steps that count fails the test.
pub fn steps_fail(test: StepTest, steps: &StepList<'_>) -> bool
    requires { steps.now.count ≤ 16 }
    ensures { result ≡ any (span_fails test steps.now.bytes.now) (step_spans (take steps.now.count steps.now.list)) }
{
    steps.list[..steps.count]
        .iter()
        .any(|step| step_fails(test, steps.bytes, *step))
}
