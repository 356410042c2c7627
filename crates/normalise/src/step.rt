// One step of the normalization.
ghost use Rattle.std.specs.Prelude.{◌≡◌};
ghost use Rattle.normalise.specs.Steps.{applied};
ghost use Rattle.normalise.specs.inner.Fit.{Put, put};

use crate::collapse::collapse_space_runs;
use crate::prepend::prepend;
use crate::replace::replace;
use crate::strip::strip;
use model::Step;
use model::tables::string_of;

pub fn apply_step(
    step_bytes: &[u8],
    step: Step,
    text: &[u8],
    room: usize,
    out: &mut [u8],
) -> Option<usize>
    ensures { ◌≡◌ {A = Put} (record { length = result; out = out.new }) (put (applied step_bytes.now step text.now) room out.old) }
{
    match step {
        Step::Prepend(content) => prepend(string_of(step_bytes, content), text, room, out),
        Step::Replace { pattern, content } => replace(
            string_of(step_bytes, pattern),
            string_of(step_bytes, content),
            text,
            room,
            out,
        ),
        Step::CollapseSpaces { content } => collapse_space_runs(
            string_of(step_bytes, content),
            text,
            room,
            out,
        ),
        Step::Strip { left, right } => strip(left, right, text, room, out),
    }
}
