// From the text that stands in a buffer to the result.
ghost use Rattle.std.specs.Prelude.{◌≡◌};
ghost use Rattle.model.specs.Answers.{Outcome, answer_of};
ghost use Rattle.normalise.specs.inner.Run.{standing, finished, ended};

use crate::Ran;
use crate::copy::copy_at;
use model::{Counts, Refusal};

// The result in the buffer, where it fits.
fn finish(res: &[u8], out: &mut [u8]) -> Result<Counts, Refusal>
    ensures { ◌≡◌ {A = Outcome} (record { answer = answer_of result; out = out.new }) (finished res.now out.old) }
{
    if out.len() < res.len() {
        return Err(Refusal::ResultTooShort);
    }
    copy_at(out, 0, res);
    out[res.len()..].fill(0);
    Ok(Counts {
        written: res.len(),
        drops: 0,
        skips: 0,
    })
}

// The text that stands at `ran` as the result.
pub fn end(
    ran: Option<Ran>,
    text: &[u8],
    a: &[u8],
    b: &[u8],
    out: &mut [u8],
) -> Result<Counts, Refusal>
    ensures { ◌≡◌ {A = Outcome} (record { answer = answer_of result; out = out.new }) (ended ran (standing text.now ran a.now b.now) out.old) }
{
    match ran {
        Some(ran) => finish(ran.standing(text, a, b), out),
        None => Err(Refusal::ScratchTooShort),
    }
}
