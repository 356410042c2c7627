// The ranges as the result of a call.
ghost use Rattle.std.specs.Prelude.{◌≡◌, true, ◌≤◌, max, length};
ghost use Rattle.model.specs.Answers.{Outcome, answer_of};
ghost use Rattle.fragments.specs.inner.Search.{numbers_in, ranges_outcome};
ghost use Rattle.fragments.specs.inner.Places.{is_safe_in};

use crate::Places;
use model::clear::clear;
use model::{Counts, Refusal};

// The ranges between the cuts, where there is room for them, and zeros behind.
pub fn cut_ranges(places: &Places<'_>, target: usize, out: &mut [u32]) -> Result<Counts, Refusal>
    ensures { ◌≡◌ {A = Outcome} (record { answer = answer_of result; out = out.new }) (ranges_outcome (numbers_in (is_safe_in places.now) (length places.now.text.now) (max target 1)) out.old) }
{
    let ranges = places.count_cuts(target) + 1;
    if out.len() < 2 * ranges {
        return Err(Refusal::ResultTooShort);
    }
    let written = places.write_ranges(target, out);
    clear(out, written, 0);
    Ok(Counts {
        written,
        drops: 0,
        skips: 0,
    })
}
