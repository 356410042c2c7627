// How far blocks reach that begin before a place.
ghost use Rattle.std.specs.Prelude.{◌≡◌, true, cond, Some, None, ◌≤◌, leb, length};
ghost use Rattle.model.specs.Model.{tokens_of};
ghost use Rattle.fragments.specs.inner.Reach.{Edge, plain_far, strip_far, reach};

use crate::Places;
use sections::strips::{start_after, stop_before};

impl Places<'_> {
    // Where the block of a token without rstrip ends.
    #[tactic(auto, unfolding(crate::specs::inner::Reach::plain_far))]
    fn plain_far(&self, end: usize) -> usize
        ensures { result ≡ plain_far self.now.unguarded end }
    {
        if self.unguarded {
            end
        } else {
            end.saturating_sub(1)
        }
    }

    // Where the block of a token with rstrip ends, if it reaches the white space that begins at `stop`, and else 0, the least of a maximum.
    fn strip_far(&self, stop: usize, end: usize) -> usize
        ensures { result ≡ strip_far self.now.text.now stop end }
    {
        if 0 < end && stop <= end {
            start_after(true, self.text, end)
        } else {
            0
        }
    }

    // How far the blocks reach of what begins from `at` up to `p`, where that is `p` or further.
    pub fn look_back(&self, at: usize, p: usize) -> Option<usize>
        requires at_le_p { (at ≤ p) × (p ≤ length self.now.text.now) }
        requires edge { Edge self.now.text.now at × Edge self.now.text.now p }
        ensures { let far = reach self.now.unguarded (tokens_of self.now.tokens) self.now.text.now at p in result ≡ cond (leb p far) (Some far) None }
    {
        let stop = stop_before(true, self.text, at, p);
        let from = at.max(stop.saturating_sub(self.longest));
        let plain = self.plain_far(self.end_between(false, from, p));
        let strip = self.strip_far(stop, self.end_between(true, from, p));
        let far = plain.max(strip);
        if p <= far { Some(far) } else { None }
    }
}
