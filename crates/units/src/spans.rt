// The span guard: whether a crossing piece lies over a mark.
ghost use Rattle.std.specs.Prelude.{◌≡◌, ◌+◌, drop};
ghost use Rattle.utf8.specs.Lists.{any};
ghost use Rattle.model.specs.Mark.{mark_width};
ghost use Rattle.units.specs.Kinds.{crossing_at};
ghost use Rattle.units.specs.Units.{spanned};
ghost use Rattle.units.specs.inner.Read.{crossings_in};
ghost use Rattle.units.specs.inner.Around.{around};

use crate::Cutter;
use model::mark::mark_width;
use model::tables::part;
use utf8::edges::{ends_with, starts_with};

// What follows the mark at `p`.
fn behind_mark(section: &[u8], p: usize, raw: bool) -> &[u8]
    ensures { result.now ≡ drop (p + mark_width raw (drop p section.now)) section.now }
{
    let rest = part(section, p, section.len());
    part(rest, mark_width(rest, raw), rest.len())
}

// Whether a piece whose mark stands at `place` has its parts on both sides.
#[tactic(auto, unfolding(crate::specs::inner::Around::around, crate::specs::Kinds::crossing_at))]
fn lies_around(piece: &[u8], place: u32, before: &[u8], after: &[u8]) -> bool
    ensures { result ≡ around before.now after.now (crossing_at piece.now place) }
{
    let at = place as usize;
    ends_with(before, part(piece, 0, at)) && starts_with(after, part(piece, at + 3, piece.len()))
}

impl Cutter<'_> {
    // Whether one of the noted crossings has its parts on both sides.
    fn some_around(&self, before: &[u8], after: &[u8]) -> bool
        ensures { result ≡ any (around before.now after.now) (crossings_in self.now) }
    {
        for k in 0..self.count.min(self.noted.len() / 2) {
            let piece = self.pieces.get(self.noted[2 * k] as usize);
            if lies_around(piece, self.noted[2 * k + 1], before, after) {
                return true;
            }
        }
        false
    }

    // Whether one of the noted crossings spans the mark at `p`.
    #[tactic(auto, unfolding(crate::specs::inner::Around::around, crate::specs::Units::spanned))]
    pub fn piece_spans_boundary(&self, section: &[u8], p: usize, raw: bool) -> bool
        ensures { result ≡ spanned (crossings_in self.now) raw section.now p }
    {
        let before = part(section, 0, p);
        let after = behind_mark(section, p, raw);
        self.some_around(before, after)
    }
}
