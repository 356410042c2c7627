// Where units start.
ghost use Rattle.std.specs.Prelude.{◌≡◌, not, ◌<◌, eqb, length};
ghost use Rattle.utf8.specs.Lists.{any};
ghost use Rattle.units.specs.Kinds.{is_none};
ghost use Rattle.units.specs.Units.{mark_cuts, punctuation, byte_before, punctuation_cuts, begins_unit};
ghost use Rattle.units.specs.inner.Read.{pair_noted, crossings_in};
ghost use Rattle.units.specs.inner.Next.{next_unit};
ghost use Rattle.units.specs.inner.Around.{starters};

use crate::adjacency::holds_pair;
use crate::{Cutter, WordSplit};
use model::mark::{ends_with_mark, mark_width};
use model::tables::part;

// Whether sections are cut at all.
#[tactic(auto, unfolding(crate::specs::Kinds::is_none))]
pub(crate) fn divides(kind: WordSplit) -> bool
    ensures { result ≡ not (is_none kind) }
{
    !matches!(kind, WordSplit::None)
}

#[tactic(auto, unfolding(crate::specs::Units::punctuation))]
fn is_punctuation(b: u8) -> bool
    ensures { result ≡ any (eqb b) punctuation }
{
    matches!(b, b'.' | b',' | b'"' | b')' | b';' | b':' | b'!' | b'?')
}

// Whether a unit can start at such a byte.
#[tactic(auto, unfolding(crate::specs::inner::Around::starters))]
fn can_start(b: u8) -> bool
    ensures { result ≡ any (eqb b) starters }
{
    b == 0xE2 || b == b' ' || is_punctuation(b)
}

// The byte before `p`; a raw space there is the last byte of a mark.
#[tactic(auto, unfolding(crate::specs::Units::byte_before))]
fn byte_before(section: &[u8], p: usize, raw: bool) -> u8
    requires { (0 < p) × (p < length section.now) }
    ensures { result ≡ byte_before raw section.now p }
{
    let b = section[p - 1];
    if raw && b == b' ' { 0x81 } else { b }
}

// Whether the punctuation at `p` starts a unit.
#[tactic(auto, unfolding(crate::specs::Units::punctuation_cuts))]
fn punctuation_cuts(kind: WordSplit, adjacency: &[u64], raw: bool, section: &[u8], p: usize) -> bool
    requires { (0 < p) × (p < length section.now) }
    ensures { result ≡ punctuation_cuts kind (pair_noted adjacency.now) raw section.now p }
{
    let b = section[p];
    divides(kind) && is_punctuation(b) && !holds_pair(adjacency, byte_before(section, p, raw), b)
}

impl Cutter<'_> {
    // Whether the mark at `p` starts a unit.
    #[tactic(auto, unfolding(crate::specs::Units::mark_cuts, model::specs::Mark::starts_with_mark))]
    pub fn mark_cuts(&self, raw: bool, section: &[u8], p: usize) -> bool
        ensures { result ≡ mark_cuts self.now.kind (crossings_in self.now) raw section.now p }
    {
        if mark_width(part(section, p, section.len()), raw) == 0 {
            return false;
        }
        match self.kind {
            WordSplit::None => false,
            WordSplit::EveryMark => true,
            WordSplit::SpaceRuns => {
                !ends_with_mark(part(section, 0, p), raw)
                    && !self.piece_spans_boundary(section, p, raw)
            }
        }
    }

    // Whether a unit starts at `p`, by what is derived from a model.
    #[tactic(auto, using(crate::proofs::StartLaws::uncut_past, crate::proofs::StartLaws::uncut_first), unfolding(crate::specs::Units::begins_unit))]
    pub fn cuts(&self, raw: bool, section: &[u8], p: usize) -> bool
        ensures { result ≡ begins_unit self.now.kind (crossings_in self.now) (pair_noted self.now.adjacency.now) raw section.now p }
    {
        if p == 0 || section.len() <= p {
            return false;
        }
        if is_punctuation(section[p]) {
            return punctuation_cuts(self.kind, self.adjacency, raw, section, p);
        }
        self.mark_cuts(raw, section, p)
    }

    // The first place above `from` where a unit starts, or the section's end.
    pub fn next_unit(&self, raw: bool, section: &[u8], from: usize) -> usize
        ensures { result ≡ next_unit (begins_unit self.now.kind (crossings_in self.now) (pair_noted self.now.adjacency.now) raw section.now) section.now from }
    {
        if section.len() <= from {
            return section.len();
        }
        for p in from + 1..section.len() {
            if can_start(section[p]) && self.cuts(raw, section, p) {
                return p;
            }
        }
        section.len()
    }
}
