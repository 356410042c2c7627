// The kind of split, and the crossings that are noted for it.
ghost use Rattle.std.specs.Prelude.{◌≡◌, ◌<◌, ◌≤◌, length, MatchOption};
ghost use Rattle.model.specs.Model.{strings_of};
ghost use Rattle.units.specs.Kinds.{crosses_at, crossing_at, holds_mark, is_tangled, splits, crossings, word_split};
ghost use Rattle.units.specs.Derived.{Noting, noting};
ghost use Rattle.units.specs.inner.Next.{next_unit};
ghost use Rattle.units.specs.inner.Crossed.{crossed, no_words, noted_at};

use crate::{Crossed, Split, WordSplit};
use model::mark::{ends_with_mark, mark_width};
use model::tables::part;
use model::{Metaspace, Strings};
use utf8::chars::is_valid;

// Whether a mark or a space stands among the bytes.
fn holds_mark(bytes: &[u8]) -> bool
    ensures { result ≡ holds_mark bytes.now }
{
    for p in 0..bytes.len() {
        if mark_width(&bytes[p..], true) != 0 {
            return true;
        }
    }
    false
}

// Whether a mark or a space stands before or behind the mark at `p`.
#[tactic(auto, unfolding(crate::specs::Kinds::is_tangled, crate::specs::Kinds::crossing_at))]
fn is_tangled(piece: &[u8], p: usize) -> bool
    requires { p < length piece.now }
    ensures { result ≡ is_tangled (crossing_at piece.now p) }
{
    holds_mark(&piece[..p]) || holds_mark(part(piece, p + 3, piece.len()))
}

// Whether the mark of a crossing stands at `p`.
#[tactic(auto, using(utf8::proofs::Lists::part_to_end), unfolding(crate::specs::Kinds::crosses_at, model::specs::Mark::starts_with_mark))]
fn crosses_at(piece: &[u8], p: usize) -> bool
    requires { (0 < p) × (p < length piece.now) }
    ensures { result ≡ crosses_at piece.now p }
{
    mark_width(&piece[p..], false) != 0 && !ends_with_mark(&piece[..p], false)
}

// The first place above 0 where the mark of a crossing stands.
fn first_crossing(piece: &[u8]) -> Option<usize>
    ensures { MatchOption result (length piece.now ≤ next_unit (crosses_at piece.now) piece.now 0) (λ p. (p ≡ next_unit (crosses_at piece.now) piece.now 0) × (p < length piece.now)) }
{
    for p in 1..piece.len() {
        if piece[p] == 0xE2 && crosses_at(piece, p) {
            return Some(p);
        }
    }
    None
}

// How a piece crosses; only where a mark is seen is it asked whether the piece is UTF-8.
fn crossing_of(piece: &[u8]) -> Crossed
    ensures { result ≡ crossed piece.now }
{
    match first_crossing(piece) {
        Some(p) if is_valid(piece) => {
            if is_tangled(piece, p) {
                Crossed::Tangled
            } else {
                Crossed::At(p)
            }
        }
        _ => Crossed::Nowhere,
    }
}

#[tactic(auto, unfolding(crate::specs::inner::Crossed::no_words))]
fn clear(noted: &mut [u32; 64])
    ensures { noted.new ≡ no_words }
{
    *noted = [0; 64];
}

// The place of the crossing number `n`, as two words.
#[tactic(auto, unfolding(crate::specs::inner::Crossed::noted_at))]
fn note_place(noted: &mut [u32; 64], n: usize, id: usize, place: usize)
    requires { n < 32 }
    ensures { noted.new ≡ noted_at noted.old n id place }
{
    let at = n * 2;
    let next = at + 1;
    noted[at] = (id % 4294967296) as u32;
    noted[next] = (place % 4294967296) as u32;
}

// The kind of a model whose sections are not cut: no crossing is noted for it.
fn no_split(noted: &mut [u32; 64]) -> Split
    ensures kind { result ≡ record { kind = WordSplit.None; count = 0 } }
    ensures unnoted { noted.new ≡ no_words }
{
    clear(noted);
    Split {
        kind: WordSplit::None,
        count: 0,
    }
}

// The kind of a model whose metaspace does not split, and its crossings: none is noted where one is tangled, or there is a 33rd.
pub fn unit_crossing_pieces(pieces: &Strings<'_>, noted: &mut [u32; 64]) -> Split
    ensures { let all = strings_of pieces.now in ◌≡◌ {A = Noting} (record { kind = result.kind; count = result.count; noted = noted.new }) (noting all (word_split (crossings all) None)) }
{
    clear(noted);
    let mut n = 0;
    for id in 0..pieces.len() {
        match crossing_of(pieces.get(id)) {
            Crossed::Nowhere => {}
            Crossed::At(place) if n < 32 => {
                note_place(noted, n, id, place);
                n += 1;
            }
            Crossed::At(_) => return no_split(noted),
            Crossed::Tangled => return no_split(noted),
        }
    }
    Split {
        kind: WordSplit::SpaceRuns,
        count: n,
    }
}

// Whether metaspace splits.
#[tactic(auto, unfolding(crate::specs::Kinds::splits))]
pub(crate) fn metaspace_splits(metaspace: Option<Metaspace>) -> bool
    ensures { result ≡ splits metaspace }
{
    match metaspace {
        Some(metaspace) => metaspace.split,
        None => false,
    }
}

// The kind of split, and the crossings that it looks at.
#[tactic(auto, using(crate::proofs::NotingLaws::every_mark, crate::proofs::NotingLaws::as_without))]
pub fn word_split(
    pieces: &Strings<'_>,
    metaspace: Option<Metaspace>,
    noted: &mut [u32; 64],
) -> Split
    ensures { let all = strings_of pieces.now in ◌≡◌ {A = Noting} (record { kind = result.kind; count = result.count; noted = noted.new }) (noting all (word_split (crossings all) metaspace)) }
{
    if metaspace_splits(metaspace) {
        clear(noted);
        return Split {
            kind: WordSplit::EveryMark,
            count: 0,
        };
    }
    unit_crossing_pieces(pieces, noted)
}
