// Where tokens end, and what their strips take from the sections beside them.
ghost use Rattle.std.specs.Prelude.{◌≡◌, false, ◌+◌, length, get_or, drop};
ghost use Rattle.model.specs.Model.{strings_of};
ghost use Rattle.sections.specs.inner.Strips.{stop_at, start_at, end_within};

use crate::Match;
use model::Strings;
use model::tables::part;
use utf8::white_space::{trim_end, trim_start};

// The flag at `i` of a column, false past its end.
pub fn flag_at(column: &[bool], i: usize) -> bool
    ensures { result ≡ get_or column.now i false }
{
    column.get(i).copied().unwrap_or(false)
}

// Where the section that begins at `start` stops before a token at `place`.
pub fn stop_before(strip: bool, text: &[u8], start: usize, place: usize) -> usize
    ensures { result ≡ stop_at strip text.now start place }
{
    if !strip {
        return place;
    }
    let section = trim_end(part(text, start, place));
    start + section.len()
}

// The rest of the text behind a token at `place`.
pub fn rest_after<'t>(text: &'t [u8], place: usize, token: &[u8]) -> &'t [u8]
    ensures { result.now ≡ drop (place + length token.now) text.now }
{
    let rest = part(text, place, text.len());
    part(rest, token.len(), rest.len())
}

// Where the token of a match ends, within the text.
pub fn token_end(contents: &Strings<'_>, text: &[u8], found: Match) -> usize
    ensures { result ≡ end_within (strings_of contents.now) text.now found }
{
    let rest = rest_after(text, found.place, contents.get(found.row));
    text.len() - rest.len()
}

// Where the section begins after a token that ends at `end`.
pub fn start_after(strip: bool, text: &[u8], end: usize) -> usize
    ensures { result ≡ start_at strip text.now end }
{
    if !strip {
        return end;
    }
    let rest = part(text, end, text.len());
    let kept = trim_start(rest);
    end + (rest.len() - kept.len())
}
