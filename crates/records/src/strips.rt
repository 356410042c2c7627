// Whether a token stands at a place, and what its strips take.
ghost use Rattle.std.specs.Prelude.{◌≡◌};
ghost use Rattle.records.specs.Records.{token_of, columns_of, standing};
ghost use Rattle.records.specs.inner.Rows.{standing_of};

use crate::read::record_at;
use crate::{AddedToken, Standing};
use model::tables::{part, string_of};
use sections::Match;
use sections::strips::{start_after, stop_before};
use utf8::edges::starts_with;

// What a token that has been read does at `place` with the section that begins at `start`.
fn standing_of(
    bytes: &[u8],
    text: &[u8],
    token: AddedToken,
    start: usize,
    place: usize,
) -> Option<Standing>
    ensures { result ≡ standing_of (token_of bytes.now token) text.now start place }
{
    let content = string_of(bytes, token.content);
    if content.is_empty() || !starts_with(part(text, place, text.len()), content) {
        return None;
    }
    Some(Standing {
        stop: stop_before(token.lstrip, text, start, place),
        next: start_after(token.rstrip, text, place + content.len()),
        id: token.id,
    })
}

// The same for the token of a match.
pub fn standing(
    bytes: &[u8],
    tokens: &[AddedToken],
    text: &[u8],
    start: usize,
    found: Match,
) -> Option<Standing>
    ensures { result ≡ standing (columns_of bytes.now tokens.now) text.now start found }
{
    standing_of(
        bytes,
        text,
        record_at(tokens, found.row),
        start,
        found.place,
    )
}
