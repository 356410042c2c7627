// The walk through the tokens of a text and what stands between them: sections by the first list, parts by the second.
ghost use Rattle.std.specs.Prelude.{◌≡◌};
ghost use Rattle.model.specs.Model.{strings_of, tokens_of};
ghost use Rattle.sections.specs.inner.Walk.{is_afresh, taken_for, token_item, item_at, next_item, sections_start, parts_start};

use crate::seek::find_added_token;
use crate::strips::{flag_at, start_after, stop_before, token_end};
use crate::{Cursor, Next, Search, Taken};
use model::tables::number_at;
use model::{AddedTokens, Strings};

// The first match from `from` on, of at most `turns`, that does not begin before `start`. One that does is passed over.
fn next_taken(
    contents: &Strings<'_>,
    begins: &[u32],
    text: &[u8],
    start: usize,
    from: usize,
    turns: usize,
) -> Option<Taken>
    ensures { result ≡ taken_for turns begins.now (strings_of contents.now) text.now start from }
{
    let mut at = from;
    for left in (0..turns).rev() {
        let found = find_added_token(contents, begins, text, at)?;
        let end = token_end(contents, text, found);
        if start <= found.place {
            return Some(Taken {
                found,
                end,
                turns: left,
            });
        }
        at = end;
    }
    None
}

// The token of `row`, which ends at `end`.
fn token_item(
    tokens: &AddedTokens<'_>,
    search: Search,
    text: &[u8],
    end: usize,
    row: usize,
    turns: usize,
) -> Next
    ensures { result ≡ token_item tokens.now.ids.now tokens.now.rstrip.now (is_afresh search) text.now end row turns }
{
    let start = start_after(flag_at(tokens.rstrip, row), text, end);
    Next::Added {
        id: number_at(tokens.ids, row),
        next: Cursor::Seek {
            start,
            from: search.resume(start, end),
            turns,
            opening: false,
        },
    }
}

// The text from `start` on, up to the token that is taken or to its end; where that is nothing, the token.
fn item_at(
    tokens: &AddedTokens<'_>,
    search: Search,
    text: &[u8],
    start: usize,
    opening: bool,
    taken: Option<Taken>,
) -> Next
    ensures { result ≡ item_at tokens.now.ids.now tokens.now.lstrip.now tokens.now.rstrip.now (is_afresh search) text.now start opening taken }
{
    match taken {
        None => {
            let stop = text.len();
            if start < stop {
                return Next::Plain {
                    start,
                    stop,
                    opening,
                    next: Cursor::Done,
                };
            }
            Next::Finished
        }
        Some(Taken { found, end, turns }) => {
            let row = found.row;
            let stop = stop_before(flag_at(tokens.lstrip, row), text, start, found.place);
            if start < stop {
                return Next::Plain {
                    start,
                    stop,
                    opening,
                    next: Cursor::Held { end, row, turns },
                };
            }
            token_item(tokens, search, text, end, row, turns)
        }
    }
}

// The item that comes next in a walk through the tokens of a list.
pub fn next_item(
    tokens: &AddedTokens<'_>,
    begins: &[u32],
    search: Search,
    text: &[u8],
    cursor: Cursor,
) -> Next
    ensures { result ≡ next_item (tokens_of tokens.now) begins.now (is_afresh search) text.now cursor }
{
    match cursor {
        Cursor::Whole => Next::Plain {
            start: 0,
            stop: text.len(),
            opening: true,
            next: Cursor::Done,
        },
        Cursor::Seek {
            start,
            from,
            turns,
            opening,
        } => {
            if search == Search::Afresh && turns == 0 {
                return Next::Finished;
            }
            let from = search.resume(start, from);
            let taken = next_taken(&tokens.contents, begins, text, start, from, turns);
            item_at(tokens, search, text, start, opening, taken)
        }
        Cursor::Held { end, row, turns } => token_item(tokens, search, text, end, row, turns),
        Cursor::Done => Next::Finished,
    }
}

// Where the walk through the sections of a text begins.
pub fn sections_start(tokens: &AddedTokens<'_>, text: &[u8]) -> Cursor
    ensures { result ≡ sections_start tokens.now.contents.offsets.now text.now }
{
    if tokens.contents.len() == 0 {
        return Cursor::Whole;
    }
    Cursor::Seek {
        start: 0,
        from: 0,
        turns: text.len(),
        opening: true,
    }
}

// Where the walk through the parts of a normalized section begins.
pub fn parts_start(text: &[u8], first: bool) -> Cursor
    ensures { result ≡ parts_start text.now first }
{
    Cursor::Seek {
        start: 0,
        from: 0,
        turns: text.len(),
        opening: first,
    }
}
