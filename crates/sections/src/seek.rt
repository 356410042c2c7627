// The longest token at a place of a text, and the leftmost place that has one.
ghost use Rattle.std.specs.Prelude.{◌≡◌, drop};
ghost use Rattle.model.specs.Model.{strings_of};
ghost use Rattle.sections.specs.inner.Seek.{row_at, row_by, match_by};

use crate::Match;
use crate::first::may_begin;
use model::Strings;
use utf8::edges::starts_with;

// The row of the longest content that `text` begins with, of equal ones the lower. The rows are walked from the last.
pub fn longest_at(contents: &Strings<'_>, text: &[u8]) -> Option<usize>
    ensures { result ≡ row_at (strings_of contents.now) text.now }
{
    let mut best = None;
    let mut long = 0;
    for row in (0..contents.len()).rev() {
        let content = contents.get(row);
        if long <= content.len() && starts_with(text, content) {
            best = Some(row);
            long = content.len();
        }
    }
    best
}

// The same where the first byte is not ruled out.
pub fn token_at(contents: &Strings<'_>, begins: &[u32], text: &[u8]) -> Option<usize>
    ensures { result ≡ row_by begins.now (strings_of contents.now) text.now }
{
    if may_begin(begins, *text.first()?) {
        longest_at(contents, text)
    } else {
        None
    }
}

// The leftmost match in `text` from `from` on.
pub fn find_added_token(
    contents: &Strings<'_>,
    begins: &[u32],
    text: &[u8],
    from: usize,
) -> Option<Match>
    ensures { result ≡ match_by begins.now (strings_of contents.now) from (drop from text.now) }
{
    for place in from..text.len() {
        if let Some(row) = token_at(contents, begins, &text[place..]) {
            return Some(Match { place, row });
        }
    }
    None
}
