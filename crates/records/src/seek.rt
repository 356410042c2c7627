// The longest token at a place of a text.
ghost use Rattle.std.specs.Prelude.{◌≡◌};
ghost use Rattle.model.specs.Model.{contents};
ghost use Rattle.sections.specs.Matches.{longest_at};
ghost use Rattle.records.specs.Records.{content_of, columns_of, longest_of};
ghost use Rattle.records.specs.inner.Rows.{longer_of};

use crate::{AddedToken, Longest};
use model::tables::string_of;
use utf8::edges::starts_with;

// The token of `row` if `text` begins with its content and it is not shorter than the longest so far, else that one.
fn longer(
    bytes: &[u8],
    text: &[u8],
    token: AddedToken,
    row: usize,
    best: Option<Longest>,
) -> Option<Longest>
    ensures { result ≡ longer_of (content_of bytes.now token) text.now row best }
{
    let content = string_of(bytes, token.content);
    let len = content.len();
    if !starts_with(text, content) || best.is_some_and(|best| len < best.len) {
        return best;
    }
    Some(Longest { row, len })
}

// The longest token whose content `text` begins with, of equal ones that of the lower row. The rows are walked from the last.
// It is not sections' search with a closure that reads a content: what such a closure has to promise is longer than this loop.
pub fn longest_at(bytes: &[u8], tokens: &[AddedToken], text: &[u8]) -> Option<Longest>
    ensures { result ≡ longest_of (longest_at (contents (columns_of bytes.now tokens.now)) text.now) }
{
    let mut best = None;
    for row in (0..tokens.len()).rev() {
        best = longer(bytes, text, tokens[row], row, best);
    }
    best
}
