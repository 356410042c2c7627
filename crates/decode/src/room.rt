// Whether there is room for all that ids decode to.
ghost use Rattle.std.specs.Prelude.{◌≡◌, false, not, ◌+◌, ◌≤◌, leb, length};
ghost use Rattle.utf8.specs.Chars.{chars};
ghost use Rattle.model.specs.Check.{bad_piece};
ghost use Rattle.model.specs.Model.{strings_of};
ghost use Rattle.decode.specs.Decode.{joined_bytes};
ghost use Rattle.decode.specs.inner.Feeding.{largest, shown_text, most_of, most_for};

use crate::pass::decoded_len;
use model::Strings;

// The most bytes that a piece becomes: a byte alone may be shown as three, another piece is valid UTF-8.
fn most_of(piece: &[u8]) -> usize
    ensures { result ≡ most_of piece.now }
{
    if piece.len() == 1 { 3 } else { piece.len() }
}

// Whether there is room for the most that the pieces of all ids become.
fn surely_fits(pieces: &Strings<'_>, ids: &[u32], room: usize) -> bool
    ensures { result ≡ leb (most_for (strings_of pieces.now) ids.now) room }
{
    let pieces = *pieces;
    let mut left = room;
    for id in ids {
        let most = most_of(pieces.get(*id as usize));
        if left < most {
            return false;
        }
        left -= most;
    }
    true
}

// The bytes are gone through only where that does not tell.
pub fn text_fits(pieces: &Strings<'_>, ids: &[u32], begun: bool, room: usize) -> bool
    requires pieces_fine { bad_piece (strings_of pieces.now) ≡ false }
    requires ids_len_bound { length (shown_text (not begun) (chars (joined_bytes (strings_of pieces.now) ids.now))) + 13 ≤ largest }
    ensures { result ≡ leb (length (shown_text (not begun) (chars (joined_bytes (strings_of pieces.now) ids.now)))) room }
{
    surely_fits(pieces, ids, room) || decoded_len(pieces, ids, begun) <= room
}
