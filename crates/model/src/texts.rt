// Answers 3 and 7: strings of a table that should be text.
ghost use Rattle.std.specs.Prelude.{◌≡◌};
ghost use Rattle.model.specs.Model.{strings_of};
ghost use Rattle.model.specs.Check.{neither_text_nor_byte, bad_piece, empty_or_no_text, bad_token};

use crate::Strings;
use utf8::chars::is_valid;

fn neither_text_nor_byte(piece: &[u8]) -> bool
    ensures { result ≡ neither_text_nor_byte piece.now }
{
    piece.len() != 1 && !is_valid(piece)
}

fn empty_or_no_text(content: &[u8]) -> bool
    ensures { result ≡ empty_or_no_text content.now }
{
    content.is_empty() || !is_valid(content)
}

// Some piece of two bytes or more is no valid UTF-8.
pub fn bad_piece(pieces: &Strings<'_>) -> bool
    ensures { result ≡ bad_piece (strings_of pieces.now) }
{
    (0..pieces.len()).any(|i| neither_text_nor_byte(pieces.get(i)))
}

// Some content of a token is empty or no valid UTF-8.
pub fn bad_token(contents: &Strings<'_>) -> bool
    ensures { result ≡ bad_token (strings_of contents.now) }
{
    (0..contents.len()).any(|i| empty_or_no_text(contents.get(i)))
}
