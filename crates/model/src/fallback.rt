// Answer 5: the fallback ids.
ghost use Rattle.std.specs.Prelude.{◌≡◌};
ghost use Rattle.model.specs.Model.{strings_of, fallback_id};
ghost use Rattle.model.specs.Check.{fallback_fits, bad_fallback};

use crate::Strings;

// 4,294,967,295: no id.
pub const NO_ID: u32 = 4294967295;

// The fallback id of a byte.
pub fn fallback_id(fallback: &[u32], byte: u8) -> Option<u32>
    ensures { result ≡ fallback_id fallback.now byte }
{
    let id = *fallback.get(usize::from(byte))?;
    if id == NO_ID { None } else { Some(id) }
}

// The entry is none, or the id of the piece that is that one byte.
fn fallback_fits(pieces: &Strings<'_>, byte: usize, id: u32) -> bool
    ensures { result ≡ fallback_fits (strings_of pieces.now) (byte, id) }
{
    if id == NO_ID {
        return true;
    }
    let piece = pieces.get(id as usize);
    piece.len() == 1 && usize::from(piece[0]) == byte
}

// Some entry that is not none is no id of the piece that is its one byte.
pub fn bad_fallback(pieces: &Strings<'_>, fallback: &[u32]) -> bool
    ensures { result ≡ bad_fallback (strings_of pieces.now) fallback.now }
{
    !fallback
        .iter()
        .enumerate()
        .all(|(byte, id)| fallback_fits(pieces, byte, *id))
}
