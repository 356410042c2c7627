// All that ids decode to, put out in one pass.
ghost use Rattle.std.specs.Prelude.{◌≡◌, true, not, ◌&&◌, ◌+◌, ◌≤◌, ◌<◌, length, drop};
ghost use Rattle.utf8.specs.Lists.{starts_with};
ghost use Rattle.utf8.specs.Chars.{chars};
ghost use Rattle.model.specs.Mark.{mark};
ghost use Rattle.model.specs.Model.{strings_of};
ghost use Rattle.decode.specs.Decode.{joined_bytes};
ghost use Rattle.decode.specs.inner.Feeding.{is_idle, largest, put_out, state_after, shown_text, Front, Sound, Fed, fed};
ghost use Rattle.decode.specs.inner.Words.{all_or_none, quick_at};

use crate::put::{put_byte, put_strays};
use crate::words::{all_or_none, put_eight, shown_at};
use crate::{Decoder, Progress};
use model::Strings;
use model::mark::MARK;
use model::tables::number_at;
use utf8::edges::starts_with;

// Whether a mark stands at a place.
fn is_mark_at(bytes: &[u8], i: usize) -> bool
    requires { i ≤ length bytes.now }
    ensures { result ≡ starts_with mark (drop i bytes.now) }
{
    starts_with(&bytes[i..], &MARK)
}

// The bytes of one piece. Most are characters of one byte and marks, for which an idle state is not needed.
fn feed_piece(s: Decoder, bytes: &[u8], out: &mut [u8], start: usize) -> Progress
    requires sound { Sound s }
    requires bytes_bound { start + length (put_out s bytes.now) + 13 ≤ largest }
    ensures { ◌≡◌ {A = Fed} (record { progress = result; out = out.new }) (fed s bytes.now start out.old) }
{
    let mut i = 0;
    let mut decoder = s;
    let mut at = start;
    while i < bytes.len() {
        if decoder.is_idle() {
            if is_mark_at(bytes, i) {
                at = put_byte(0x20, out, at);
                i += 3;
                continue;
            }
            if bytes[i] < 0x80 {
                at = put_byte(bytes[i], out, at);
                i += 1;
                continue;
            }
        }
        let progress = decoder.feed(bytes[i], out, at);
        decoder = progress.decoder;
        at = progress.at;
        i += 1;
    }
    Progress { decoder, at }
}

// The pieces of all ids. One without a piece is passed over, as an empty one would be.
fn feed_ids(s: Decoder, pieces: &Strings<'_>, ids: &[u32], out: &mut [u8]) -> Progress
    requires sound { Sound s }
    requires ids_len_bound { length (put_out s (joined_bytes (strings_of pieces.now) ids.now)) + 13 ≤ largest }
    ensures { (result.decoder ≡ state_after s (joined_bytes (strings_of pieces.now) ids.now)) × (Front (put_out s (joined_bytes (strings_of pieces.now) ids.now)) result.at out.new) }
{
    // A copy, so that the two slices stand in registers.
    let pieces = *pieces;
    let mut decoder = s;
    let mut at = 0;
    for id in ids {
        let id = *id as usize;
        let piece = pieces.get(id);
        let start = number_at(pieces.offsets, id) as usize;
        if decoder.is_idle() && all_or_none(at, out.len()) {
            if let Some(shown) = shown_at(pieces.bytes, start, piece.len()) {
                put_eight(shown.eight, out, at);
                at += shown.len;
                continue;
            }
        }
        let progress = feed_piece(decoder, piece, out, at);
        decoder = progress.decoder;
        at = progress.at;
    }
    Progress { decoder, at }
}

// What the ids decode to in front of the buffer, where it fits, and how long it is. `pieces`, `ids` and `begun` are no struct: a ghost field
// for the bound would need a proof where it is built, and none of the four functions has more than two uses.
pub fn put_decoded(pieces: &Strings<'_>, ids: &[u32], begun: bool, out: &mut [u8]) -> usize
    requires { length (shown_text (not begun) (chars (joined_bytes (strings_of pieces.now) ids.now))) + 13 ≤ largest }
    ensures { Front (shown_text (not begun) (chars (joined_bytes (strings_of pieces.now) ids.now))) result out.new }
{
    let progress = feed_ids(Decoder::new(begun), pieces, ids, out);
    put_strays(progress.decoder.held.len(), out, progress.at)
}

// How long what the ids decode to is.
pub fn decoded_len(pieces: &Strings<'_>, ids: &[u32], begun: bool) -> usize
    requires { length (shown_text (not begun) (chars (joined_bytes (strings_of pieces.now) ids.now))) + 13 ≤ largest }
    ensures { result ≡ length (shown_text (not begun) (chars (joined_bytes (strings_of pieces.now) ids.now))) }
{
    let mut nowhere = [0u8; 0];
    put_decoded(pieces, ids, begun, &mut nowhere)
}
