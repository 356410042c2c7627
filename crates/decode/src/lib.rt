// Ids back to text: the pieces joined, stray bytes replaced, marks as spaces. Defined in specs/Decode.antt; what the state stands for that
// bytes are fed to is in specs/inner/Feeding.antt.

#![tactic(auto)]

mod feed;
mod forms;
mod pass;
mod put;
mod room;
mod skips;
mod space;
mod words;

ghost use Rattle.std.specs.Prelude.{◌≡◌, false, not, ◌+◌, ◌≤◌, length};
ghost use Rattle.utf8.specs.Chars.{chars};
ghost use Rattle.model.specs.Answers.{answer_of, Outcome};
ghost use Rattle.model.specs.Check.{bad_piece, check_number};
ghost use Rattle.model.specs.Model.{columns, strings_of};
ghost use Rattle.decode.specs.Decode.{joined_bytes, decode_outcome};
ghost use Rattle.decode.specs.inner.Feeding.{largest, shown_text, ids_outcome};

use model::clear::clear;
use model::{Counts, Model, Refusal, Strings};
use pass::put_decoded;
use room::text_fits;
use skips::count_skips;
use space::prepends_space;

// The bytes of a character that is not whole yet.
#[derive(Clone, Copy)]
pub enum Held {
    Nothing,
    One(u8),
    Two(u8, u8),
    Three(u8, u8, u8),
}

// What the bytes fed so far leave open: the bytes held, and whether a first character was settled. That the bytes can still become a character
// stays a clause (`Sound`): the definitions make states of any bytes, and would have to prove it of each.
#[derive(Clone, Copy)]
pub struct Decoder {
    pub held: Held,
    pub begun: bool,
}

// The state, and the place in the buffer that comes next.
#[derive(Clone, Copy)]
pub struct Progress {
    pub decoder: Decoder,
    pub at: usize,
}

// What ids decode to, in the buffer where it fits; `begun` says that no space in front is to go.
fn decode_ids(
    pieces: &Strings<'_>,
    begun: bool,
    ids: &[u32],
    out: &mut [u8],
) -> Result<Counts, Refusal>
    requires pieces_fine { bad_piece (strings_of pieces.now) ≡ false }
    requires ids_len_bound { length (shown_text (not begun) (chars (joined_bytes (strings_of pieces.now) ids.now))) + 13 ≤ largest }
    ensures { ◌≡◌ {A = Outcome} (record { answer = answer_of result; out = out.new }) (ids_outcome (strings_of pieces.now) (not begun) ids.now out.old) }
{
    if !text_fits(pieces, ids, begun, out.len()) {
        return Err(Refusal::ResultTooShort);
    }
    let written = put_decoded(pieces, ids, begun, out);
    clear(out, written, 0);
    Ok(Counts {
        written,
        drops: 0,
        skips: count_skips(pieces.len(), ids),
    })
}

// `decode` on a model that `model::check` accepts.
pub fn decode_checked(model: &Model<'_>, ids: &[u32], out: &mut [u8]) -> Result<Counts, Refusal>
    requires { check_number (columns model.now) ≡ 0 }
    ensures { ◌≡◌ {A = Outcome} (record { answer = answer_of result; out = out.new }) (decode_outcome (columns model.now) ids.now out.old) }
{
    if model::TEXT_LIMIT < ids.len() {
        return Err(Refusal::WrongSize);
    }
    let gone = prepends_space(model.metaspace, &model.steps);
    decode_ids(&model.pieces, !gone, ids, out)
}

// Ids to text.
pub fn decode(model: &Model<'_>, ids: &[u32], out: &mut [u8]) -> Result<Counts, Refusal>
    ensures { ◌≡◌ {A = Outcome} (record { answer = answer_of result; out = out.new }) (decode_outcome (columns model.now) ids.now out.old) }
{
    if model::TEXT_LIMIT < ids.len() {
        return Err(Refusal::WrongSize);
    }
    model::check(model)?;
    decode_checked(model, ids, out)
}
