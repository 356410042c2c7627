// T and U through the model check, and for each of the answers 1 to 8 a copy of T that is broken in one place. Writes a line for
// each: what was checked, and the answer's number.
use crate::tables::{N_ALONE, OFFSETS_T, PIECES_T, fallback, t, u};
use model::{AddedTokens, Answer, MergeRows, Model, Span, Step, StepList, Strings};
use std::io;
use std::io::Write;

fn tell(to: &mut impl Write, name: &str, model: &Model<'_>) -> io::Result<()> {
    writeln!(to, "{name}: {}", Answer::from(model::check(model)).number)
}

// The first `len` bytes of a letter of two, in front.
fn prepend(len: u32) -> StepList<'static> {
    StepList {
        bytes: b"\xC3\xA9",
        list: [Step::Prepend(Span { place: 0, len }); 16],
        count: 1,
    }
}

fn broken_offsets(to: &mut impl Write, t: &Model<'_>, name: &str, end: u32) -> io::Result<()> {
    let mut offsets = OFFSETS_T;
    offsets[8] = end;
    let pieces = Strings {
        offsets: &offsets,
        ..t.pieces
    };
    tell(to, name, &Model { pieces, ..*t })
}

fn broken_pieces(to: &mut impl Write, t: &Model<'_>) -> io::Result<()> {
    let mut bytes = PIECES_T;
    bytes[2] = 0x20;
    let pieces = Strings {
        bytes: &bytes,
        ..t.pieces
    };
    tell(to, "T, but the mark is cut short", &Model { pieces, ..*t })
}

fn broken_fallback(to: &mut impl Write, t: &Model<'_>) -> io::Result<()> {
    let mut fallback = fallback();
    fallback[0xA9] = 6;
    let model = Model {
        fallback: &fallback,
        ..*t
    };
    tell(to, "T, but A9 falls back to the piece C3", &model)
}

fn broken_token(
    to: &mut impl Write,
    t: &Model<'_>,
    name: &str,
    contents: Strings<'_>,
) -> io::Result<()> {
    let first = AddedTokens {
        contents,
        ..N_ALONE
    };
    tell(to, name, &Model { first, ..*t })
}

fn broken(to: &mut impl Write, t: &Model<'_>) -> io::Result<()> {
    broken_offsets(to, t, "T, but a piece of 287 bytes", 300)?;
    broken_offsets(to, t, "T, but an offset past the end", 15)?;
    broken_pieces(to, t)?;
    let lookup = Model {
        lookup: &[1, 5, 3, 2, 7, 6, 0, 4],
        ..*t
    };
    tell(to, "T, but two lookup entries change places", &lookup)?;
    broken_fallback(to, t)?;
    let rows = MergeRows {
        result: &[3, 3],
        ..t.rows
    };
    tell(to, "T, but the first row gives ab", &Model { rows, ..*t })?;
    let no_text = Strings {
        bytes: b"<\xFF>",
        offsets: &[0, 3],
    };
    broken_token(to, t, "T, but the token is no text", no_text)?;
    let empty = Strings {
        bytes: b"",
        offsets: &[0, 0],
    };
    broken_token(to, t, "T, but the token is empty", empty)?;
    let half = Model {
        steps: prepend(1),
        ..*t
    };
    tell(to, "T, but the step string is half a letter", &half)
}

// A model with a token in its first list and a step.
fn furnished(model: Model<'_>) -> Model<'_> {
    Model {
        first: N_ALONE,
        steps: prepend(2),
        ..model
    }
}

pub(crate) fn run(to: &mut impl Write) -> io::Result<()> {
    let fallback = fallback();
    let t = furnished(t(&fallback));
    tell(to, "T", &t)?;
    tell(to, "U", &furnished(u(&fallback)))?;
    broken(to, &t)
}
