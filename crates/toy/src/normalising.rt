// T, with other steps and metaspace, through normalise: what Strip takes away, every step on empty text, and buffers one byte
// short and exact. Writes a line for each: the answer's number, and all that stands in the three buffers afterwards.
use crate::tables::{ALWAYS, NO_STEPS, fallback, t};
use crate::telling::{Rooms, tell_bytes};
use model::{Answer, Metaspace, Model, Span, Step, StepList};
use std::io;
use std::io::Write;

// What stands in every buffer before a call.
const BEFORE: u8 = 0xEE;

// The longest buffer that is lent.
const ROOM: usize = 8;

const AMPLE: Rooms = Rooms {
    out: ROOM,
    a: ROOM,
    b: ROOM,
};

// The strings of steps: a letter of two bytes, `a`, and the empty one.
const STEP_BYTES: &[u8; 3] = b"\xC3\xA9a";

const LETTER: Span = Span { place: 0, len: 2 };

const A: Span = Span { place: 2, len: 1 };

const EMPTY: Span = Span { place: 0, len: 0 };

const STRIP: Step = Step::Strip {
    left: true,
    right: true,
};

fn tell(
    to: &mut impl Write,
    name: &str,
    steps: StepList<'_>,
    metaspace: Option<Metaspace>,
    text: &str,
    rooms: Rooms,
) -> io::Result<()> {
    let fallback = fallback();
    let model = Model {
        steps,
        metaspace,
        ..t(&fallback)
    };
    let mut out = [BEFORE; ROOM];
    let mut a = [BEFORE; ROOM];
    let mut b = [BEFORE; ROOM];
    let out = &mut out[..rooms.out.min(ROOM)];
    let a = &mut a[..rooms.a.min(ROOM)];
    let b = &mut b[..rooms.b.min(ROOM)];
    let answer = Answer::from(normalise::normalise(&model, text.as_bytes(), true, out, a, b));
    write!(to, "{name}: {}, result", answer.number)?;
    tell_bytes(to, out)?;
    write!(to, ", scratch")?;
    tell_bytes(to, a)?;
    write!(to, " and")?;
    tell_bytes(to, b)?;
    writeln!(to)
}

fn one_step(
    to: &mut impl Write,
    name: &str,
    step: Step,
    text: &str,
    rooms: Rooms,
) -> io::Result<()> {
    let steps = StepList {
        bytes: STEP_BYTES,
        list: [step; 16],
        count: 1,
    };
    tell(to, name, steps, None, text, rooms)
}

// The letter of two bytes in front of `a`.
fn prepend(to: &mut impl Write, name: &str, out: usize, a: usize, b: usize) -> io::Result<()> {
    one_step(to, name, Step::Prepend(LETTER), "a", Rooms { out, a, b })
}

// In `aa` each `a` becomes the letter of two bytes, and that letter nothing.
fn longer_then_shorter(to: &mut impl Write, name: &str, room: usize) -> io::Result<()> {
    let longer = Step::Replace {
        pattern: A,
        content: LETTER,
    };
    let mut list = [longer; 16];
    list[1] = Step::Replace {
        pattern: LETTER,
        content: EMPTY,
    };
    let steps = StepList {
        bytes: STEP_BYTES,
        list,
        count: 2,
    };
    let rooms = Rooms {
        a: room,
        b: room,
        ..AMPLE
    };
    tell(to, name, steps, None, "aa", rooms)
}

fn metaspace(to: &mut impl Write, name: &str, text: &str, a: usize, b: usize) -> io::Result<()> {
    tell(
        to,
        name,
        NO_STEPS,
        Some(ALWAYS),
        text,
        Rooms { a, b, ..AMPLE },
    )
}

fn empty_text(to: &mut impl Write) -> io::Result<()> {
    let replace = Step::Replace {
        pattern: A,
        content: LETTER,
    };
    let insert = Step::Replace {
        pattern: EMPTY,
        content: LETTER,
    };
    let collapse = Step::CollapseSpaces { content: LETTER };
    one_step(
        to,
        "Prepend on empty text",
        Step::Prepend(LETTER),
        "",
        AMPLE,
    )?;
    one_step(to, "Replace on empty text", replace, "", AMPLE)?;
    one_step(
        to,
        "Replace of the empty pattern on empty text",
        insert,
        "",
        AMPLE,
    )?;
    one_step(to, "CollapseSpaces on empty text", collapse, "", AMPLE)?;
    one_step(to, "Strip on empty text", STRIP, "", AMPLE)?;
    metaspace(to, "Metaspace on empty text", "", ROOM, ROOM)
}

// An output of three bytes, one of four between two steps, and metaspace's of four.
fn scratch_short_and_exact(to: &mut impl Write) -> io::Result<()> {
    prepend(to, "Prepend, first scratch a byte short", ROOM, 2, 3)?;
    prepend(to, "Prepend, second scratch a byte short", ROOM, 3, 2)?;
    prepend(to, "Prepend, scratch exact", ROOM, 3, 3)?;
    longer_then_shorter(to, "Two steps, scratch a byte short", 3)?;
    longer_then_shorter(to, "Two steps, scratch exact", 4)?;
    metaspace(to, "Metaspace, scratch a byte short", "a", 4, 3)?;
    metaspace(to, "Metaspace, scratch exact", "a", 4, 4)
}

fn result_short_and_exact(to: &mut impl Write) -> io::Result<()> {
    prepend(to, "Prepend, result a byte short", 2, ROOM, ROOM)?;
    prepend(to, "Prepend, result exact", 3, ROOM, ROOM)
}

pub(crate) fn run(to: &mut impl Write) -> io::Result<()> {
    one_step(
        to,
        "Strip of U+00A0, a, U+00A0",
        STRIP,
        "\u{A0}a\u{A0}",
        AMPLE,
    )?;
    one_step(
        to,
        "Strip of U+200B, a, U+200B",
        STRIP,
        "\u{200B}a\u{200B}",
        AMPLE,
    )?;
    empty_text(to)?;
    scratch_short_and_exact(to)?;
    result_short_and_exact(to)
}
