// T, U and models near them through encode. Writes a line for each call: the model, the text, the answer's number, how many cells
// it says were written and how many characters dropped, and all that stands in the three buffers afterwards.
use crate::tables::{ALWAYS, N_ALONE, crossed_offsets, crossed_pieces, fallback, t, u};
use crate::telling::{Rooms, tell_bytes, tell_cells};
use model::{AddedTokens, Answer, Metaspace, Model, PrependScheme, Span, Step, StepList, Strings};
use std::io;
use std::io::Write;

// What stands in every cell of the result, and in every byte of scratch, before a call.
const CELL: u32 = 9;

const BEFORE: u8 = 0xEE;

// The longest buffers that are lent.
const ROOM: usize = 9;

// For the raw path, where scratch is cleared and otherwise not used.
const RAW: Rooms = Rooms { out: 6, a: 1, b: 2 };

// For steps that put out nothing.
const NONE: Rooms = Rooms { out: 6, a: 0, b: 0 };

const FOUR: Rooms = Rooms { out: 6, a: 4, b: 4 };

const NINE: Rooms = Rooms { out: 6, a: 9, b: 9 };

// A step takes a model off the raw path.
const STRIP: Step = Step::Strip {
    left: true,
    right: true,
};

// Puts `a` in the place of nothing.
const INSERT: Step = Step::Replace {
    pattern: Span { place: 0, len: 0 },
    content: Span { place: 0, len: 1 },
};

// The tokens `<` (60, rstrip), space and `b` (61), `b` (62) and `>` (63, lstrip).
const FOUR_TOKENS: AddedTokens<'static> = AddedTokens {
    contents: Strings {
        bytes: b"< bb>",
        offsets: &[0, 1, 3, 4, 5],
    },
    ids: &[60, 61, 62, 63],
    lstrip: &[false, false, false, true],
    rstrip: &[true, false, false, false],
};

fn one(step: Step) -> StepList<'static> {
    StepList {
        bytes: b"a",
        list: [step; 16],
        count: 1,
    }
}

fn tell(
    to: &mut impl Write,
    name: &str,
    model: &Model<'_>,
    text: &str,
    continuation: bool,
    rooms: Rooms,
) -> io::Result<()> {
    let mut out = [CELL; ROOM];
    let mut a = [BEFORE; ROOM];
    let mut b = [BEFORE; ROOM];
    let out = &mut out[..rooms.out.min(ROOM)];
    let a = &mut a[..rooms.a.min(ROOM)];
    let b = &mut b[..rooms.b.min(ROOM)];
    let answer = Answer::from(encode::encode(model, text.as_bytes(), continuation, out, a, b));
    write!(to, "{name}, '{text}'")?;
    if continuation {
        write!(to, " continued")?;
    }
    write!(
        to,
        ": {}, written {}, drops {}, result",
        answer.number, answer.written, answer.drops
    )?;
    tell_cells(to, out)?;
    write!(to, ", scratch")?;
    tell_bytes(to, a)?;
    write!(to, " and")?;
    tell_bytes(to, b)?;
    writeln!(to)
}

// T itself.
fn bare(
    to: &mut impl Write,
    t: &Model<'_>,
    text: &str,
    continuation: bool,
    out: usize,
) -> io::Result<()> {
    tell(to, "T", t, text, continuation, Rooms { out, ..RAW })
}

// P1 to P7 of rule 14.3.
fn table(to: &mut impl Write, t: &Model<'_>, continuation: bool) -> io::Result<()> {
    let u = u(t.fallback);
    bare(to, t, "ab a", continuation, 6)?;
    bare(to, t, " a", continuation, 6)?;
    bare(to, t, "\u{E9}", continuation, 6)?;
    bare(to, t, "c", continuation, 6)?;
    bare(to, t, "a.b", continuation, 6)?;
    tell(to, "U", &u, "b a", continuation, RAW)?;
    tell(to, "U", &u, "b b", continuation, RAW)
}

// Characters that drop or fall back to bytes; no text; a result that is a cell short and exact.
fn dropped(to: &mut impl Write, t: &Model<'_>) -> io::Result<()> {
    bare(to, t, "acb", false, 6)?;
    bare(to, t, "\u{E9}\u{E8}", false, 6)?;
    bare(to, t, "", false, 6)?;
    bare(to, t, "ab a", false, 4)?;
    bare(to, t, "ab a", false, 5)?;
    bare(to, t, "ab a", true, 4)
}

// Sections around tokens, empty ones among them.
fn tokens(
    to: &mut impl Write,
    name: &str,
    t: &Model<'_>,
    prepend: PrependScheme,
) -> io::Result<()> {
    let model = Model {
        first: N_ALONE,
        metaspace: Some(Metaspace {
            prepend,
            split: false,
        }),
        ..*t
    };
    tell(to, name, &model, "a<n>b", false, RAW)?;
    tell(to, name, &model, "a<n>b", true, RAW)?;
    tell(to, name, &model, "<n>a", false, RAW)?;
    tell(to, name, &model, "<n>a", true, RAW)?;
    tell(to, name, &model, "a<n>", false, RAW)?;
    tell(to, name, &model, "<n><n>", false, RAW)?;
    tell(to, name, &model, "<n>", false, RAW)?;
    tell(to, name, &model, "", false, RAW)
}

// A line with four tokens as the first list of T, and one with them as its second.
fn with_four(to: &mut impl Write, t: &Model<'_>, text: &str) -> io::Result<()> {
    let first = Model {
        first: FOUR_TOKENS,
        ..*t
    };
    let second = Model {
        second: FOUR_TOKENS,
        ..*t
    };
    tell(to, "T with four tokens", &first, text, false, RAW)?;
    tell(
        to,
        "T with four tokens in the second list",
        &second,
        text,
        false,
        FOUR,
    )
}

// What an rstrip swallows, and sections that an lstrip shortens or leaves empty.
fn strips(to: &mut impl Write, t: &Model<'_>) -> io::Result<()> {
    with_four(to, t, "< b")?;
    with_four(to, t, "< bb")?;
    with_four(to, t, "a >a")?;
    with_four(to, t, " >a")?;
    with_four(to, t, "<  >")
}

// T with one step.
fn stripped(
    to: &mut impl Write,
    t: &Model<'_>,
    text: &str,
    continuation: bool,
    rooms: Rooms,
) -> io::Result<()> {
    let model = Model {
        steps: one(STRIP),
        ..*t
    };
    tell(to, "T with Strip", &model, text, continuation, rooms)
}

// Scratch a byte short and exact, result a cell short and exact, both short; and a continuation.
fn short_and_exact(to: &mut impl Write, t: &Model<'_>) -> io::Result<()> {
    stripped(to, t, "ab a", false, Rooms { out: 5, a: 8, b: 9 })?;
    stripped(to, t, "ab a", false, Rooms { out: 5, a: 9, b: 8 })?;
    stripped(to, t, "ab a", false, Rooms { out: 4, a: 9, b: 8 })?;
    stripped(to, t, "ab a", false, Rooms { out: 4, a: 9, b: 9 })?;
    stripped(to, t, "ab a", false, Rooms { out: 5, a: 9, b: 9 })?;
    stripped(to, t, "ab a", true, Rooms { out: 5, a: 9, b: 9 })
}

// Two sections, whose longest outputs have four bytes and five, and their token: six cells, the first section's two of them.
fn two_sections(to: &mut impl Write, t: &Model<'_>, out: usize, room: usize) -> io::Result<()> {
    let model = Model {
        first: N_ALONE,
        steps: one(STRIP),
        ..*t
    };
    let rooms = Rooms {
        out,
        a: room,
        b: room,
    };
    tell(to, "T with <n> and Strip", &model, "a<n>ab", false, rooms)
}

// The first section's cells are short, and the last section's scratch with them or not.
fn sections_short_and_exact(to: &mut impl Write, t: &Model<'_>) -> io::Result<()> {
    two_sections(to, t, 1, 4)?;
    two_sections(to, t, 1, 5)?;
    two_sections(to, t, 5, 5)?;
    two_sections(to, t, 6, 5)
}

// What a step makes of nothing, and makes nothing of.
fn emptied(to: &mut impl Write, t: &Model<'_>) -> io::Result<()> {
    stripped(to, t, " ab a ", false, Rooms { out: 5, ..NINE })?;
    stripped(to, t, "  ", false, Rooms { out: 5, ..NONE })?;
    stripped(to, t, "", false, Rooms { out: 5, ..NONE })?;
    let with_n = Model {
        first: N_ALONE,
        steps: one(STRIP),
        ..*t
    };
    tell(to, "T with <n> and Strip", &with_n, " <n> ", false, NONE)?;
    let inserts = Model {
        steps: one(INSERT),
        ..*t
    };
    let n_inserts = Model {
        first: N_ALONE,
        ..inserts
    };
    tell(to, "T with a for nothing", &inserts, "", false, FOUR)?;
    tell(
        to,
        "T with <n> and a for nothing",
        &n_inserts,
        "",
        false,
        FOUR,
    )
}

// U, whose piece `b▁a` stands `count` times, equal ones under one entry of the lookup list. With 33 crossings the kind is None: one unit,
// in which what stands around a dropped character merges, and no raw path.
fn crossings(to: &mut impl Write, name: &str, t: &Model<'_>, count: usize) -> io::Result<()> {
    let bytes = crossed_pieces();
    let offsets = crossed_offsets();
    let count = count.min(33);
    let model = Model {
        pieces: Strings {
            bytes: &bytes[..14 + 5 * count],
            offsets: &offsets[..9 + count],
        },
        ..u(t.fallback)
    };
    tell(to, name, &model, "b a", false, NINE)?;
    tell(to, name, &model, "bc a", false, NINE)?;
    tell(to, name, &model, "bc a", false, Rooms { b: 8, ..NINE })?;
    tell(to, name, &model, "bc a", true, NINE)
}

pub(crate) fn run(to: &mut impl Write) -> io::Result<()> {
    let fallback = fallback();
    let t = t(&fallback);
    table(to, &t, false)?;
    table(to, &t, true)?;
    dropped(to, &t)?;
    tokens(to, "T with <n>", &t, PrependScheme::Always)?;
    tokens(to, "T with <n>, First", &t, PrependScheme::First)?;
    strips(to, &t)?;
    short_and_exact(to, &t)?;
    sections_short_and_exact(to, &t)?;
    emptied(to, &t)?;
    crossings(to, "U with 32 crossings", &t, 32)?;
    crossings(to, "U with 33 crossings", &t, 33)
}
