// T and U through fragments: where a text may be cut, and what blocks a cut. Writes a line for each: the answer's number, how many numbers
// were written, and all that stands in the result buffer afterwards.
use crate::tables::{fallback, t, u};
use crate::telling::tell_cells;
use model::{AddedTokens, Answer, Metaspace, Model, PrependScheme, Span, Step, StepList, Strings};
use std::io;
use std::io::Write;

// The longest result buffer that is lent, and what stands in it before a call.
const ROOM: usize = 6;

const BEFORE: u32 = 9;

fn tell(
    to: &mut impl Write,
    name: &str,
    model: &Model<'_>,
    text: &str,
    target: usize,
    room: usize,
) -> io::Result<()> {
    let mut out = [BEFORE; ROOM];
    let out = &mut out[..room.min(ROOM)];
    let answer = Answer::from(fragments::fragments(model, text.as_bytes(), target, out));
    write!(
        to,
        "{name}: {}, written {}, result",
        answer.number, answer.written
    )?;
    tell_cells(to, out)?;
    writeln!(to)
}

// Of two steps, a Prepend of the mark and spaces turned into marks, the first `count`.
fn steps(count: usize) -> StepList<'static> {
    let mark = Span { place: 0, len: 3 };
    let mut list = [Step::Prepend(mark); 16];
    list[1] = Step::Replace {
        pattern: Span { place: 3, len: 1 },
        content: mark,
    };
    StepList {
        bytes: b"\xE2\x96\x81 ",
        list,
        count,
    }
}

// T with one token of one byte, and some of the steps.
fn with_token(
    to: &mut impl Write,
    name: &str,
    content: u8,
    lstrip: bool,
    rstrip: bool,
    step_count: usize,
    text: &str,
) -> io::Result<()> {
    let fallback = fallback();
    let first = AddedTokens {
        contents: Strings {
            bytes: &[content],
            offsets: &[0, 1],
        },
        ids: &[50],
        lstrip: &[lstrip],
        rstrip: &[rstrip],
    };
    let model = Model {
        first,
        steps: steps(step_count),
        ..t(&fallback)
    };
    tell(to, name, &model, text, 0, ROOM)
}

fn plain(to: &mut impl Write) -> io::Result<()> {
    let fallback = fallback();
    let t = t(&fallback);
    let u = u(&fallback);
    let split = Model {
        metaspace: Some(Metaspace {
            prepend: PrependScheme::Always,
            split: true,
        }),
        ..t
    };
    tell(
        to,
        "T: fragments of 'a b a', target 0",
        &t,
        "a b a",
        0,
        ROOM,
    )?;
    tell(
        to,
        "U: fragments of 'a b a', target 0",
        &u,
        "a b a",
        0,
        ROOM,
    )?;
    tell(to, "T: fragments of 'a  b', target 2", &t, "a  b", 2, ROOM)?;
    tell(
        to,
        "T that splits: fragments of 'a  b', target 2",
        &split,
        "a  b",
        2,
        ROOM,
    )?;
    tell(
        to,
        "U: fragments of 'a b b', target 0",
        &u,
        "a b b",
        0,
        ROOM,
    )?;
    tell(to, "T: fragments of the empty text", &t, "", 0, ROOM)?;
    tell(
        to,
        "T: fragments of 'a b a', a cell short",
        &t,
        "a b a",
        0,
        ROOM - 1,
    )?;
    tell(
        to,
        "T: fragments of 'a b a', the largest target",
        &t,
        "a b a",
        usize::MAX,
        ROOM,
    )
}

pub(crate) fn run(to: &mut impl Write) -> io::Result<()> {
    plain(to)?;
    with_token(
        to,
        "T and the token ' ': fragments of 'a a'",
        b' ',
        false,
        false,
        0,
        "a a",
    )?;
    with_token(
        to,
        "T and the token 'b': fragments of 'ab a'",
        b'b',
        false,
        false,
        0,
        "ab a",
    )?;
    with_token(
        to,
        "T and the token 'b' with rstrip: fragments of 'ab a'",
        b'b',
        false,
        true,
        0,
        "ab a",
    )?;
    with_token(
        to,
        "T and the token 'a' with lstrip: fragments of 'ab a'",
        b'a',
        true,
        false,
        0,
        "ab a",
    )?;
    with_token(
        to,
        "T, Unguarded, and the token 'b': fragments of 'ab a'",
        b'b',
        false,
        false,
        2,
        "ab a",
    )?;
    with_token(
        to,
        "T with a Prepend alone: fragments of 'ab a'",
        b'b',
        false,
        false,
        1,
        "ab a",
    )
}
