// T, and a model whose pieces are single bytes, through decode: stray bytes of each kind, ids that are skipped, and buffers one byte short
// and exact. Writes a line for each: the answer's number, how many bytes were written, how many ids were skipped, and all that
// stands in the result buffer afterwards.
use crate::tables::{NO_STEPS, NO_TOKENS, fallback, t};
use crate::telling::tell_bytes;
use model::{Answer, MergeRows, Model, Strings};
use std::io;
use std::io::Write;

// What stands in the result buffer before a call.
const BEFORE: u8 = 0xEE;

// The longest result buffer that is lent.
const ROOM: usize = 12;

// The pieces of the other model are 'a', and bytes that are no character alone.
const BYTES: Model<'static> = Model {
    pieces: Strings {
        bytes: &[0x61, 0x80, 0x81, 0x90, 0x96, 0xA0, 0xC0, 0xE2, 0xED, 0xF4],
        offsets: &[0, 1, 2, 3, 4, 5, 6, 7, 8, 9, 10],
    },
    lookup: &[0, 1, 2, 3, 4, 5, 6, 7, 8, 9],
    fallback: &[u32::MAX; 256],
    rows: MergeRows {
        left: &[],
        right: &[],
        result: &[],
        rank: &[],
    },
    first: NO_TOKENS,
    second: NO_TOKENS,
    steps: NO_STEPS,
    // So that no space goes.
    metaspace: None,
};

fn tell(
    to: &mut impl Write,
    name: &str,
    model: &Model<'_>,
    ids: &[u32],
    room: usize,
) -> io::Result<()> {
    let mut out = [BEFORE; ROOM];
    let out = &mut out[..room.min(ROOM)];
    let answer = Answer::from(decode::decode(model, ids, out));
    write!(
        to,
        "{name}: {}, written {}, skips {}, result",
        answer.number, answer.written, answer.skips
    )?;
    tell_bytes(to, out)?;
    writeln!(to)
}

pub(crate) fn run(to: &mut impl Write) -> io::Result<()> {
    let fallback = fallback();
    let t = t(&fallback);
    tell(to, "T: decode 4", &t, &[4], 2)?;
    tell(to, "T: decode 0 99 1", &t, &[0, 99, 1], 2)?;
    tell(to, "T: decode 0 0 1", &t, &[0, 0, 1], 3)?;
    tell(to, "T: decode no ids", &t, &[], 2)?;
    tell(to, "T: decode 4 4", &t, &[4, 4], 2)?;
    tell(to, "T: decode 4 4", &t, &[4, 4], 3)?;
    tell(to, "T: decode 4 6", &t, &[4, 6], 6)?;
    tell(to, "T: decode 4 6 7", &t, &[4, 6, 7], 6)?;
    let bytes = BYTES;
    tell(to, "E2 96", &bytes, &[7, 4], ROOM)?;
    tell(to, "E2 96 and a letter", &bytes, &[7, 4, 0], ROOM)?;
    tell(to, "C0 80", &bytes, &[6, 1], ROOM)?;
    tell(to, "a surrogate, ED A0 80", &bytes, &[8, 5, 1], ROOM)?;
    tell(to, "F4 90 80 80", &bytes, &[9, 3, 1, 1], ROOM)?;
    tell(
        to,
        "a mark, an id without a piece between its bytes, and a letter",
        &bytes,
        &[7, 4, 99, 2, 0],
        ROOM,
    )
}
