// A model's row of the sample, as the model that a call takes.
ghost use Rattle.std.specs.Prelude.{◌<◌};

use crate::sample::Sample;
use model::tables::number_at;
use model::{
    AddedTokens, MergeRows, Metaspace, Model, PrependScheme, Span, Step, StepList, Strings,
};

// Where the row has the starts and ends of the model's numbers, bytes and flags, then its metaspace and whether that splits.
const NUMBERS: usize = 1;

const BYTES: usize = 14;

const FLAGS: usize = 20;

const METASPACE: usize = 25;

const SPLIT: usize = 26;

// Numbers a step: its kind, and what the kind takes.
const STEP: usize = 5;

// The whole fallback row, from the bytes that have a piece.
pub(crate) fn fallback(sample: &Sample<'_>, row: &[u32]) -> [u32; 256] {
    let ids = sample.numbers(row, NUMBERS + 2);
    let mut fallback = [u32::MAX; 256];
    for (i, byte) in sample.bytes(row, BYTES + 1).iter().enumerate() {
        fallback[usize::from(*byte)] = number_at(ids, i);
    }
    fallback
}

fn span_at(numbers: &[u32], at: usize) -> Span
    requires { at < 1024 }
{
    Span {
        place: number_at(numbers, at),
        len: number_at(numbers, at + 1),
    }
}

fn step_at(numbers: &[u32], i: usize) -> Step
    requires { i < 16 }
{
    let at = i * STEP;
    let one = span_at(numbers, at + 1);
    match number_at(numbers, at) {
        0 => Step::Prepend(one),
        1 => Step::Replace {
            pattern: one,
            content: span_at(numbers, at + 3),
        },
        2 => Step::CollapseSpaces { content: one },
        _ => Step::Strip {
            left: one.place != 0,
            right: one.len != 0,
        },
    }
}

fn steps<'a, 'n>(bytes: &'a [u8], numbers: &'n [u32]) -> StepList<'a> {
    let nothing = Step::Strip {
        left: false,
        right: false,
    };
    let mut list = [nothing; 16];
    for i in 0..16 {
        list[i] = step_at(numbers, i);
    }
    StepList {
        bytes,
        list,
        count: numbers.len() / STEP,
    }
}

fn metaspace(scheme: u32, split: bool) -> Option<Metaspace> {
    let prepend = match scheme {
        0 => return None,
        1 => PrependScheme::Never,
        2 => PrependScheme::Always,
        _ => PrependScheme::First,
    };
    Some(Metaspace { prepend, split })
}

pub(crate) fn model<'a, 's: 'a>(
    sample: &Sample<'s>,
    row: &[u32],
    fallback: &'a [u32],
) -> Model<'a> {
    Model {
        pieces: Strings {
            bytes: sample.bytes(row, BYTES),
            offsets: sample.numbers(row, NUMBERS),
        },
        lookup: sample.numbers(row, NUMBERS + 1),
        fallback,
        rows: MergeRows {
            left: sample.numbers(row, NUMBERS + 3),
            right: sample.numbers(row, NUMBERS + 4),
            result: sample.numbers(row, NUMBERS + 5),
            rank: sample.numbers(row, NUMBERS + 6),
        },
        first: AddedTokens {
            contents: Strings {
                bytes: sample.bytes(row, BYTES + 2),
                offsets: sample.numbers(row, NUMBERS + 7),
            },
            ids: sample.numbers(row, NUMBERS + 8),
            lstrip: sample.flags(row, FLAGS),
            rstrip: sample.flags(row, FLAGS + 1),
        },
        second: AddedTokens {
            contents: Strings {
                bytes: sample.bytes(row, BYTES + 3),
                offsets: sample.numbers(row, NUMBERS + 9),
            },
            ids: sample.numbers(row, NUMBERS + 10),
            lstrip: sample.flags(row, FLAGS + 2),
            rstrip: sample.flags(row, FLAGS + 3),
        },
        steps: steps(
            sample.bytes(row, BYTES + 4),
            sample.numbers(row, NUMBERS + 11),
        ),
        metaspace: metaspace(number_at(row, METASPACE), number_at(row, SPLIT) != 0),
    }
}
