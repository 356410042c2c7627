// One call of the sample, run and compared.
ghost use Rattle.std.specs.Prelude.{◌≤◌, IfOk};

use crate::calls::{Call, Given, LAST};
use crate::compare::{Buffer, Difference, Part};
use crate::sample::{Sample, place_at};
use crate::{calls, columns, compare};
use model::tables::number_at;

// Where a call's row has what it is given, the five numbers of the answer, the room of each scratch buffer and what stands in each
// of its bytes afterwards, then the starts and ends of its numbers (ids, and the result of encode and fragments) and of its bytes (text, and
// the result of normalise and decode).
const FLAG: usize = 1;

const TARGET: usize = 2;

const ANSWER: usize = 4;

const A: usize = 9;

const B: usize = 11;

const IDS: usize = 13;

const CELLS: usize = 14;

const TEXT: usize = 16;

const BYTES: usize = 17;

// What stands in every cell of a result, and in every byte of scratch, before a call.
const RESULT_BEFORE: u32 = 9;

const BYTE_BEFORE: u8 = 9;

const SCRATCH_BEFORE: u8 = 5;

// The longest buffers that are lent.
const ROOM: usize = 512;

fn given<'a>(sample: &Sample<'a>, row: &[u32]) -> Given<'a> {
    let low = place_at(row, TARGET);
    let high = place_at(row, TARGET + 1);
    Given {
        flag: number_at(row, FLAG) != 0,
        target: high << 32 | low,
        text: sample.bytes(row, TEXT),
        ids: sample.numbers(row, IDS),
    }
}

fn room(wanted: usize) -> Result<usize, Difference>
    ensures { IfOk result (λ n. n ≤ 512) }
{
    if ROOM < wanted {
        return Err(Difference {
            part: Part::Room,
            found: ROOM,
            expected: wanted,
        });
    }
    Ok(wanted)
}

// Makes the call of `row` on the model of `model`, and tells what differs.
pub(crate) fn run(
    sample: &Sample<'_>,
    model: &[u32],
    call: Option<Call>,
    row: &[u32],
) -> Result<(), Difference> {
    let Some(call) = call else {
        return Err(Difference {
            part: Part::Call,
            found: LAST,
            expected: place_at(row, 0),
        });
    };
    let expected_cells = sample.numbers(row, CELLS);
    let expected_bytes = sample.bytes(row, BYTES);
    let cells_room = room(expected_cells.len())?;
    let bytes_room = room(expected_bytes.len())?;
    let a_room = room(place_at(row, A))?;
    let b_room = room(place_at(row, B))?;
    let mut cells = [RESULT_BEFORE; ROOM];
    let mut bytes = [BYTE_BEFORE; ROOM];
    let mut a = [SCRATCH_BEFORE; ROOM];
    let mut b = [SCRATCH_BEFORE; ROOM];
    let cells = &mut cells[..cells_room];
    let bytes = &mut bytes[..bytes_room];
    let a = &mut a[..a_room];
    let b = &mut b[..b_room];
    let fallback = columns::fallback(sample, model);
    let lent = columns::model(sample, model, &fallback);
    let answer = calls::run(call, &lent, given(sample, row), cells, bytes, a, b);
    compare::answers(answer, row, ANSWER)?;
    compare::results(cells, expected_cells)?;
    compare::results(bytes, expected_bytes)?;
    compare::scratch(Buffer::FirstScratch, a, place_at(row, A + 1))?;
    compare::scratch(Buffer::SecondScratch, b, place_at(row, B + 1))
}
