// The rows of the sample, each a model or a call on the last model before it.
use crate::calls::Call;
use crate::cases;
use crate::report::{Tally, count};
use crate::sample::{Sample, between};
use model::tables::number_at;
use std::io;
use std::io::Write;

// Numbers a row.
pub(crate) const ROW: usize = 27;

// The number of a row that is a model, as the stored sample has it.
const MODEL: u32 = 0;

// Replays the first `rows` rows.
pub(crate) fn replay_rows(
    to: &mut impl Write,
    sample: &Sample<'_>,
    rows: usize,
) -> io::Result<Tally> {
    let mut tally = Tally::default();
    let mut model = between(sample.numbers, 0, ROW);
    for row in sample.numbers.chunks_exact(ROW).take(rows) {
        let number = number_at(row, 0);
        if number == MODEL {
            model = row;
        } else {
            let call = Call::of(number);
            let outcome = cases::run(sample, model, call, row);
            count(to, &mut tally, call, outcome)?;
        }
    }
    Ok(tally)
}
