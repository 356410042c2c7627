// The sample as a whole: its head says how much there is, so that a sample which was cut off or changed is told.
ghost use Rattle.std.specs.Prelude.{◌≤◌, IfOk};

use crate::sample::{Sample, between, sum_of, unpack, unpack_flags, word_at};
use crate::{report, rows};
use std::io;
use std::io::Stdout;

// A sample begins with its name and this head.
const NAME: &[u8; 16] = b"varitmol replay1";

const HEAD: usize = 40;

// Where the sum over the rest begins.
const SUMMED: usize = 24;

#[derive(Clone, Copy)]
struct Head {
    // The sample's length.
    length: usize,
    // The sum over all that follows the sum.
    sum: u32,
    rows: usize,
    // Where the sample's bytes and its flags end.
    bytes_end: usize,
    flags_end: usize,
    // How many numbers there are.
    numbers: usize,
}

fn head_of(input: &[u8]) -> Head {
    Head {
        length: word_at(input, 16) as usize,
        sum: word_at(input, 20),
        rows: word_at(input, 24) as usize,
        bytes_end: word_at(input, 28) as usize,
        flags_end: word_at(input, 32) as usize,
        numbers: word_at(input, 36) as usize,
    }
}

// Whether there is a whole sample; if not, says why.
fn whole(
    input: &[u8],
    head: Head,
    flag_count: usize,
    number_room: usize,
    flag_room: usize,
) -> Result<(), &'static str>
    ensures { IfOk result (λ _. head.numbers ≤ number_room) }
{
    if !input.starts_with(NAME) {
        return Err("this is no sample: it does not begin with its name");
    }
    if input.len() != head.length {
        return Err("the sample is cut off, or too long: it has not the length that it says");
    }
    if number_room < head.numbers {
        return Err("the sample has too many numbers");
    }
    if head.numbers / rows::ROW < head.rows {
        return Err("the sample has not the numbers for its rows");
    }
    if flag_room < flag_count {
        return Err("the sample has too many flags");
    }
    Ok(())
}

// A sentence goes out in one write with its line's end, by `println!`.
pub(crate) fn replay(
    to: &mut Stdout,
    input: &[u8],
    numbers: &mut [u32],
    flags: &mut [bool],
) -> io::Result<()> {
    let head = head_of(input);
    let flag_bytes = between(input, head.bytes_end, head.flags_end);
    if let Err(why) = whole(input, head, flag_bytes.len(), numbers.len(), flags.len()) {
        return println!(to; "{why}");
    }
    if sum_of(between(input, SUMMED, input.len())) != head.sum {
        println!(to; "the sample was changed: it has not the sum that it says")?;
    }
    let numbers = &mut numbers[..head.numbers];
    if !unpack(between(input, head.flags_end, input.len()), numbers).is_empty() {
        println!(to; "the sample was changed: its numbers do not end where it does")?;
    }
    unpack_flags(flag_bytes, flags);
    let sample = Sample {
        bytes: between(input, HEAD, head.bytes_end),
        numbers,
        flags,
    };
    let tally = rows::replay_rows(to, &sample, head.rows)?;
    report::tell(to, tally)
}
