// What a call answered and left in its buffers, against what the sample says.
ghost use Rattle.std.specs.Prelude.{◌<◌};

use crate::sample::place_at;
use model::Answer;
use std::fmt;
use std::fmt::{Display, Formatter};

#[derive(Clone, Copy)]
pub(crate) enum Buffer {
    Result,
    FirstScratch,
    SecondScratch,
}

// What differs.
#[derive(Clone, Copy)]
pub(crate) enum Part {
    Number,
    Place,
    Written,
    Drops,
    Skips,
    // A cell of a buffer.
    Cell(Buffer, usize),
    // The case is none that can be run: it asks for too much room, or for a call that is not known.
    Room,
    Call,
}

impl Display for Part {
    fn fmt<W: fmt::Write>(&self, f: &mut Formatter<W>) -> fmt::Result {
        match self {
            Part::Number => f.write_str("the answer's number"),
            Part::Place => f.write_str("the answer's place"),
            Part::Written => f.write_str("the answer's written"),
            Part::Drops => f.write_str("the answer's drops"),
            Part::Skips => f.write_str("the answer's skips"),
            Part::Cell(Buffer::Result, at) => write!(f, "the result at {at}"),
            Part::Cell(Buffer::FirstScratch, at) => write!(f, "the first scratch at {at}"),
            Part::Cell(Buffer::SecondScratch, at) => write!(f, "the second scratch at {at}"),
            Part::Room => f.write_str("the longest buffer"),
            Part::Call => f.write_str("the last call's number"),
        }
    }
}

#[derive(Clone, Copy)]
pub(crate) struct Difference {
    pub part: Part,
    pub found: usize,
    pub expected: usize,
}

fn same(part: Part, found: usize, expected: usize) -> Result<(), Difference> {
    if found == expected {
        return Ok(());
    }
    Err(Difference {
        part,
        found,
        expected,
    })
}

// The five numbers stand in `row` from `at` on.
pub(crate) fn answers(answer: Answer, row: &[u32], at: usize) -> Result<(), Difference>
    requires { at < 1024 }
{
    same(Part::Number, answer.number as usize, place_at(row, at))?;
    same(Part::Place, answer.place, place_at(row, at + 1))?;
    same(Part::Written, answer.written, place_at(row, at + 2))?;
    same(Part::Drops, answer.drops, place_at(row, at + 3))?;
    same(Part::Skips, answer.skips, place_at(row, at + 4))
}

// A result is as long as what is expected of it.
pub(crate) fn results<T: Copy + Into<u32>>(found: &[T], expected: &[T]) -> Result<(), Difference> {
    for (at, (found, expected)) in found.iter().zip(expected).enumerate() {
        let found: u32 = (*found).into();
        let expected: u32 = (*expected).into();
        same(
            Part::Cell(Buffer::Result, at),
            found as usize,
            expected as usize,
        )?;
    }
    Ok(())
}

// Each byte is the one that is expected.
pub(crate) fn scratch(buffer: Buffer, found: &[u8], expected: usize) -> Result<(), Difference> {
    for (at, byte) in found.iter().enumerate() {
        same(Part::Cell(buffer, at), usize::from(*byte), expected)?;
    }
    Ok(())
}
