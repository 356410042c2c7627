// A stretch of bytes as ids: its units, each merged for itself. Defined in specs/Stretches.antt.

#![tactic(auto)]

mod each;
mod repeats;
pub mod stretch;
mod unit;

use index::RowIndex;
use merge::Speller;
use units::Cutter;

// What a stretch is encoded by: where its units start, what these are spelled by, and the rows that merge them.
#[derive(Clone, Copy)]
pub(crate) struct Encoder<'a> {
    pub cutter: Cutter<'a>,
    pub speller: Speller<'a>,
    pub rows: RowIndex<'a>,
}
