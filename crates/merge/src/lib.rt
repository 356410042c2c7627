// The starting ids of a unit and their ranked merge. Defined in specs/Start.antt and specs/Merge.antt.

#![tactic(auto)]

use index::PieceIndex;

mod kept;
pub mod ranked;
pub mod start;

// What units are spelled by: the pieces, and the fallback ids of bytes.
#[derive(Clone, Copy)]
pub struct Speller<'a> {
    pub index: PieceIndex<'a>,
    pub fallback: &'a [u32],
}

// How many starting ids a unit has, and how many of its characters are dropped.
#[derive(Clone, Copy)]
pub struct Symbols {
    pub count: usize,
    pub drops: usize,
}

// What the next turn of a merge does: the pair at `place` becomes `result`.
#[derive(Clone, Copy)]
pub struct Joining {
    pub place: usize,
    pub result: u32,
    pub rank: u32,
}
