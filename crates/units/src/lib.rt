// How a model's sections divide into units that are merged one by one. Defined in specs/Kinds.antt, the kind of split and the raw path, and
// specs/Units.antt, where units start; what is derived once is in specs/Derived.antt and specs/Adjacency.antt.

#![tactic(auto)]

use model::Strings;

pub mod adjacency;
pub mod crossings;
pub mod cut;
pub mod raw;
pub mod spans;

// The kind of split.
#[derive(Clone, Copy)]
pub enum WordSplit {
    // A unit starts at a mark that follows no mark, unless a crossing piece spans it.
    SpaceRuns,
    // A unit starts at every mark.
    EveryMark,
    // A section is one unit.
    None,
}

// A kind of split, and how many crossings were noted for it.
#[derive(Clone, Copy)]
pub struct Split {
    pub kind: WordSplit,
    pub count: usize,
}

// How a piece crosses from one unit to the next.
#[derive(Clone, Copy)]
pub(crate) enum Crossed {
    // Not at all.
    Nowhere,
    // By the mark at this place, with no mark or space beside it.
    At(usize),
    // By a mark, with another mark or a space beside it.
    Tangled,
}

// How the raw path puts a virtual mark in front of a section.
#[derive(Clone, Copy)]
pub enum RawPrepend {
    Never,
    Unguarded,
    GuardedAlways,
    GuardedFirst,
}

// What the sections of a model are cut by.
#[derive(Clone, Copy)]
pub struct Cutter<'a> {
    pub kind: WordSplit,
    pub pieces: Strings<'a>,
    // Two words for each of the first `count` crossings: a piece's id, and the place of its mark.
    pub noted: &'a [u32],
    pub count: usize,
    pub adjacency: &'a [u64],
}
