// Added tokens as a lent list of records, beside the flat columns: each function reads one record at a time and calls the code of the columns.
// The columns that a list of records stands for, and what the answers below mean, are in specs/Records.antt.

#![tactic(auto)]

use model::Span;

pub mod read;
pub mod seek;
pub mod strips;

// An added token; its content is a string of the lent bytes.
#[derive(Clone, Copy)]
pub struct AddedToken {
    pub content: Span,
    pub id: u32,
    pub lstrip: bool,
    pub rstrip: bool,
}

// What stands past the end of a list: the definition reads a record there too.
pub const NO_TOKEN: AddedToken = AddedToken {
    content: Span { place: 0, len: 0 },
    id: 0,
    lstrip: false,
    rstrip: false,
};

// The longest token at the head of a text: its row, and how many bytes its content has.
#[derive(Clone, Copy, PartialEq, Eq, Debug)]
pub struct Longest {
    pub row: usize,
    pub len: usize,
}

// What a token that stands at a place does: the section before it stops at `stop`, the next begins at `next`.
#[derive(Clone, Copy, PartialEq, Eq, Debug)]
pub struct Standing {
    pub stop: usize,
    pub next: usize,
    pub id: u32,
}
