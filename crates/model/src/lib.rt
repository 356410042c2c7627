// The model's types, and its check. The tables themselves are lent as slices, one a column; what they mean is in specs/Model.antt
// and specs/Mark.antt, the check in specs/Check.antt, what a call leaves in specs/Answers.antt.

#![tactic(auto)]

ghost use Rattle.std.specs.Prelude.{◌≡◌};
ghost use Rattle.model.specs.Model.{columns};
ghost use Rattle.model.specs.Answers.{done, refused, number_of, place_named, answer_of, checked};
ghost use Rattle.model.specs.Check.{check_outcome};

use fallback::bad_fallback;
use lookup::bad_lookup;
use offsets::offsets_astray;
use rows::bad_row;
use sizes::wrong_sizes;
use steps::{StepTest, steps_fail};
use texts::{bad_piece, bad_token};

pub mod clear;
pub mod compare;
pub mod fallback;
mod lookup;
pub mod mark;
mod offsets;
mod rows;
pub mod search;
mod sizes;
mod steps;
pub mod tables;
mod texts;

// Strings that lie end to end in a row of bytes: string i goes from offset i up to offset i + 1.
#[derive(Clone, Copy)]
pub struct Strings<'a> {
    pub bytes: &'a [u8],
    pub offsets: &'a [u32],
}

// The merge rows, a column each.
#[derive(Clone, Copy)]
pub struct MergeRows<'a> {
    pub left: &'a [u32],
    pub right: &'a [u32],
    pub result: &'a [u32],
    pub rank: &'a [u32],
}

// A list of added tokens, a column each.
#[derive(Clone, Copy)]
pub struct AddedTokens<'a> {
    pub contents: Strings<'a>,
    pub ids: &'a [u32],
    pub lstrip: &'a [bool],
    pub rstrip: &'a [bool],
}

// The steps of the normalization: of the 16 the first `count`. Their strings lie in `bytes`. No slice, since C gives steps as numbers and there
// is no memory but this array for a list of them.
#[derive(Clone, Copy)]
pub struct StepList<'a> {
    pub bytes: &'a [u8],
    pub list: [Step; 16],
    pub count: usize,
}

// The tables of a model, lent.
#[derive(Clone, Copy)]
pub struct Model<'a> {
    pub pieces: Strings<'a>,
    pub lookup: &'a [u32],
    pub fallback: &'a [u32],
    pub rows: MergeRows<'a>,
    pub first: AddedTokens<'a>,
    pub second: AddedTokens<'a>,
    pub steps: StepList<'a>,
    pub metaspace: Option<Metaspace>,
}

// A string of the step bytes: `len` bytes from `place` on.
#[derive(Clone, Copy)]
pub struct Span {
    pub place: u32,
    pub len: u32,
}

// One step of the normalization.
#[derive(Clone, Copy)]
pub enum Step {
    // Puts the string in front of a text that is not empty.
    Prepend(Span),
    // Puts the content in the place of each occurrence of the pattern.
    Replace { pattern: Span, content: Span },
    // Puts the content in the place of each run of two or more spaces.
    CollapseSpaces { content: Span },
    // Removes White_Space at the ends that the flags name.
    Strip { left: bool, right: bool },
}

// When Metaspace puts a mark in front.
#[derive(Clone, Copy)]
pub enum PrependScheme {
    Never,
    Always,
    // In the first section alone.
    First,
}

#[derive(Clone, Copy)]
pub struct Metaspace {
    pub prepend: PrependScheme,
    pub split: bool,
}

// What C gets of every call: the number (rule 3.1), the place that a 9 names, and the three counts.
#[repr(C)]
#[derive(Clone, Copy)]
pub struct Answer {
    pub number: u32,
    pub place: usize,
    pub written: usize,
    pub drops: usize,
    pub skips: usize,
}

// The longest text that a call takes, in bytes or ids.
pub const TEXT_LIMIT: usize = 1048576;

// Why a call refuses (rule 3.1).
#[derive(Clone, Copy, PartialEq, Eq, Debug)]
pub enum Refusal {
    WrongSize,
    OffsetsAstray,
    BadPiece,
    BadLookup,
    BadFallback,
    BadRow,
    BadToken,
    BadStep,
    // The text is valid UTF-8 up to `place`.
    BadText { place: usize },
    NoRawPath,
    ScratchTooShort,
    ResultTooShort,
}

impl Refusal {
    // The answer number.
    pub fn number(self) -> u32
        ensures { result ≡ number_of self }
    {
        match self {
            Refusal::WrongSize => 1,
            Refusal::OffsetsAstray => 2,
            Refusal::BadPiece => 3,
            Refusal::BadLookup => 4,
            Refusal::BadFallback => 5,
            Refusal::BadRow => 6,
            Refusal::BadToken => 7,
            Refusal::BadStep => 8,
            Refusal::BadText { .. } => 9,
            Refusal::NoRawPath => 10,
            Refusal::ScratchTooShort => 11,
            Refusal::ResultTooShort => 12,
        }
    }
}

// What a call that is accepted counts.
#[derive(Clone, Copy, PartialEq, Eq, Debug)]
pub struct Counts {
    pub written: usize,
    pub drops: usize,
    pub skips: usize,
}

impl From<Refusal> for Answer {
    fn from(refusal: Refusal) -> Self
        ensures { result ≡ refused (number_of refusal) (place_named refusal) }
    {
        match refusal {
            Refusal::BadText { place } => Answer::refused(refusal.number(), place),
            _ => Answer::refused(refusal.number(), 0),
        }
    }
}

impl From<Result<Counts, Refusal>> for Answer {
    fn from(outcome: Result<Counts, Refusal>) -> Self
        ensures { result ≡ answer_of outcome }
    {
        match outcome {
            Ok(counts) => Answer::done(counts.written, counts.drops, counts.skips),
            Err(refusal) => Answer::from(refusal),
        }
    }
}

impl From<Result<(), Refusal>> for Answer {
    fn from(outcome: Result<(), Refusal>) -> Self
        ensures { result ≡ checked outcome }
    {
        match outcome {
            Ok(_) => Answer::done(0, 0, 0),
            Err(refusal) => Answer::from(refusal),
        }
    }
}

impl Answer {
    pub fn done(written: usize, drops: usize, skips: usize) -> Self
        ensures { result ≡ done written drops skips }
    {
        Answer {
            number: 0,
            place: 0,
            written: written,
            drops: drops,
            skips: skips,
        }
    }

    pub fn refused(number: u32, place: usize) -> Self
        ensures { result ≡ refused number place }
    {
        Answer {
            number: number,
            place: place,
            written: 0,
            drops: 0,
            skips: 0,
        }
    }
}

// The model check: the lowest of the answers 1 to 8 that applies to the tables.
pub fn check(model: &Model<'_>) -> Result<(), Refusal>
    ensures { checked result ≡ check_outcome (columns model.now) }
{
    if wrong_sizes(model) {
        return Err(Refusal::WrongSize);
    }
    if offsets_astray(model) {
        return Err(Refusal::OffsetsAstray);
    }
    if bad_piece(&model.pieces) {
        return Err(Refusal::BadPiece);
    }
    if bad_lookup(&model.pieces, model.lookup) {
        return Err(Refusal::BadLookup);
    }
    if bad_fallback(&model.pieces, model.fallback) {
        return Err(Refusal::BadFallback);
    }
    if bad_row(&model.pieces, &model.rows) {
        return Err(Refusal::BadRow);
    }
    if bad_token(&model.first.contents) || bad_token(&model.second.contents) {
        return Err(Refusal::BadToken);
    }
    if steps_fail(StepTest::Text, &model.steps) {
        return Err(Refusal::BadStep);
    }
    Ok(())
}
