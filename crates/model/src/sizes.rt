// Answer 1: sizes, and columns that differ in length.
ghost use Rattle.std.specs.Prelude.{◌≡◌, take};
ghost use Rattle.model.specs.Model.{columns};
ghost use Rattle.model.specs.Check.{string_too_long, wrong_piece_sizes, wrong_row_sizes, wrong_token_sizes, wrong_step_sizes, wrong_sizes};

use crate::steps::{StepTest, steps_fail};
use crate::{AddedTokens, MergeRows, Model, StepList, Strings};

// The most that a model may have (rule 2.3).
const PIECE_LIMIT: usize = 524288;

const PIECE_BYTE_LIMIT: usize = 8388608;

const ROW_LIMIT: usize = 1048576;

const TOKEN_LIMIT: usize = 8192;

const STEP_LIMIT: usize = 16;

// The bytes of one piece, of one content, of one string of a step.
pub const STRING_LIMIT: usize = 255;

// One fallback id for each value of a byte.
const FALLBACK_COUNT: usize = 256;

// Some string that the offsets cut is too long.
fn string_too_long(offsets: &[u32]) -> bool
    ensures { result ≡ string_too_long offsets.now }
{
    offsets.iter().zip(offsets.iter().skip(1)).any(|(offset, next)| *offset as usize + STRING_LIMIT
        < *next as usize)
}

fn wrong_piece_sizes(pieces: &Strings<'_>) -> bool
    ensures { result ≡ wrong_piece_sizes pieces.now.bytes.now pieces.now.offsets.now }
{
    pieces.offsets.is_empty()
        || PIECE_LIMIT < pieces.len()
        || PIECE_BYTE_LIMIT < pieces.bytes.len()
        || string_too_long(pieces.offsets)
}

fn wrong_row_sizes(rows: &MergeRows<'_>) -> bool
    ensures { result ≡ wrong_row_sizes rows.now.left.now rows.now.right.now rows.now.result.now rows.now.rank.now }
{
    let count = rows.left.len();
    ROW_LIMIT < count
        || count != rows.right.len()
        || count != rows.result.len()
        || count != rows.rank.len()
}

fn wrong_token_sizes(tokens: &AddedTokens<'_>) -> bool
    ensures { result ≡ wrong_token_sizes tokens.now.contents.offsets.now tokens.now.ids.now tokens.now.lstrip.now tokens.now.rstrip.now }
{
    let count = tokens.contents.len();
    tokens.contents.offsets.is_empty()
        || TOKEN_LIMIT < count
        || string_too_long(tokens.contents.offsets)
        || count != tokens.ids.len()
        || count != tokens.lstrip.len()
        || count != tokens.rstrip.len()
}

fn wrong_step_sizes(steps: &StepList<'_>) -> bool
    ensures { result ≡ wrong_step_sizes (take steps.now.count steps.now.list) steps.now.count }
{
    STEP_LIMIT < steps.count || steps_fail(StepTest::Short, steps)
}

// Answer 1 applies to the model.
pub fn wrong_sizes(model: &Model<'_>) -> bool
    ensures { result ≡ wrong_sizes (columns model.now) }
{
    wrong_piece_sizes(&model.pieces)
        || model.fallback.len() != FALLBACK_COUNT
        || wrong_row_sizes(&model.rows)
        || wrong_token_sizes(&model.first)
        || wrong_token_sizes(&model.second)
        || wrong_step_sizes(&model.steps)
}
