// Answer 6: the merge rows.
ghost use Rattle.std.specs.Prelude.{◌≡◌, ◌++◌};
ghost use Rattle.utf8.specs.Lists.{same};
ghost use Rattle.model.specs.Model.{strings_of, piece};
ghost use Rattle.model.specs.Check.{all_below, rows_ascend, rows_join, bad_row};

use crate::compare::{equal, pair_order};
use crate::tables::part;
use crate::{MergeRows, Strings};

// Whether every id is below `count`.
fn all_below(ids: &[u32], count: usize) -> bool
    ensures { result ≡ all_below count ids.now }
{
    ids.iter().all(|id| (*id as usize) < count)
}

// Whether each pair stands before the next.
fn rows_ascend(left: &[u32], right: &[u32]) -> bool
    ensures { result ≡ rows_ascend left.now right.now }
{
    let count = left.len().min(right.len());
    for i in 0..count.saturating_sub(1) {
        if !pair_order(left[i], right[i], left[i + 1], right[i + 1]).is_lt() {
            return false;
        }
    }
    true
}

// Whether `whole` is `left` and then `right`.
fn is_join(whole: &[u8], left: &[u8], right: &[u8]) -> bool
    ensures { result ≡ same whole.now (left.now ++ right.now) }
{
    let front = part(whole, 0, left.len());
    let rest = part(whole, left.len(), whole.len());
    equal(front, left) && equal(rest, right)
}

// Whether the piece of `result` is that of `left` joined to that of `right`.
fn row_joins(pieces: &Strings<'_>, left: u32, right: u32, res: u32) -> bool
    ensures { let all = strings_of pieces.now in result ≡ same (piece all res) (piece all left ++ piece all right) }
{
    is_join(
        pieces.get(res as usize),
        pieces.get(left as usize),
        pieces.get(right as usize),
    )
}

// Whether each result's piece is left joined to right.
fn rows_join(pieces: &Strings<'_>, left: &[u32], right: &[u32], res: &[u32]) -> bool
    ensures { result ≡ rows_join (strings_of pieces.now) left.now right.now res.now }
{
    left.iter().zip(right).zip(res).all(|((left, right), res)| row_joins(
        pieces, *left, *right, *res,
    ))
}

// Whether two merge rows stand in the wrong order, an id of one has no piece, or a result is not its sides joined.
pub fn bad_row(pieces: &Strings<'_>, rows: &MergeRows<'_>) -> bool
    ensures { result ≡ bad_row (strings_of pieces.now) rows.now.left.now rows.now.right.now rows.now.result.now }
{
    let count = pieces.len();
    !rows_ascend(rows.left, rows.right)
        || !all_below(rows.left, count)
        || !all_below(rows.right, count)
        || !all_below(rows.result, count)
        || !rows_join(pieces, rows.left, rows.right, rows.result)
}
