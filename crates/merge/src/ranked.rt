// The ranked merge, in place.
ghost use Rattle.std.specs.Prelude.{◌≡◌, ◌+◌, ◌≤◌, length};
ghost use Rattle.merge.specs.Merge.{next_merge};
ghost use Rattle.merge.specs.inner.Turns.{row_by, turn_of, joined_at, closed_at, Merged, merged_front};

use crate::Joining;
use crate::kept::{LONG, MIDDLE, ROW_SPAN, SHORT, merge_within};
use index::RowIndex;
use model::tables::number_at;

// More than any rank: of no row, so that a pair without one loses every comparison.
pub(crate) const NO_RANK: usize = 4294967296;

// The next merge among adjacent ids: the lowest rank, the leftmost of equals.
fn next_merge(rows: &RowIndex<'_>, ids: &[u32]) -> Option<Joining>
    ensures { result ≡ turn_of (next_merge (row_by rows.now) ids.now) }
{
    let mut best = NO_RANK;
    let mut best_place = 0;
    let mut best_row = 0;
    for place in 0..ids.len().saturating_sub(1) {
        if let Some(row) = rows.find(ids[place], ids[place + 1]) {
            let this = number_at(rows.rows.rank, row) as usize;
            if this < best {
                best = this;
                best_place = place;
                best_row = row;
            }
        }
    }
    if NO_RANK <= best {
        return None;
    }
    Some(Joining {
        place: best_place,
        result: number_at(rows.rows.result, best_row),
        rank: best as u32,
    })
}

// Takes out what stands behind `place`: what follows moves one cell to the left, and the last becomes `blank`.
pub(crate) fn close_gap<T: Copy>(cells: &mut [T], place: usize, blank: T)
    requires { place + 2 ≤ length cells.old }
    ensures { cells.new ≡ closed_at place blank cells.old }
{
    let n = cells.len();
    cells.copy_within(place + 2..n, place + 1);
    cells[n - 1] = blank;
}

// Puts `res` in the place of a pair.
pub(crate) fn merge_at(ids: &mut [u32], place: usize, res: u32)
    requires { place + 2 ≤ length ids.old }
    ensures { ids.new ≡ joined_at place res ids.old }
{
    ids[place] = res;
    close_gap(ids, place, 0);
}

// Merges the first `count` ids, with all pairs looked up for each merge.
fn merge_scanned(rows: &RowIndex<'_>, ids: &mut [u32], count: usize) -> usize
    ensures { ◌≡◌ {A = Merged} (record { count = result; ids = ids.new }) (merged_front (row_by rows.now) count ids.old) }
{
    let mut n = count.min(ids.len());
    loop {
        match next_merge(rows, &ids[..n]) {
            None => {
                return n;
            }
            Some(joining) => {
                merge_at(&mut ids[..n], joining.place, joining.result);
                n -= 1;
            }
        }
    }
}

// The same by the length: rows are kept where there is room for them.
fn merge_longer(rows: &RowIndex<'_>, ids: &mut [u32], count: usize) -> usize
    ensures { ◌≡◌ {A = Merged} (record { count = result; ids = ids.new }) (merged_front (row_by rows.now) count ids.old) }
{
    if ROW_SPAN < rows.rows.left.len() {
        return merge_scanned(rows, ids, count);
    }
    let n = count.min(ids.len());
    if n <= MIDDLE {
        return merge_within::<MIDDLE>(rows, ids, n);
    }
    if n <= LONG {
        return merge_within::<LONG>(rows, ids, n);
    }
    merge_scanned(rows, ids, count)
}

// Merges the first `count` ids in place until no pair has a row, and answers how many are left. Short units, which most are, have a way of
// their own, without the stack that longer ones take.
// `count` stands beside the buffer, since the contract holds of one past its end too.
pub fn bpe_merge_symbols_ranked(rows: &RowIndex<'_>, ids: &mut [u32], count: usize) -> usize
    ensures { ◌≡◌ {A = Merged} (record { count = result; ids = ids.new }) (merged_front (row_by rows.now) count ids.old) }
{
    if ROW_SPAN < rows.rows.left.len() {
        return merge_longer(rows, ids, count);
    }
    let n = count.min(ids.len());
    if n <= SHORT {
        return merge_within::<SHORT>(rows, ids, n);
    }
    merge_longer(rows, ids, count)
}
