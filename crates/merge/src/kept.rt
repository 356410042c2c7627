// The ranked merge of units that are not too long: the row of each pair is kept, and after a merge only those beside it are looked up.
ghost use Rattle.std.specs.Prelude.{◌≡◌, map, ◌+◌, ◌-◌, ◌≤◌, ◌<◌, length, get_or, None};
ghost use Rattle.merge.specs.inner.Turns.{row_by, Merged, merged_front};
ghost use Rattle.merge.specs.inner.Keys.{row_span, key_row, ranked_by, next_rows, rows_turn, Kept};

use crate::Joining;
use crate::ranked::{NO_RANK, close_gap, merge_at};
use index::RowIndex;
use model::tables::number_at;

// A row and its rank are kept as one number, for so many rows.
pub(crate) const ROW_SPAN: usize = 2147483648;

// More than any such number: of no row. The rows of a unit's pairs are kept as numbers, so that the lowest is found by comparing them alone.
const NO_KEY: usize = 9223372036854775808;

// How many ids units have for which there is room.
pub(crate) const SHORT: usize = 32;

pub(crate) const MIDDLE: usize = 256;

pub(crate) const LONG: usize = 4608;

// The row of a pair and its rank.
fn pair_key(rows: &RowIndex<'_>, l: u32, r: u32) -> usize
    requires { length rows.now.rows.left.now ≤ row_span }
    ensures { key_row result ≡ ranked_by rows.now l r }
{
    match rows.find(l, r) {
        Some(row) => number_at(rows.rows.rank, row) as usize * ROW_SPAN + row,
        None => NO_KEY,
    }
}

// That of the id at `place` with the next.
fn key_at(rows: &RowIndex<'_>, ids: &[u32], place: usize) -> usize
    requires left_len_bound { length rows.now.rows.left.now ≤ row_span }
    requires place_in_bounds { place < length ids.now }
    ensures { key_row result ≡ get_or (next_rows (ranked_by rows.now) ids.now) place None }
{
    let next = place + 1;
    if ids.len() <= next {
        return NO_KEY;
    }
    pair_key(rows, ids[place], ids[next])
}

// Looks up those from `from` up to `to`.
fn fill_keys(rows: &RowIndex<'_>, ids: &[u32], keys: &mut [usize], from: usize, to: usize)
    requires left_len_bound { length rows.now.rows.left.now ≤ row_span }
    requires keys_len { length keys.old ≡ length ids.now }
    requires from_le_to { (from ≤ to) × (to ≤ length ids.now) }
    requires kept { Kept (next_rows (ranked_by rows.now) ids.now) (map key_row keys.old) from to }
    ensures { map key_row keys.new ≡ next_rows (ranked_by rows.now) ids.now }
{
    for i in from..to {
        keys[i] = key_at(rows, ids, i);
    }
}

// The next merge: the lowest rank, the leftmost of equals.
fn next_kept(res: &[u32], keys: &[usize]) -> Option<Joining>
    ensures { result ≡ rows_turn res.now 0 (map key_row keys.now) }
{
    let mut lowest = NO_RANK;
    let mut best_place = 0;
    let mut best_key = 0;
    for i in 0..keys.len() {
        let this = keys[i] / ROW_SPAN;
        if this < lowest {
            lowest = this;
            best_place = i;
            best_key = keys[i];
        }
    }
    if NO_RANK <= lowest {
        return None;
    }
    Some(Joining {
        place: best_place,
        result: number_at(res, best_key % ROW_SPAN),
        rank: lowest as u32,
    })
}

// Merges the first `count` ids in place until no pair has a row, and answers how many are left.
fn merge_kept(rows: &RowIndex<'_>, ids: &mut [u32], count: usize, keys: &mut [usize]) -> usize
    requires left_len_bound { length rows.now.rows.left.now ≤ row_span }
    requires count_in_bounds { (count ≤ length ids.old) × (count ≤ length keys.old) }
    ensures { ◌≡◌ {A = Merged} (record { count = result; ids = ids.new }) (merged_front (row_by rows.now) count ids.old) }
{
    let mut n = count;
    let mut from = 0;
    let mut to = count;
    loop {
        fill_keys(rows, &ids[..n], &mut keys[..n], from, to);
        match next_kept(rows.rows.result, &keys[..n]) {
            None => {
                return n;
            }
            Some(joining) => {
                merge_at(&mut ids[..n], joining.place, joining.result);
                close_gap(&mut keys[..n], joining.place, 0);
                n -= 1;
                from = joining.place.saturating_sub(1);
                to = joining.place + 1;
            }
        }
    }
}

// The same with room for the rows of so many ids.
pub(crate) fn merge_within<const ROOM: usize>(
    rows: &RowIndex<'_>,
    ids: &mut [u32],
    count: usize,
) -> usize
    requires room_bounded { ROOM ≤ 4608 }
    requires left_len_bound { length rows.now.rows.left.now ≤ row_span }
    requires count_in_bounds { (count ≤ length ids.old) × (count ≤ ROOM) }
    ensures { ◌≡◌ {A = Merged} (record { count = result; ids = ids.new }) (merged_front (row_by rows.now) count ids.old) }
{
    let mut keys = [NO_KEY; ROOM];
    merge_kept(rows, ids, count, &mut keys)
}
