// The pair tables: for nearly every pair of ids the word of its slot in one of them names its row.
ghost use Rattle.std.specs.Prelude.{◌≡◌, ◌++◌, ◌+◌, ◌≤◌, ◌<◌, length, take};
ghost use Rattle.index.specs.Index.{slot_count, second_slot_count, pair_words, second_words, pair_tables};
ghost use Rattle.prepare.specs.inner.Pairs.{word_with};

use index::{named_row, pair_slot, second_slot};
use model::MergeRows;
use model::clear::clear;
use model::tables::number_at;

// How many slots the first table has.
const SLOTS: usize = crate::SECOND_PAIRS_AT - crate::PAIRS_AT;
// What a word has more where several rows share its slot.
const SHARED: u32 = index::SHARED as u32;

// The word of a slot to which the row at `i` is added, behind those that it had.
fn word_with(rank: &[u32], word: u32, i: usize) -> u32
    requires { i < 1048576 }
    ensures { result ≡ word_with rank.now word i }
{
    let place = i as u32 + 1;
    let named = word % SHARED;
    if named == 0 {
        return place;
    }
    if number_at(rank, i) < number_at(rank, named as usize - 1) {
        return place + SHARED;
    }
    named + SHARED
}

// The words of the first table: a walk over the rows notes each in its slot.
fn fill_first(rows: &MergeRows<'_>, words: &mut [u32])
    requires left_len_bound { length rows.now.left.now ≤ 1048576 }
    requires words_len { length words.old ≡ slot_count }
    ensures { words.new ≡ pair_words rows.now.left.now rows.now.right.now rows.now.rank.now }
{
    clear(words, 0, 0);
    for i in 0..rows.left.len() {
        let slot = pair_slot(rows.left[i], number_at(rows.right, i));
        words[slot] = word_with(rows.rank, words[slot], i);
    }
}

// The words of the second table, behind those of the first: the same for the rows that the first does not name.
fn fill_second(rows: &MergeRows<'_>, words: &mut [u32])
    requires left_len_bound { length rows.now.left.now ≤ 1048576 }
    requires words_len { length words.old ≡ slot_count + second_slot_count }
    ensures { words.new ≡ take slot_count words.old ++ second_words rows.now.left.now rows.now.right.now rows.now.rank.now (take slot_count words.old) }
{
    clear(words, SLOTS, 0);
    for i in 0..rows.left.len() {
        let l = rows.left[i];
        let r = number_at(rows.right, i);
        if named_row(words[pair_slot(l, r)]) == i {
            continue;
        }
        let slot = SLOTS + second_slot(l, r);
        words[slot] = word_with(rows.rank, words[slot], i);
    }
}

// Both tables.
pub fn fill_pairs(rows: &MergeRows<'_>, words: &mut [u32])
    requires left_len_bound { length rows.now.left.now ≤ 1048576 }
    requires words_len { length words.old ≡ slot_count + second_slot_count }
    ensures { words.new ≡ pair_tables rows.now.left.now rows.now.right.now rows.now.rank.now }
{
    fill_first(rows, &mut words[0..SLOTS]);
    fill_second(rows, words);
}
