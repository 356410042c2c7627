// The parts of the index, each into its place.
ghost use Rattle.std.specs.Prelude.{◌≡◌, true, ◌++◌, ◌+◌, ◌-◌, ◌^◌, ◌≤◌, ◌<◌, length, take, drop};
ghost use Rattle.model.specs.Check.{lookup_ascends};
ghost use Rattle.model.specs.Model.{strings_of};
ghost use Rattle.index.specs.Index.{first_bytes, key_id, byte_ids, piece_index, bucket_shift, buckets};
ghost use Rattle.prepare.specs.Layout.{index_length, crossings_at, first_bytes_at, byte_ids_at, buckets_at, first_tokens_at, piece_words, token_words, index_row};

use crate::pairs::fill_pairs;
use crate::walk::{below_from, first_below_from};
use model::fallback::NO_ID;
use model::mark::MARK;
use model::search::find_piece;
use model::tables::number_at;
use model::{Model, Strings};
use sections::first::{first_bytes, longest_content};

// What was found of crossings and steps, as words of the index.
#[derive(Clone, Copy)]
pub struct Found<'a> {
    pub kind: u32,
    pub raw_path: u32,
    pub count: u32,
    pub noted: &'a [u32],
}

// Where the entries of each first byte begin.
fn fill_first_bytes(pieces: &Strings<'_>, lookup: &[u32], words: &mut [u32])
    requires lookup_len_bound { length lookup.now < 4294967296 }
    requires first_bytes_at_in_bounds { first_bytes_at + 257 ≤ length words.old }
    ensures { words.new ≡ take first_bytes_at words.old ++ first_bytes (strings_of pieces.now) lookup.now ++ drop (first_bytes_at + 257) words.old }
{
    let mut at = 0;
    for b in 0..257 {
        at = first_below_from(pieces, lookup, at, b);
        words[crate::FIRST_BYTES_AT + b] = at as u32;
    }
}

// The id of the piece `key` as a number.
fn key_id(pieces: &Strings<'_>, lookup: &[u32], key: &[u8]) -> u32
    requires { lookup_ascends (strings_of pieces.now) lookup.now ≡ true }
    ensures { result ≡ key_id (strings_of pieces.now) lookup.now key.now }
{
    match find_piece(pieces, lookup, key) {
        Some(place) => number_at(lookup, place),
        None => NO_ID,
    }
}

// The ids of the pieces that are one byte alone.
fn fill_byte_ids(pieces: &Strings<'_>, lookup: &[u32], words: &mut [u32])
    requires ascending { lookup_ascends (strings_of pieces.now) lookup.now ≡ true }
    requires byte_ids_at_in_bounds { byte_ids_at + 256 ≤ length words.old }
    ensures { words.new ≡ take byte_ids_at words.old ++ byte_ids (strings_of pieces.now) lookup.now ++ drop (byte_ids_at + 256) words.old }
{
    for b in 0..256 {
        words[crate::BYTE_IDS_AT + b] = key_id(pieces, lookup, &[b as u8]);
    }
}

// What is derived of the lookup list.
fn fill_piece_index(pieces: &Strings<'_>, lookup: &[u32], words: &mut [u32])
    requires ascending { lookup_ascends (strings_of pieces.now) lookup.now ≡ true }
    requires lookup_len_bound { length lookup.now < 4294967296 }
    requires buckets_at_in_bounds { buckets_at ≤ length words.old }
    ensures { words.new ≡ take first_bytes_at words.old ++ piece_index (strings_of pieces.now) lookup.now ++ drop buckets_at words.old }
{
    fill_first_bytes(pieces, lookup, words);
    fill_byte_ids(pieces, lookup, words);
}

// Where the rows of each bucket of left ids begin.
fn fill_buckets(left: &[u32], shift: u32, words: &mut [u32])
    requires left_len_bound { length left.now < 4294967296 }
    requires buckets_at_in_bounds { buckets_at + 4097 ≤ length words.old }
    requires shift_bound { shift ≤ 7 }
    ensures { words.new ≡ take buckets_at words.old ++ buckets left.now shift ++ drop (buckets_at + 4097) words.old }
{
    let size = power(shift);
    let mut at = 0;
    for b in 0..4097 {
        at = below_from(left, at, b * size);
        words[crate::BUCKETS_AT + b] = at as u32;
    }
}

// How many left ids a bucket of that shift holds.
fn power(shift: u32) -> usize
    requires { shift ≤ 7 }
    ensures { (result ≡ 2 ^ shift) × (result ≤ 128) }
{
    1usize << shift
}

// The shift of the buckets for so many pieces.
fn bucket_shift(count: usize) -> u32
    ensures { (result ≡ bucket_shift count) × (result ≤ 7) }
{
    let mut room = 4096;
    for shift in 0..7 {
        if count <= room {
            return shift;
        }
        room *= 2;
    }
    7
}

// The words of the noted crossings.
fn copy_crossings(noted: &[u32], words: &mut [u32])
    requires { crossings_at + length noted.now ≤ length words.old }
    ensures { words.new ≡ take crossings_at words.old ++ noted.now ++ drop (crossings_at + length noted.now) words.old }
{
    words[crate::CROSSINGS_AT..crate::CROSSINGS_AT + noted.len()].copy_from_slice(noted);
}

// What is derived of pieces and rows, into the front of `words`. What is derived of steps and crossings is given.
fn fill_pieces(found: &Found<'_>, model: &Model<'_>, words: &mut [u32])
    requires ascending { lookup_ascends (strings_of model.now.pieces) model.now.lookup.now ≡ true }
    requires lookup_len_bound { length model.now.lookup.now < 4294967296 }
    requires left_len_bound { length model.now.rows.left.now ≤ 1048576 }
    requires noted_len { length found.now.noted.now ≡ 64 }
    requires first_tokens_at_in_bounds { first_tokens_at ≤ length words.old }
    ensures { words.new ≡ piece_words found.now.kind found.now.raw_path found.now.count found.now.noted.now (strings_of model.now.pieces) model.now.lookup.now model.now.rows.left.now model.now.rows.right.now model.now.rows.rank.now ++ drop first_tokens_at words.old }
{
    let pieces = &model.pieces;
    let lookup = model.lookup;
    let shift = bucket_shift(pieces.len());
    let mark = key_id(pieces, lookup, &MARK);
    words[crate::KIND_AT] = found.kind;
    words[crate::RAW_PATH_AT] = found.raw_path;
    words[crate::CROSSING_COUNT_AT] = found.count;
    copy_crossings(found.noted, words);
    words[crate::MARK_ID_AT] = mark;
    words[crate::SHIFT_AT] = shift;
    fill_piece_index(pieces, lookup, words);
    fill_buckets(model.rows.left, shift, words);
    fill_pairs(
        &model.rows,
        &mut words[crate::PAIRS_AT..crate::FIRST_TOKENS_AT],
    );
}

// What is derived of the two token lists.
fn fill_tokens(first: &Strings<'_>, second: &Strings<'_>, words: &mut [u32])
    requires { index_length ≤ length words.old }
    ensures { words.new ≡ take first_tokens_at words.old ++ token_words (strings_of first.now) (strings_of second.now) ++ drop index_length words.old }
{
    let longest = longest_content(first);
    first_bytes(
        first,
        &mut words[crate::FIRST_TOKENS_AT..crate::SECOND_TOKENS_AT],
    );
    first_bytes(
        second,
        &mut words[crate::SECOND_TOKENS_AT..crate::LONGEST_AT],
    );
    words[crate::LONGEST_AT] = longest;
}

// The whole index into the front of `words`.
pub fn fill_index(found: &Found<'_>, model: &Model<'_>, words: &mut [u32])
    requires ascending { lookup_ascends (strings_of model.now.pieces) model.now.lookup.now ≡ true }
    requires lookup_len_bound { length model.now.lookup.now < 4294967296 }
    requires left_len_bound { length model.now.rows.left.now ≤ 1048576 }
    requires noted_len { length found.now.noted.now ≡ 64 }
    requires index_length_in_bounds { index_length ≤ length words.old }
    ensures { words.new ≡ index_row found.now.kind found.now.raw_path found.now.count found.now.noted.now (strings_of model.now.pieces) model.now.lookup.now model.now.rows.left.now model.now.rows.right.now model.now.rows.rank.now (strings_of model.now.first.contents) (strings_of model.now.second.contents) ++ drop index_length words.old }
{
    fill_pieces(found, model, words);
    fill_tokens(&model.first.contents, &model.second.contents, words);
}
