// Searches in the two sorted tables that begin from what was derived of them once. What that is stands in specs/Index.antt, where such a
// search ends in specs/inner/Find.antt.

#![tactic(auto)]

ghost use Rattle.std.specs.Prelude.{◌≡◌, ◌/◌, ◌^◌, ◌<◌, get_or};
ghost use Rattle.utf8.specs.Lists.{same};
ghost use Rattle.model.specs.Mark.{mark};
ghost use Rattle.model.specs.Model.{strings_of};
ghost use Rattle.index.specs.Index.{slot_count, pair_slot, second_slot_count, second_slot, named_row};
ghost use Rattle.index.specs.inner.Find.{id_of, key_start, key_end, byte_word, id_from, row_between, row_has, told, row_beyond, row_from};

use model::compare::equal;
use model::fallback::NO_ID;
use model::mark::MARK;
use model::search::{find_piece_between, find_row_between};
use model::tables::number_at;
use model::{MergeRows, Strings};

// The pieces, the lookup list, and what is derived of them.
#[derive(Clone, Copy)]
pub struct PieceIndex<'a> {
    pub pieces: Strings<'a>,
    pub lookup: &'a [u32],
    // Where the entries of each first byte begin in the lookup list, and behind that which id each byte alone has.
    pub words: &'a [u32],
    pub mark_id: u32,
}

// The merge rows, and what is derived of them.
#[derive(Clone, Copy)]
pub struct RowIndex<'a> {
    pub rows: MergeRows<'a>,
    // Where the rows of each bucket of left ids begin, and behind that which row a pair's slots name.
    pub words: &'a [u32],
    // A bucket holds two to this power of left ids.
    pub shift: u32,
}

// What a word of a pair table tells of a pair.
#[derive(Clone, Copy)]
pub enum Told {
    // The place of the pair's row.
    Row(usize),
    // The pair has none.
    NoRow,
    // Another row is named, and rows share the slot.
    Elsewhere,
}

// How many words say where first bytes begin, in the index of the pieces.
const FIRST_BYTE_WORDS: usize = 257;
// How many words the buckets take in the index of the rows.
const BUCKET_WORDS: usize = 4097;
// Where the second pair table begins, behind the buckets and the first.
const SECOND_AT: usize = 135169;
// What a word of a pair table has more where several rows share its slot.
pub const SHARED: usize = 2147483648;

// The id that a number of the index gives.
pub fn id_of(id: u32) -> Option<u32>
    ensures { result ≡ id_of id }
{
    if id == NO_ID { None } else { Some(id) }
}

// Whether `key` is the mark.
pub fn is_mark(key: &[u8]) -> bool
    ensures { result ≡ same key.now mark }
{
    equal(key, &MARK)
}

// The first byte of `key`, 0 where it has none.
pub fn first_byte(key: &[u8]) -> usize
    ensures { (result ≡ get_or key.now 0 0) × (result < 256) }
{
    if key.is_empty() {
        0
    } else {
        usize::from(key[0])
    }
}

impl PieceIndex<'_> {
    // Where the entries begin that may spell `key`.
    fn start(&self, key: &[u8]) -> usize
        ensures { result ≡ key_start self.now.words.now key.now }
    {
        number_at(self.words, first_byte(key)) as usize
    }

    // Where the entries end that may spell `key`.
    fn end(&self, key: &[u8]) -> usize
        ensures { result ≡ key_end self.now.words.now key.now }
    {
        number_at(self.words, first_byte(key) + 1) as usize
    }

    // The id of the piece that is the byte `b` alone, as a number.
    pub fn byte_id(&self, b: u8) -> u32
        ensures { result ≡ byte_word self.now.words.now b }
    {
        number_at(self.words, FIRST_BYTE_WORDS + usize::from(b))
    }

    // The id of the piece `key`.
    pub fn find(&self, key: &[u8]) -> Option<u32>
        ensures { result ≡ id_from (strings_of self.now.pieces) self.now.lookup.now self.now.words.now self.now.mark_id key.now }
    {
        if key.len() == 1 {
            return id_of(self.byte_id(key[0]));
        }
        if is_mark(key) {
            return id_of(self.mark_id);
        }
        let start = self.start(key);
        let end = self.end(key);
        let place = find_piece_between(&self.pieces, self.lookup, key, start, end)?;
        Some(number_at(self.lookup, place))
    }
}

// The slot of the first pair table that a pair belongs to.
pub fn pair_slot(l: u32, r: u32) -> usize
    ensures { (result ≡ pair_slot l r) × (result < slot_count) }
{
    (l as usize * 1327217885 + r as usize * 1123411259) / 32768 % 131072
}

// The slot of the second pair table that a pair belongs to.
pub fn second_slot(l: u32, r: u32) -> usize
    ensures { (result ≡ second_slot l r) × (result < second_slot_count) }
{
    (l as usize * 1123411259 + r as usize * 1640531527) / 131072 % 32768
}

// The row that a word of a pair table names.
pub fn named_row(word: u32) -> usize
    ensures { result ≡ named_row word }
{
    (word as usize % SHARED).saturating_sub(1)
}

impl RowIndex<'_> {
    // The bucket of a left id.
    fn bucket_of(&self, l: u32) -> usize
        ensures { (result ≡ l / 2 ^ self.now.shift) × (result < 4294967296) }
    {
        if 32 <= self.shift {
            return 0;
        }
        (l >> self.shift) as usize
    }

    // Whether there is a row at a place, and it is that of the pair `l`, `r`.
    fn has(&self, row: usize, l: u32, r: u32) -> bool
        ensures { result ≡ row_has self.now.rows.left.now self.now.rows.right.now row l r }
    {
        let left = self.rows.left;
        row < left.len() && left[row] == l && number_at(self.rows.right, row) == r
    }

    // What the word `word` of a pair table tells of the pair `l`, `r`.
    fn tell(&self, word: u32, l: u32, r: u32) -> Told
        ensures { result ≡ told self.now.rows.left.now self.now.rows.right.now word l r }
    {
        if word == 0 {
            return Told::NoRow;
        }
        let row = named_row(word);
        if self.has(row, l, r) {
            return Told::Row(row);
        }
        if (word as usize) < SHARED {
            return Told::NoRow;
        }
        Told::Elsewhere
    }

    // The place of the row of the pair `l`, `r`, searched among the rows of its left id's bucket.
    fn find_in_bucket(&self, l: u32, r: u32) -> Option<usize>
        ensures { result ≡ row_between self.now.rows.left.now self.now.rows.right.now self.now.words.now self.now.shift l r }
    {
        let bucket = self.bucket_of(l);
        let next = bucket + 1;
        if BUCKET_WORDS <= next {
            return None;
        }
        let start = number_at(self.words, bucket) as usize;
        let end = number_at(self.words, next) as usize;
        find_row_between(&self.rows, l, r, start, end)
    }

    // The place of the row of the pair `l`, `r`, of which the first pair table tells nothing. `find` differs from it in the word and in what is
    // asked next: a closure for that would be longer than what it spares.
    fn find_beyond(&self, l: u32, r: u32) -> Option<usize>
        ensures { result ≡ row_beyond self.now.rows.left.now self.now.rows.right.now self.now.words.now self.now.shift l r }
    {
        let word = number_at(self.words, SECOND_AT + second_slot(l, r));
        match self.tell(word, l, r) {
            Told::Row(row) => Some(row),
            Told::NoRow => None,
            Told::Elsewhere => self.find_in_bucket(l, r),
        }
    }

    // The place of the row of the pair `l`, `r`.
    pub fn find(&self, l: u32, r: u32) -> Option<usize>
        ensures { result ≡ row_from self.now.rows.left.now self.now.rows.right.now self.now.words.now self.now.shift l r }
    {
        let word = number_at(self.words, BUCKET_WORDS + pair_slot(l, r));
        match self.tell(word, l, r) {
            Told::Row(row) => Some(row),
            Told::NoRow => None,
            Told::Elsewhere => self.find_beyond(l, r),
        }
    }
}
