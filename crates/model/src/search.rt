// Searches by halves in the sorted tables.
ghost use Rattle.std.specs.Prelude.{◌≡◌, ◌<◌, ℕ, min, length};
ghost use Rattle.std.specs.declared.cmp.Ordering.{Ordering};
ghost use Rattle.model.specs.Model.{strings_of};
ghost use Rattle.model.specs.inner.Search.{searched, piece_order, found_piece, row_order};

use crate::compare::{byte_order, pair_order};
use crate::tables::number_at;
use crate::{MergeRows, Strings};
use std::cmp::Ordering;

// The place from `from` on and before `to` at which a search by halves ends; `order` tells how the entry at a place stands to what is
// sought.
fn search_by<F: Fn(usize) -> Ordering>(order: F, from: usize, to: usize) -> Option<usize>
    requires { (i : ℕ) → i < to → F.pre order i }
    ensures { (told : ℕ → Ordering) → ((i : ℕ) (o : Ordering) → i < to → F.post order i o → o ≡ told i) → result ≡ searched told from to }
{
    let mut lo = from;
    let mut hi = to;
    while lo < hi {
        let middle = lo + (hi - lo) / 2;
        match order(middle) {
            Ordering::Less => lo = middle + 1,
            Ordering::Equal => return Some(middle),
            Ordering::Greater => hi = middle,
        }
    }
    None
}

// The place in the lookup list, from `from` on and before `to`, of an id whose piece is `key`.
pub fn find_piece_between(
    pieces: &Strings<'_>,
    lookup: &[u32],
    key: &[u8],
    from: usize,
    to: usize,
) -> Option<usize>
    ensures { result ≡ searched (piece_order (strings_of pieces.now) lookup.now key.now) from (min to (length lookup.now)) }
{
    let order = |place: usize| byte_order(pieces.get(lookup[place] as usize), key);
    search_by(order, from, to.min(lookup.len()))
}

// The place in the lookup list of an id whose piece is `key`.
pub fn find_piece(pieces: &Strings<'_>, lookup: &[u32], key: &[u8]) -> Option<usize>
    ensures { result ≡ found_piece (strings_of pieces.now) lookup.now key.now }
{
    find_piece_between(pieces, lookup, key, 0, lookup.len())
}

// The place of the merge row of the pair `l`, `r`, from `from` on and before `to`.
pub fn find_row_between(
    rows: &MergeRows<'_>,
    l: u32,
    r: u32,
    from: usize,
    to: usize,
) -> Option<usize>
    ensures { result ≡ searched (row_order rows.now.left.now rows.now.right.now l r) from (min to (length rows.now.left.now)) }
{
    let order = |place: usize| pair_order(rows.left[place], number_at(rows.right, place), l, r);
    search_by(order, from, to.min(rows.left.len()))
}
