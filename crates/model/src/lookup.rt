// Answer 4: the lookup list.
ghost use Rattle.std.specs.Prelude.{◌≡◌, true, false, not, ◌&&◌, ℕ};
ghost use Rattle.utf8.specs.Lists.{any, count, is_empty};
ghost use Rattle.model.specs.Model.{strings_of, piece};
ghost use Rattle.model.specs.ByteOrder.{is_before};
ghost use Rattle.model.specs.Check.{names_no_piece, lookup_ascends, is_listed, piece_missing, bad_lookup};
ghost use Rattle.model.specs.inner.Tests.{is_long, long_missing};

use crate::Strings;
use crate::compare::byte_order;
use crate::search::find_piece;

// Whether the piece of `id` is empty, as is that of an id which has none.
fn piece_empty(pieces: &Strings<'_>, id: usize) -> bool
    ensures { result ≡ is_empty (piece (strings_of pieces.now) id) }
{
    pieces.get(id).is_empty()
}

// Whether an entry is no id, or the id of an empty piece.
fn names_no_piece(pieces: &Strings<'_>, lookup: &[u32]) -> bool
    ensures { result ≡ any (names_no_piece (strings_of pieces.now)) lookup.now }
{
    lookup.iter().any(|id| piece_empty(pieces, *id as usize))
}

// Whether the piece of `a` stands before that of `b`.
fn piece_before(pieces: &Strings<'_>, a: u32, b: u32) -> bool
    ensures { let all = strings_of pieces.now in result ≡ is_before (piece all a) (piece all b) }
{
    byte_order(pieces.get(a as usize), pieces.get(b as usize)).is_lt()
}

// Whether the piece of each entry stands before that of the next.
fn lookup_ascends(pieces: &Strings<'_>, lookup: &[u32]) -> bool
    ensures { result ≡ lookup_ascends (strings_of pieces.now) lookup.now }
{
    lookup
        .iter()
        .zip(lookup.iter().skip(1))
        .all(|(id, next)| piece_before(pieces, *id, *next))
}

// Whether the piece of `id` is not empty and not in the lookup list. `long_listed` may say that all pieces of two bytes or more are.
fn unlisted(pieces: &Strings<'_>, lookup: &[u32], long_listed: bool, id: usize) -> bool
    requires ascending { lookup_ascends (strings_of pieces.now) lookup.now ≡ true }
    requires long_listed { (long_listed && long_missing (strings_of pieces.now) lookup.now) ≡ false }
    ensures { let all = strings_of pieces.now in result ≡ (not (is_empty (piece all id)) && not (is_listed all lookup.now (piece all id))) }
{
    let key = pieces.get(id);
    if key.is_empty() {
        return false;
    }
    if long_listed && 1 < key.len() {
        return false;
    }
    find_piece(pieces, lookup, key).is_none()
}

// Whether a piece that is not empty is missing from a lookup list that ascends. `long_listed` is as above.
fn piece_missing(pieces: &Strings<'_>, lookup: &[u32], long_listed: bool) -> bool
    requires ascending { lookup_ascends (strings_of pieces.now) lookup.now ≡ true }
    requires long_listed { (long_listed && long_missing (strings_of pieces.now) lookup.now) ≡ false }
    ensures { result ≡ piece_missing (strings_of pieces.now) lookup.now }
{
    for id in 0..pieces.len() {
        if unlisted(pieces, lookup, long_listed, id) {
            return true;
        }
    }
    false
}

// Whether the piece of `id` has two bytes or more.
fn piece_long(pieces: &Strings<'_>, id: usize) -> bool
    ensures { result ≡ is_long (piece (strings_of pieces.now) id) }
{
    1 < pieces.get(id).len()
}

// How many pieces have two bytes or more.
fn long_pieces(pieces: &Strings<'_>) -> usize
    ensures { result ≡ count is_long (strings_of pieces.now) }
{
    (0..pieces.len())
        .filter(|id| piece_long(pieces, *id))
        .count()
}

// How many entries name a piece of two bytes or more.
fn long_entries(pieces: &Strings<'_>, lookup: &[u32]) -> usize
    ensures { let all = strings_of pieces.now in result ≡ count (λ (id : ℕ). is_long (piece all id)) lookup.now }
{
    lookup
        .iter()
        .filter(|id| piece_long(pieces, **id as usize))
        .count()
}

// Whether the lookup list breaks its rule.
pub fn bad_lookup(pieces: &Strings<'_>, lookup: &[u32]) -> bool
    ensures { result ≡ bad_lookup (strings_of pieces.now) lookup.now }
{
    if names_no_piece(pieces, lookup) {
        return true;
    }
    if !lookup_ascends(pieces, lookup) {
        return true;
    }
    // Entries that ascend differ: where there are as many long ones as long pieces, they leave none out.
    let long_listed = long_pieces(pieces) == long_entries(pieces, lookup);
    piece_missing(pieces, lookup, long_listed)
}
