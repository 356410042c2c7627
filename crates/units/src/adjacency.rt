// The byte-adjacency rows: 256 rows of four words, a bit for each pair of bytes.
ghost use Rattle.std.specs.Prelude.{◌≡◌};
ghost use Rattle.utf8.specs.Lists.{neighbours};
ghost use Rattle.model.specs.Model.{strings, strings_of};
ghost use Rattle.units.specs.Adjacency.{adjacency};
ghost use Rattle.units.specs.inner.Read.{pair_noted};
ghost use Rattle.units.specs.inner.Notes.{no_rows, note, note_all};

use model::Strings;

#[tactic(auto, unfolding(crate::specs::inner::Notes::no_rows))]
fn clear(rows: &mut [u64; 1024])
    ensures { rows.new ≡ no_rows }
{
    *rows = [0; 1024];
}

#[tactic(auto, using(crate::proofs::AdjacencyLaws::one_bit), unfolding(crate::specs::inner::Notes::note))]
fn note_pair(x: u8, y: u8, rows: &mut [u64; 1024])
    ensures { rows.new ≡ note (x, y) rows.old }
{
    let at = usize::from(x) * 4 + usize::from(y) / 64;
    rows[at] |= 1u64 << (y % 64);
}

// The pairs of one piece.
fn note_pairs(bytes: &[u8], rows: &mut [u64; 1024])
    ensures { rows.new ≡ note_all (neighbours bytes.now) rows.old }
{
    for i in 1..bytes.len() {
        note_pair(bytes[i - 1], bytes[i], rows);
    }
}

// The rows of all strings. The bytes are lent alone, so that they are known to be bytes.
fn note_strings(bytes: &[u8], offsets: &[u32], rows: &mut [u64; 1024])
    ensures { rows.new ≡ adjacency (strings bytes.now offsets.now) }
{
    clear(rows);
    let pieces = Strings { bytes, offsets };
    for id in 0..pieces.len() {
        note_pairs(pieces.get(id), rows);
    }
}

// The rows of all pieces, whatever stood in them before.
pub fn split_safe(pieces: &Strings<'_>, rows: &mut [u64; 1024])
    ensures { rows.new ≡ adjacency (strings_of pieces.now) }
{
    note_strings(pieces.bytes, pieces.offsets, rows);
}

// Whether the rows say that some piece holds `x` directly followed by `y`.
#[tactic(auto, using(crate::proofs::AdjacencyLaws::no_bit), unfolding(crate::specs::inner::Read::pair_noted))]
pub fn holds_pair(rows: &[u64], x: u8, y: u8) -> bool
    ensures { result ≡ pair_noted rows.now x y }
{
    match rows.get(usize::from(x) * 4 + usize::from(y) / 64) {
        Some(word) => (*word >> (y % 64)) % 2 == 1,
        None => false,
    }
}
