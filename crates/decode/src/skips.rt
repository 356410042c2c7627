// Ids that have no piece.
ghost use Rattle.std.specs.Prelude.{◌≡◌, not, ℕ, ltb};
ghost use Rattle.utf8.specs.Lists.{count};

// How many of the ids are not below the piece count.
pub fn count_skips(pieces: usize, ids: &[u32]) -> usize
    ensures { result ≡ count (λ (id : ℕ). not (ltb id pieces)) ids.now }
{
    ids.iter().filter(|id| pieces <= **id as usize).count()
}
