// Walks along the sorted tables, each of which goes on from where the last ended.
ghost use Rattle.std.specs.Prelude.{◌≡◌};
ghost use Rattle.model.specs.Model.{strings_of};
ghost use Rattle.prepare.specs.inner.Walk.{below_from, first_below_from};

use index::first_byte;
use model::Strings;
use model::tables::part;

// Where the numbers of `column` end that are below `bound`, from `from` on.
pub fn below_from(column: &[u32], from: usize, bound: usize) -> usize
    ensures { result ≡ below_from column.now from bound }
{
    let rest = part(column, from, column.len());
    from + rest
        .iter()
        .take_while(|number| (**number as usize) < bound)
        .count()
}

// Where the entries end whose pieces have a first byte below `bound`, from `from` on.
pub fn first_below_from(pieces: &Strings<'_>, lookup: &[u32], from: usize, bound: usize) -> usize
    ensures { result ≡ first_below_from (strings_of pieces.now) lookup.now from bound }
{
    let rest = part(lookup, from, lookup.len());
    let is_below = |id: &&u32| first_byte(pieces.get(**id as usize)) < bound;
    from + rest.iter().take_while(is_below).count()
}
