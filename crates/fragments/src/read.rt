// What decides which places are safe, read of the index of a model that has a raw path.
ghost use Rattle.std.specs.Prelude.{◌≡◌, true, ◌≤◌, Some, length, get_or};
ghost use Rattle.std.proofs.Math.Seq.{slice};
ghost use Rattle.utf8.specs.Chars.{valid};
ghost use Rattle.model.specs.Check.{check_number};
ghost use Rattle.model.specs.Model.{columns, strings_of, tokens_of};
ghost use Rattle.units.specs.inner.Read.{named_crossings, crossings_in};
ghost use Rattle.prepare.specs.Layout.{kind_at, crossing_count_at, crossings_at, mark_id_at};
ghost use Rattle.prepare.specs.Prepare.{derived_index};
ghost use Rattle.prepare.specs.inner.Read.{kind_from};
ghost use Rattle.fragments.specs.Safe.{is_unguarded};

use crate::Places;
use model::tables::{number_at, part};
use prepare::Prepared;
use units::RawPrepend;

#[tactic(auto, unfolding(crate::specs::Safe::is_unguarded))]
fn is_unguarded(prepend: RawPrepend) -> bool
    ensures { result ≡ is_unguarded (Some prepend) }
{
    matches!(prepend, RawPrepend::Unguarded)
}

// A text's, by the index that was derived of an accepted model.
pub fn places_of<'a>(prepared: &Prepared<'a>, prepend: RawPrepend, text: &'a [u8]) -> Places<'a>
    requires accepted { check_number (columns prepared.now.model.now) ≡ 0 }
    requires index_derived { prepared.now.index.now ≡ derived_index (columns prepared.now.model.now) }
    requires text_valid { valid text.now ≡ true }
    requires short { length text.now ≤ 1048576 }
    ensures kind { result.cutter.kind ≡ kind_from (get_or prepared.now.index.now kind_at 0) }
    ensures crossings { crossings_in result.cutter ≡ named_crossings (strings_of prepared.now.model.now.pieces) (slice crossings_at mark_id_at prepared.now.index.now) (get_or prepared.now.index.now crossing_count_at 0) }
    ensures tokens { tokens_of result.tokens ≡ tokens_of prepared.now.model.now.first }
    ensures unguarded { result.unguarded ≡ is_unguarded (Some prepend) }
    ensures text { result.text.now ≡ text.now }
{
    Places {
        cutter: prepared.cutter(),
        tokens: prepared.model.first,
        begins: part(
            prepared.index,
            prepare::FIRST_TOKENS_AT,
            prepare::SECOND_TOKENS_AT,
        ),
        longest: number_at(prepared.index, prepare::LONGEST_AT) as usize,
        unguarded: is_unguarded(prepend),
        text,
    }
}
