// An accepted model, and the walks through a text by its two lists of added tokens.
ghost use Rattle.std.specs.Prelude.{◌≡◌, false, true};
ghost use Rattle.std.proofs.Math.Seq.{slice};
ghost use Rattle.model.specs.Check.{check_number};
ghost use Rattle.model.specs.Model.{tokens_of, columns};
ghost use Rattle.prepare.specs.Layout.{first_tokens_at, second_tokens_at, longest_content_at};
ghost use Rattle.prepare.specs.Prepare.{derived_adjacency, derived_index};
ghost use Rattle.sections.specs.inner.Walk.{next_item};

use model::tables::part;
use prepare::Prepared;
use sections::walk::next_item;
use sections::{Cursor, Next, Search};

// A model that `model::check` accepts, with the two rows that `prepare` derives of it.
#[derive(Clone, Copy)]
pub(crate) struct Checked<'a> {
    pub prepared: &'a Prepared<'a>,
    ghost accepted: { check_number (columns prepared.now.model.now) ≡ 0 },
    ghost adjacency_derived: { prepared.now.adjacency.now ≡ derived_adjacency (columns prepared.now.model.now) },
    ghost index_derived: { prepared.now.index.now ≡ derived_index (columns prepared.now.model.now) },
}

impl Checked<'_> {
    // What comes next in the walk through the sections of a text. Each list has a row of beginnings and a kind of search of its own, so this and
    // `next_part` differ in three of five arguments.
    pub fn next_section(&self, text: &[u8], cursor: Cursor) -> Next
        ensures { result ≡ next_item (tokens_of self.now.prepared.now.model.now.first) (slice first_tokens_at second_tokens_at self.now.prepared.now.index.now) false text.now cursor }
    {
        let index = self.prepared.index;
        let begins = part(index, prepare::FIRST_TOKENS_AT, prepare::SECOND_TOKENS_AT);
        next_item(
            &self.prepared.model.first,
            begins,
            Search::Onward,
            text,
            cursor,
        )
    }

    // What comes next in the walk through the parts of a normalized section.
    pub fn next_part(&self, text: &[u8], cursor: Cursor) -> Next
        ensures { result ≡ next_item (tokens_of self.now.prepared.now.model.now.second) (slice second_tokens_at longest_content_at self.now.prepared.now.index.now) true text.now cursor }
    {
        let index = self.prepared.index;
        let begins = part(index, prepare::SECOND_TOKENS_AT, prepare::LONGEST_AT);
        next_item(
            &self.prepared.model.second,
            begins,
            Search::Afresh,
            text,
            cursor,
        )
    }
}
