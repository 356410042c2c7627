// Parts of the index, for the calls that are lent one.
ghost use Rattle.std.specs.Prelude.{◌≡◌, get_or};
ghost use Rattle.std.proofs.Math.Seq.{slice};
ghost use Rattle.units.specs.inner.Read.{crossings_in, named_crossings};
ghost use Rattle.model.specs.Model.{strings_of};
ghost use Rattle.prepare.specs.Layout.{kind_at, raw_path_at, crossing_count_at, crossings_at, mark_id_at, shift_at, first_bytes_at, buckets_at, first_tokens_at};
ghost use Rattle.prepare.specs.inner.Read.{kind_from, raw_path_from};

use crate::Prepared;
use crate::numbers::{kind_from, raw_path_from};
use index::{PieceIndex, RowIndex};
use model::tables::{number_at, part};
use units::{Cutter, RawPrepend, WordSplit};

impl<'a> Prepared<'a> {
    // The kind of split.
    pub fn kind(&self) -> WordSplit
        ensures { result ≡ kind_from (get_or self.now.index.now kind_at 0) }
    {
        kind_from(number_at(self.index, crate::KIND_AT))
    }

    // The raw path, where there is one.
    pub fn raw_path(&self) -> Option<RawPrepend>
        ensures { result ≡ raw_path_from (get_or self.now.index.now raw_path_at 0) }
    {
        raw_path_from(number_at(self.index, crate::RAW_PATH_AT))
    }

    // What sections are cut by.
    pub fn cutter(&self) -> Cutter<'a>
        ensures kind { result.kind ≡ kind_from (get_or self.now.index.now kind_at 0) }
        ensures bytes { result.pieces.bytes.now ≡ self.now.model.now.pieces.bytes.now }
        ensures offsets { result.pieces.offsets.now ≡ self.now.model.now.pieces.offsets.now }
        ensures noted { result.noted.now ≡ slice crossings_at mark_id_at self.now.index.now }
        ensures count { result.count ≡ get_or self.now.index.now crossing_count_at 0 }
        ensures crossings { crossings_in result ≡ named_crossings (strings_of self.now.model.now.pieces) (slice crossings_at mark_id_at self.now.index.now) (get_or self.now.index.now crossing_count_at 0) }
        ensures adjacency { result.adjacency.now ≡ self.now.adjacency.now }
    {
        Cutter {
            kind: self.kind(),
            pieces: self.model.pieces,
            noted: part(self.index, crate::CROSSINGS_AT, crate::MARK_ID_AT),
            count: number_at(self.index, crate::CROSSING_COUNT_AT) as usize,
            adjacency: self.adjacency,
        }
    }

    // The pieces with their index.
    pub fn pieces(&self) -> PieceIndex<'a>
        ensures bytes { result.pieces.bytes.now ≡ self.now.model.now.pieces.bytes.now }
        ensures offsets { result.pieces.offsets.now ≡ self.now.model.now.pieces.offsets.now }
        ensures lookup { result.lookup.now ≡ self.now.model.now.lookup.now }
        ensures words { result.words.now ≡ slice first_bytes_at buckets_at self.now.index.now }
        ensures mark_id { result.mark_id ≡ get_or self.now.index.now mark_id_at 0 }
    {
        PieceIndex {
            pieces: self.model.pieces,
            lookup: self.model.lookup,
            words: part(self.index, crate::FIRST_BYTES_AT, crate::BUCKETS_AT),
            mark_id: number_at(self.index, crate::MARK_ID_AT),
        }
    }

    // The merge rows with their index.
    pub fn rows(&self) -> RowIndex<'a>
        ensures left { result.rows.left.now ≡ self.now.model.now.rows.left.now }
        ensures right { result.rows.right.now ≡ self.now.model.now.rows.right.now }
        ensures result_ { result.rows.result.now ≡ self.now.model.now.rows.result.now }
        ensures rank { result.rows.rank.now ≡ self.now.model.now.rows.rank.now }
        ensures words { result.words.now ≡ slice buckets_at first_tokens_at self.now.index.now }
        ensures shift { result.shift ≡ get_or self.now.index.now shift_at 0 }
    {
        RowIndex {
            rows: self.model.rows,
            words: part(self.index, crate::BUCKETS_AT, crate::FIRST_TOKENS_AT),
            shift: number_at(self.index, crate::SHIFT_AT),
        }
    }
}
