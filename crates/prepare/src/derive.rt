// The two rows, derived into the buffers that are lent, with zeros behind them.
ghost use Rattle.std.specs.Prelude.{◌≡◌, true, ◌≤◌, ◌<◌, length, take};
ghost use Rattle.model.specs.Answers.{filled};
ghost use Rattle.model.specs.Check.{lookup_ascends};
ghost use Rattle.model.specs.Model.{strings_of};
ghost use Rattle.units.specs.Adjacency.{adjacency};
ghost use Rattle.prepare.specs.Layout.{adjacency_length, index_length};
ghost use Rattle.prepare.specs.inner.Derive.{index_of};

use crate::fill::{Found, fill_index};
use crate::numbers::{kind_number, raw_path_number};
use crate::rows::put_rows;
use model::clear::clear;
use model::{Model, Strings};
use units::adjacency::split_safe;
use units::crossings::word_split;
use units::raw::raw_path;

// The byte-adjacency rows.
pub fn derive_adjacency(pieces: &Strings<'_>, out: &mut [u64])
    requires { adjacency_length ≤ length out.old }
    ensures { out.new ≡ filled (adjacency (strings_of pieces.now)) out.old }
{
    let mut rows = [0u64; 1024];
    split_safe(pieces, &mut rows);
    put_rows(&rows, out);
}

// The index.
pub fn derive_index(model: &Model<'_>, out: &mut [u32])
    requires ascending { lookup_ascends (strings_of model.now.pieces) model.now.lookup.now ≡ true }
    requires lookup_len_bound { length model.now.lookup.now < 4294967296 }
    requires left_len_bound { length model.now.rows.left.now ≤ 1048576 }
    requires index_length_in_bounds { index_length ≤ length out.old }
    ensures { out.new ≡ filled (index_of (strings_of model.now.pieces) model.now.lookup.now model.now.rows.left.now model.now.rows.right.now model.now.rows.rank.now (strings_of model.now.first.contents) (strings_of model.now.second.contents) model.now.steps.bytes.now (take model.now.steps.count model.now.steps.list) model.now.metaspace) out.old }
{
    let mut noted = [0u32; 64];
    let split = word_split(&model.pieces, model.metaspace, &mut noted);
    let second_empty = model.second.contents.len() == 0;
    let path = raw_path(&model.steps, model.metaspace, split.kind, second_empty);
    let found = Found {
        kind: kind_number(split.kind),
        raw_path: raw_path_number(path),
        count: split.count as u32,
        noted: &noted,
    };
    fill_index(&found, model, out);
    clear(out, crate::INDEX_LEN, 0);
}
