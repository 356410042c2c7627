// What is derived of a model once: the byte-adjacency rows, and the index. Defined in specs/Prepare.antt, its words in specs/Layout.antt.

#![tactic(auto)]

mod derive;
mod fill;
pub mod numbers;
mod pairs;
pub mod read;
mod rows;
mod walk;

ghost use Rattle.std.specs.Prelude.{◌≡◌};
ghost use Rattle.model.specs.Check.{check_number};
ghost use Rattle.model.specs.Model.{columns};
ghost use Rattle.model.specs.Answers.{answer_of};
ghost use Rattle.prepare.specs.Prepare.{PrepareOutcome, prepare_outcome};

use derive::{derive_adjacency, derive_index};
use model::{Counts, Model, Refusal};

// The lengths of the two rows.
pub const ADJACENCY_LEN: usize = 1024;

pub const INDEX_LEN: usize = 169032;

// Where the parts of the index begin.
pub const KIND_AT: usize = 0;

pub const RAW_PATH_AT: usize = 1;

pub const CROSSING_COUNT_AT: usize = 2;

pub const CROSSINGS_AT: usize = 3;

pub const MARK_ID_AT: usize = 67;

pub const SHIFT_AT: usize = 68;

pub const FIRST_BYTES_AT: usize = 69;

pub const BYTE_IDS_AT: usize = 326;

pub const BUCKETS_AT: usize = 582;

pub const PAIRS_AT: usize = 4679;

pub const SECOND_PAIRS_AT: usize = 135751;

pub const FIRST_TOKENS_AT: usize = 168519;

pub const SECOND_TOKENS_AT: usize = 168775;

pub const LONGEST_AT: usize = 169031;

// A model, and the two rows that were derived of it.
#[derive(Clone, Copy)]
pub struct Prepared<'a> {
    pub model: &'a Model<'a>,
    pub adjacency: &'a [u64],
    pub index: &'a [u32],
}

// `prepare` on a model that `model::check` accepts.
pub fn prepare_checked(
    model: &Model<'_>,
    adjacency: &mut [u64],
    index: &mut [u32],
) -> Result<Counts, Refusal>
    requires { check_number (columns model.now) ≡ 0 }
    ensures { ◌≡◌ {A = PrepareOutcome} (record { answer = answer_of result; adjacency = adjacency.new; index = index.new }) (prepare_outcome (columns model.now) adjacency.old index.old) }
{
    if adjacency.len() < ADJACENCY_LEN {
        return Err(Refusal::ResultTooShort);
    }
    if index.len() < INDEX_LEN {
        return Err(Refusal::ResultTooShort);
    }
    derive_adjacency(&model.pieces, adjacency);
    derive_index(model, index);
    Ok(Counts {
        written: ADJACENCY_LEN + INDEX_LEN,
        drops: 0,
        skips: 0,
    })
}

// What is derived of a model once, for whoever uses it for many texts.
pub fn prepare(
    model: &Model<'_>,
    adjacency: &mut [u64],
    index: &mut [u32],
) -> Result<Counts, Refusal>
    ensures { ◌≡◌ {A = PrepareOutcome} (record { answer = answer_of result; adjacency = adjacency.new; index = index.new }) (prepare_outcome (columns model.now) adjacency.old index.old) }
{
    model::check(model)?;
    prepare_checked(model, adjacency, index)
}
