// Where a text may be cut for workers. Defined in specs/Fragments.antt, over the safe places of specs/Safe.antt.

#![tactic(auto)]

mod ahead;
mod back;
mod ends;
mod finish;
mod next;
mod ranges;
mod read;

ghost use Rattle.std.specs.Prelude.{◌≡◌, ℕ, true, false, ◌<◌, ◌≤◌, length};
ghost use Rattle.utf8.specs.Chars.{valid};
ghost use Rattle.model.specs.Answers.{Outcome, answer_of};
ghost use Rattle.model.specs.Check.{check_number, bad_token};
ghost use Rattle.model.specs.Model.{columns, tokens_of, contents, token_at};
ghost use Rattle.sections.specs.Beginnings.{beginnings};
ghost use Rattle.prepare.specs.Prepare.{derived_adjacency, derived_index};
ghost use Rattle.fragments.specs.Fragments.{fragments_outcome};

use finish::cut_ranges;
use model::{AddedTokens, Counts, Model, Refusal};
use prepare::{Prepared, prepare_checked};
use read::places_of;
use units::Cutter;
use utf8::chars::valid_prefix;

// What decides which places of a text are safe.
#[derive(Clone, Copy)]
pub(crate) struct Places<'a> {
    pub cutter: Cutter<'a>,
    // The tokens whose occurrences block places.
    pub tokens: AddedTokens<'a>,
    // For each byte whether a content begins with it.
    pub begins: &'a [u32],
    // No content is longer.
    pub longest: usize,
    pub unguarded: bool,
    pub text: &'a [u8],
    ghost contents_fine: { bad_token (contents (tokens_of tokens)) ≡ false },
    ghost first: { begins.now ≡ beginnings (contents (tokens_of tokens)) (length begins.now) },
    ghost long: { (row : ℕ) → row < length (contents (tokens_of tokens)) → length (token_at (tokens_of tokens) row).content ≤ longest },
    ghost text_valid: { valid text.now ≡ true },
    ghost short: { length text.now ≤ 1048576 },
}

// Whether a place is blocked. It is no Result: neither answer is a failure.
#[derive(Clone, Copy)]
pub(crate) enum Verdict {
    // It is, and so are all places behind it up to this one.
    Blocked(usize),
    // It is not, and no place from it up to this one has a token with lstrip ahead.
    Free(usize),
}

// Where a text is cut next, and up to where no place has a token with lstrip ahead.
#[derive(Clone, Copy)]
pub(crate) struct Cut {
    pub place: usize,
    pub ahead: usize,
}

// `fragments` on a model that `model::check` accepts, with the two rows that `prepare` derives of it.
pub fn fragments_prepared(
    prepared: &Prepared<'_>,
    text: &[u8],
    target: usize,
    out: &mut [u32],
) -> Result<Counts, Refusal>
    requires accepted { check_number (columns prepared.now.model.now) ≡ 0 }
    requires adjacency_derived { prepared.now.adjacency.now ≡ derived_adjacency (columns prepared.now.model.now) }
    requires index_derived { prepared.now.index.now ≡ derived_index (columns prepared.now.model.now) }
    ensures { ◌≡◌ {A = Outcome} (record { answer = answer_of result; out = out.new }) (fragments_outcome (columns prepared.now.model.now) text.now target out.old) }
{
    if model::TEXT_LIMIT < text.len() {
        return Err(Refusal::WrongSize);
    }
    let place = valid_prefix(text);
    if place != text.len() {
        return Err(Refusal::BadText { place });
    }
    match prepared.raw_path() {
        Some(prepend) => cut_ranges(&places_of(prepared, prepend, text), target, out),
        None => Err(Refusal::NoRawPath),
    }
}

// The ranges of a text that may be encoded apart, none but the last shorter than `target`.
pub fn fragments(
    model: &Model<'_>,
    text: &[u8],
    target: usize,
    out: &mut [u32],
) -> Result<Counts, Refusal>
    ensures { ◌≡◌ {A = Outcome} (record { answer = answer_of result; out = out.new }) (fragments_outcome (columns model.now) text.now target out.old) }
{
    if model::TEXT_LIMIT < text.len() {
        return Err(Refusal::WrongSize);
    }
    model::check(model)?;
    let mut adjacency = [0u64; prepare::ADJACENCY_LEN];
    let mut index = [0u32; prepare::INDEX_LEN];
    prepare_checked(model, &mut adjacency, &mut index)?;
    let prepared = Prepared {
        model,
        adjacency: &adjacency,
        index: &index,
    };
    fragments_prepared(&prepared, text, target, out)
}
