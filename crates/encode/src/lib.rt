// Text to ids. Defined in specs/Encode.antt, over the parts of a text in specs/Parts.antt.

#![tactic(auto)]

mod checked;
mod marks;
mod normal;
mod parts;
mod passes;
mod raw;

ghost use Rattle.std.specs.Prelude.{◌≡◌, ◌≤◌, length};
ghost use Rattle.model.specs.Answers.{ScratchOutcome, answer_of};
ghost use Rattle.model.specs.Check.{check_number};
ghost use Rattle.model.specs.Model.{columns};
ghost use Rattle.prepare.specs.Prepare.{derived_adjacency, derived_index};
ghost use Rattle.encode.specs.Encode.{encode_outcome};

use checked::Checked;
use model::{Counts, Model, Refusal, TEXT_LIMIT, check};
use normal::Normal;
use passes::encode_sections;
use prepare::{ADJACENCY_LEN, INDEX_LEN, Prepared, prepare_checked};
use raw::Raw;
use utf8::chars::valid_prefix;

// `encode` on an accepted model, for a text that is not too long.
fn encode_short(
    model: &Checked<'_>,
    text: &[u8],
    continuation: bool,
    out: &mut [u32],
    scratch_a: &mut [u8],
    scratch_b: &mut [u8],
) -> Result<Counts, Refusal>
    requires { length text.now ≤ 1048576 }
    ensures { ◌≡◌ {A = ScratchOutcome} (record { answer = answer_of result; out = out.new; scratch_a = scratch_a.new; scratch_b = scratch_b.new }) (encode_outcome (columns model.now.prepared.now.model.now) text.now continuation out.old scratch_a.old scratch_b.old) }
{
    let place = valid_prefix(text);
    if place != text.len() {
        return Err(Refusal::BadText { place });
    }
    let prepared = model.prepared;
    let outcome = match prepared.raw_path() {
        Some(prepend) => {
            let path = Raw {
                prepared,
                prepend,
                continuation,
            };
            encode_sections(&path, model, text, scratch_a, scratch_b, out)
        }
        None => {
            if continuation {
                return Err(Refusal::NoRawPath);
            }
            encode_sections(&Normal { model }, model, text, scratch_a, scratch_b, out)
        }
    };
    scratch_a.fill(0);
    scratch_b.fill(0);
    outcome
}

// `encode` on a model that `model::check` accepts, with the two rows that `prepare` derives of it.
pub fn encode_prepared(
    prepared: &Prepared<'_>,
    text: &[u8],
    continuation: bool,
    out: &mut [u32],
    scratch_a: &mut [u8],
    scratch_b: &mut [u8],
) -> Result<Counts, Refusal>
    requires accepted { check_number (columns prepared.now.model.now) ≡ 0 }
    requires adjacency_derived { prepared.now.adjacency.now ≡ derived_adjacency (columns prepared.now.model.now) }
    requires index_derived { prepared.now.index.now ≡ derived_index (columns prepared.now.model.now) }
    ensures { ◌≡◌ {A = ScratchOutcome} (record { answer = answer_of result; out = out.new; scratch_a = scratch_a.new; scratch_b = scratch_b.new }) (encode_outcome (columns prepared.now.model.now) text.now continuation out.old scratch_a.old scratch_b.old) }
{
    if TEXT_LIMIT < text.len() {
        return Err(Refusal::WrongSize);
    }
    encode_short(
        &Checked { prepared },
        text,
        continuation,
        out,
        scratch_a,
        scratch_b,
    )
}

// `encode` on an accepted model, for a text that is not too long, with the rows derived of the model here. It begins with their tables and is
// never inlined: behind the tests of `encode` a program that inlines them may clear them twice.
#[inline(never)]
fn encode_derived(
    model: &Model<'_>,
    text: &[u8],
    continuation: bool,
    out: &mut [u32],
    scratch_a: &mut [u8],
    scratch_b: &mut [u8],
) -> Result<Counts, Refusal>
    requires accepted { check_number (columns model.now) ≡ 0 }
    requires short { length text.now ≤ 1048576 }
    ensures { ◌≡◌ {A = ScratchOutcome} (record { answer = answer_of result; out = out.new; scratch_a = scratch_a.new; scratch_b = scratch_b.new }) (encode_outcome (columns model.now) text.now continuation out.old scratch_a.old scratch_b.old) }
{
    let mut adjacency = [0u64; ADJACENCY_LEN];
    let mut index = [0u32; INDEX_LEN];
    prepare_checked(model, &mut adjacency, &mut index)?;
    let prepared = Prepared {
        model,
        adjacency: &adjacency,
        index: &index,
    };
    encode_short(
        &Checked {
            prepared: &prepared,
        },
        text,
        continuation,
        out,
        scratch_a,
        scratch_b,
    )
}

// The ids of a text. `continuation` says that it goes on from an earlier text: its opening section gets no virtual mark.
pub fn encode(
    model: &Model<'_>,
    text: &[u8],
    continuation: bool,
    out: &mut [u32],
    scratch_a: &mut [u8],
    scratch_b: &mut [u8],
) -> Result<Counts, Refusal>
    ensures { ◌≡◌ {A = ScratchOutcome} (record { answer = answer_of result; out = out.new; scratch_a = scratch_a.new; scratch_b = scratch_b.new }) (encode_outcome (columns model.now) text.now continuation out.old scratch_a.old scratch_b.old) }
{
    if TEXT_LIMIT < text.len() {
        return Err(Refusal::WrongSize);
    }
    check(model)?;
    encode_derived(model, text, continuation, out, scratch_a, scratch_b)
}
