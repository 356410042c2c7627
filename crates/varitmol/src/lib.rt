// The static library: the public calls as functions for C, each slice as a pointer and a length. include/varitmol.h declares them. They
// differ in the call alone, and stand apart since C names each.
// What the numbers of steps and metaspace stand for is in specs/Numbers.antt.

#![tactic(auto)]

ghost use Rattle.std.specs.Prelude.{◌≡◌, true, false, length, MatchResult};
ghost use Rattle.model.specs.Answers.{Outcome, ScratchOutcome};
ghost use Rattle.model.specs.Check.{check_number, check_outcome};
ghost use Rattle.model.specs.Model.{columns, model_of, token_list};
ghost use Rattle.model.specs.declared.Refusal.TheVariants.{WrongSize};
ghost use Rattle.normalise.specs.Normalise.{normalise_outcome};
ghost use Rattle.prepare.specs.Prepare.{derived_adjacency, derived_index, PrepareOutcome, prepare_outcome};
ghost use Rattle.encode.specs.Encode.{encode_outcome};
ghost use Rattle.fragments.specs.Fragments.{fragments_outcome};
ghost use Rattle.decode.specs.Decode.{decode_outcome};
ghost use Rattle.varitmol.specs.Numbers.{steps_from, metaspace_from, wrong_numbers, answered, answered_result, answered_scratch, answered_prepare};

use model::{AddedTokens, Answer, MergeRows, Model, Refusal, StepList, Strings};
use numbers::{metaspace_from, steps_from, wrong_numbers};
use prepare::Prepared;

mod numbers;

// The model, where the numbers stand for steps and a metaspace. Each export takes as many parameters, since C has no slices in a struct.
fn lent<'a>(
    piece_bytes: &'a [u8],
    piece_offsets: &'a [u32],
    lookup: &'a [u32],
    fallback: &'a [u32],
    left: &'a [u32],
    right: &'a [u32],
    res: &'a [u32],
    rank: &'a [u32],
    first_bytes: &'a [u8],
    first_offsets: &'a [u32],
    first_ids: &'a [u32],
    first_lstrip: &'a [bool],
    first_rstrip: &'a [bool],
    second_bytes: &'a [u8],
    second_offsets: &'a [u32],
    second_ids: &'a [u32],
    second_lstrip: &'a [bool],
    second_rstrip: &'a [bool],
    step_bytes: &'a [u8],
    step_kinds: &[u8],
    step_spans: &[u32],
    metaspace: u8,
    split: u8,
) -> Result<Model<'a>, Refusal>
    ensures { let wrong = wrong_numbers step_kinds.now step_spans.now metaspace split in MatchResult result (λ model. (wrong ≡ false) × (columns model ≡ model_of piece_bytes.now piece_offsets.now lookup.now fallback.now left.now right.now res.now rank.now (token_list first_bytes.now first_offsets.now first_ids.now first_lstrip.now first_rstrip.now) (token_list second_bytes.now second_offsets.now second_ids.now second_lstrip.now second_rstrip.now) step_bytes.now (steps_from step_kinds.now step_spans.now) (length step_kinds.now) (metaspace_from metaspace split))) (λ refusal. (wrong ≡ true) × (refusal ≡ WrongSize)) }
{
    if wrong_numbers(step_kinds, step_spans, metaspace, split) {
        return Err(Refusal::WrongSize);
    }
    Ok(Model {
        pieces: Strings {
            bytes: piece_bytes,
            offsets: piece_offsets,
        },
        lookup,
        fallback,
        rows: MergeRows {
            left,
            right,
            result: res,
            rank,
        },
        first: AddedTokens {
            contents: Strings {
                bytes: first_bytes,
                offsets: first_offsets,
            },
            ids: first_ids,
            lstrip: first_lstrip,
            rstrip: first_rstrip,
        },
        second: AddedTokens {
            contents: Strings {
                bytes: second_bytes,
                offsets: second_offsets,
            },
            ids: second_ids,
            lstrip: second_lstrip,
            rstrip: second_rstrip,
        },
        steps: StepList {
            bytes: step_bytes,
            list: steps_from(step_kinds, step_spans),
            count: step_kinds.len(),
        },
        metaspace: metaspace_from(metaspace, split),
    })
}

// `model::check`.
#[tactic(auto, unfolding(crate::specs::Numbers::answered))]
#[unsafe(no_mangle)]
pub extern "C" fn varitmol_check(
    piece_bytes: &[u8],
    piece_offsets: &[u32],
    lookup: &[u32],
    fallback: &[u32],
    left: &[u32],
    right: &[u32],
    res: &[u32],
    rank: &[u32],
    first_bytes: &[u8],
    first_offsets: &[u32],
    first_ids: &[u32],
    first_lstrip: &[bool],
    first_rstrip: &[bool],
    second_bytes: &[u8],
    second_offsets: &[u32],
    second_ids: &[u32],
    second_lstrip: &[bool],
    second_rstrip: &[bool],
    step_bytes: &[u8],
    step_kinds: &[u8],
    step_spans: &[u32],
    metaspace: u8,
    split: u8,
) -> Answer
    ensures { result ≡ answered (wrong_numbers step_kinds.now step_spans.now metaspace split) (check_outcome (model_of piece_bytes.now piece_offsets.now lookup.now fallback.now left.now right.now res.now rank.now (token_list first_bytes.now first_offsets.now first_ids.now first_lstrip.now first_rstrip.now) (token_list second_bytes.now second_offsets.now second_ids.now second_lstrip.now second_rstrip.now) step_bytes.now (steps_from step_kinds.now step_spans.now) (length step_kinds.now) (metaspace_from metaspace split))) }
{
    match lent(
        piece_bytes,
        piece_offsets,
        lookup,
        fallback,
        left,
        right,
        res,
        rank,
        first_bytes,
        first_offsets,
        first_ids,
        first_lstrip,
        first_rstrip,
        second_bytes,
        second_offsets,
        second_ids,
        second_lstrip,
        second_rstrip,
        step_bytes,
        step_kinds,
        step_spans,
        metaspace,
        split,
    ) {
        Ok(model) => Answer::from(model::check(&model)),
        Err(refusal) => Answer::from(refusal),
    }
}

// `normalise::normalise`.
#[tactic(auto, unfolding(crate::specs::Numbers::answered_scratch))]
#[unsafe(no_mangle)]
pub extern "C" fn varitmol_normalise(
    piece_bytes: &[u8],
    piece_offsets: &[u32],
    lookup: &[u32],
    fallback: &[u32],
    left: &[u32],
    right: &[u32],
    res: &[u32],
    rank: &[u32],
    first_bytes: &[u8],
    first_offsets: &[u32],
    first_ids: &[u32],
    first_lstrip: &[bool],
    first_rstrip: &[bool],
    second_bytes: &[u8],
    second_offsets: &[u32],
    second_ids: &[u32],
    second_lstrip: &[bool],
    second_rstrip: &[bool],
    step_bytes: &[u8],
    step_kinds: &[u8],
    step_spans: &[u32],
    metaspace: u8,
    split: u8,
    text: &[u8],
    first: bool,
    out: &mut [u8],
    scratch_a: &mut [u8],
    scratch_b: &mut [u8],
) -> Answer
    ensures { ◌≡◌ {A = ScratchOutcome} (record { answer = result; out = out.new; scratch_a = scratch_a.new; scratch_b = scratch_b.new }) (answered_scratch (wrong_numbers step_kinds.now step_spans.now metaspace split) out.old scratch_a.old scratch_b.old (normalise_outcome (model_of piece_bytes.now piece_offsets.now lookup.now fallback.now left.now right.now res.now rank.now (token_list first_bytes.now first_offsets.now first_ids.now first_lstrip.now first_rstrip.now) (token_list second_bytes.now second_offsets.now second_ids.now second_lstrip.now second_rstrip.now) step_bytes.now (steps_from step_kinds.now step_spans.now) (length step_kinds.now) (metaspace_from metaspace split)) text.now first out.old scratch_a.old scratch_b.old)) }
{
    match lent(
        piece_bytes,
        piece_offsets,
        lookup,
        fallback,
        left,
        right,
        res,
        rank,
        first_bytes,
        first_offsets,
        first_ids,
        first_lstrip,
        first_rstrip,
        second_bytes,
        second_offsets,
        second_ids,
        second_lstrip,
        second_rstrip,
        step_bytes,
        step_kinds,
        step_spans,
        metaspace,
        split,
    ) {
        Ok(model) => Answer::from(normalise::normalise(
            &model, text, first, out, scratch_a, scratch_b,
        )),
        Err(refusal) => Answer::from(refusal),
    }
}

// `normalise::normalise_checked`.
#[tactic(auto, unfolding(crate::specs::Numbers::answered_scratch))]
#[unsafe(no_mangle)]
pub extern "C" fn varitmol_normalise_checked(
    piece_bytes: &[u8],
    piece_offsets: &[u32],
    lookup: &[u32],
    fallback: &[u32],
    left: &[u32],
    right: &[u32],
    res: &[u32],
    rank: &[u32],
    first_bytes: &[u8],
    first_offsets: &[u32],
    first_ids: &[u32],
    first_lstrip: &[bool],
    first_rstrip: &[bool],
    second_bytes: &[u8],
    second_offsets: &[u32],
    second_ids: &[u32],
    second_lstrip: &[bool],
    second_rstrip: &[bool],
    step_bytes: &[u8],
    step_kinds: &[u8],
    step_spans: &[u32],
    metaspace: u8,
    split: u8,
    text: &[u8],
    first: bool,
    out: &mut [u8],
    scratch_a: &mut [u8],
    scratch_b: &mut [u8],
) -> Answer
    requires { check_number (model_of piece_bytes.now piece_offsets.now lookup.now fallback.now left.now right.now res.now rank.now (token_list first_bytes.now first_offsets.now first_ids.now first_lstrip.now first_rstrip.now) (token_list second_bytes.now second_offsets.now second_ids.now second_lstrip.now second_rstrip.now) step_bytes.now (steps_from step_kinds.now step_spans.now) (length step_kinds.now) (metaspace_from metaspace split)) ≡ 0 }
    ensures { ◌≡◌ {A = ScratchOutcome} (record { answer = result; out = out.new; scratch_a = scratch_a.new; scratch_b = scratch_b.new }) (answered_scratch (wrong_numbers step_kinds.now step_spans.now metaspace split) out.old scratch_a.old scratch_b.old (normalise_outcome (model_of piece_bytes.now piece_offsets.now lookup.now fallback.now left.now right.now res.now rank.now (token_list first_bytes.now first_offsets.now first_ids.now first_lstrip.now first_rstrip.now) (token_list second_bytes.now second_offsets.now second_ids.now second_lstrip.now second_rstrip.now) step_bytes.now (steps_from step_kinds.now step_spans.now) (length step_kinds.now) (metaspace_from metaspace split)) text.now first out.old scratch_a.old scratch_b.old)) }
{
    match lent(
        piece_bytes,
        piece_offsets,
        lookup,
        fallback,
        left,
        right,
        res,
        rank,
        first_bytes,
        first_offsets,
        first_ids,
        first_lstrip,
        first_rstrip,
        second_bytes,
        second_offsets,
        second_ids,
        second_lstrip,
        second_rstrip,
        step_bytes,
        step_kinds,
        step_spans,
        metaspace,
        split,
    ) {
        Ok(model) => Answer::from(normalise::normalise_checked(
            &model, text, first, out, scratch_a, scratch_b,
        )),
        Err(refusal) => Answer::from(refusal),
    }
}

// `prepare::prepare`.
#[tactic(auto, unfolding(crate::specs::Numbers::answered_prepare))]
#[unsafe(no_mangle)]
pub extern "C" fn varitmol_prepare(
    piece_bytes: &[u8],
    piece_offsets: &[u32],
    lookup: &[u32],
    fallback: &[u32],
    left: &[u32],
    right: &[u32],
    res: &[u32],
    rank: &[u32],
    first_bytes: &[u8],
    first_offsets: &[u32],
    first_ids: &[u32],
    first_lstrip: &[bool],
    first_rstrip: &[bool],
    second_bytes: &[u8],
    second_offsets: &[u32],
    second_ids: &[u32],
    second_lstrip: &[bool],
    second_rstrip: &[bool],
    step_bytes: &[u8],
    step_kinds: &[u8],
    step_spans: &[u32],
    metaspace: u8,
    split: u8,
    adjacency: &mut [u64],
    index: &mut [u32],
) -> Answer
    ensures { ◌≡◌ {A = PrepareOutcome} (record { answer = result; adjacency = adjacency.new; index = index.new }) (answered_prepare (wrong_numbers step_kinds.now step_spans.now metaspace split) adjacency.old index.old (prepare_outcome (model_of piece_bytes.now piece_offsets.now lookup.now fallback.now left.now right.now res.now rank.now (token_list first_bytes.now first_offsets.now first_ids.now first_lstrip.now first_rstrip.now) (token_list second_bytes.now second_offsets.now second_ids.now second_lstrip.now second_rstrip.now) step_bytes.now (steps_from step_kinds.now step_spans.now) (length step_kinds.now) (metaspace_from metaspace split)) adjacency.old index.old)) }
{
    match lent(
        piece_bytes,
        piece_offsets,
        lookup,
        fallback,
        left,
        right,
        res,
        rank,
        first_bytes,
        first_offsets,
        first_ids,
        first_lstrip,
        first_rstrip,
        second_bytes,
        second_offsets,
        second_ids,
        second_lstrip,
        second_rstrip,
        step_bytes,
        step_kinds,
        step_spans,
        metaspace,
        split,
    ) {
        Ok(model) => Answer::from(prepare::prepare(&model, adjacency, index)),
        Err(refusal) => Answer::from(refusal),
    }
}

// `encode::encode`.
#[tactic(auto, unfolding(crate::specs::Numbers::answered_scratch))]
#[unsafe(no_mangle)]
pub extern "C" fn varitmol_encode(
    piece_bytes: &[u8],
    piece_offsets: &[u32],
    lookup: &[u32],
    fallback: &[u32],
    left: &[u32],
    right: &[u32],
    res: &[u32],
    rank: &[u32],
    first_bytes: &[u8],
    first_offsets: &[u32],
    first_ids: &[u32],
    first_lstrip: &[bool],
    first_rstrip: &[bool],
    second_bytes: &[u8],
    second_offsets: &[u32],
    second_ids: &[u32],
    second_lstrip: &[bool],
    second_rstrip: &[bool],
    step_bytes: &[u8],
    step_kinds: &[u8],
    step_spans: &[u32],
    metaspace: u8,
    split: u8,
    text: &[u8],
    continuation: bool,
    out: &mut [u32],
    scratch_a: &mut [u8],
    scratch_b: &mut [u8],
) -> Answer
    ensures { ◌≡◌ {A = ScratchOutcome} (record { answer = result; out = out.new; scratch_a = scratch_a.new; scratch_b = scratch_b.new }) (answered_scratch (wrong_numbers step_kinds.now step_spans.now metaspace split) out.old scratch_a.old scratch_b.old (encode_outcome (model_of piece_bytes.now piece_offsets.now lookup.now fallback.now left.now right.now res.now rank.now (token_list first_bytes.now first_offsets.now first_ids.now first_lstrip.now first_rstrip.now) (token_list second_bytes.now second_offsets.now second_ids.now second_lstrip.now second_rstrip.now) step_bytes.now (steps_from step_kinds.now step_spans.now) (length step_kinds.now) (metaspace_from metaspace split)) text.now continuation out.old scratch_a.old scratch_b.old)) }
{
    match lent(
        piece_bytes,
        piece_offsets,
        lookup,
        fallback,
        left,
        right,
        res,
        rank,
        first_bytes,
        first_offsets,
        first_ids,
        first_lstrip,
        first_rstrip,
        second_bytes,
        second_offsets,
        second_ids,
        second_lstrip,
        second_rstrip,
        step_bytes,
        step_kinds,
        step_spans,
        metaspace,
        split,
    ) {
        Ok(model) => Answer::from(encode::encode(
            &model,
            text,
            continuation,
            out,
            scratch_a,
            scratch_b,
        )),
        Err(refusal) => Answer::from(refusal),
    }
}

// `encode::encode_prepared`: whoever calls it answers for the model's check and for the two rows.
#[tactic(auto, unfolding(crate::specs::Numbers::answered_scratch))]
#[unsafe(no_mangle)]
pub extern "C" fn varitmol_encode_prepared(
    piece_bytes: &[u8],
    piece_offsets: &[u32],
    lookup: &[u32],
    fallback: &[u32],
    left: &[u32],
    right: &[u32],
    res: &[u32],
    rank: &[u32],
    first_bytes: &[u8],
    first_offsets: &[u32],
    first_ids: &[u32],
    first_lstrip: &[bool],
    first_rstrip: &[bool],
    second_bytes: &[u8],
    second_offsets: &[u32],
    second_ids: &[u32],
    second_lstrip: &[bool],
    second_rstrip: &[bool],
    step_bytes: &[u8],
    step_kinds: &[u8],
    step_spans: &[u32],
    metaspace: u8,
    split: u8,
    adjacency: &[u64],
    index: &[u32],
    text: &[u8],
    continuation: bool,
    out: &mut [u32],
    scratch_a: &mut [u8],
    scratch_b: &mut [u8],
) -> Answer
    requires accepted { check_number (model_of piece_bytes.now piece_offsets.now lookup.now fallback.now left.now right.now res.now rank.now (token_list first_bytes.now first_offsets.now first_ids.now first_lstrip.now first_rstrip.now) (token_list second_bytes.now second_offsets.now second_ids.now second_lstrip.now second_rstrip.now) step_bytes.now (steps_from step_kinds.now step_spans.now) (length step_kinds.now) (metaspace_from metaspace split)) ≡ 0 }
    requires adjacency_derived { adjacency.now ≡ derived_adjacency (model_of piece_bytes.now piece_offsets.now lookup.now fallback.now left.now right.now res.now rank.now (token_list first_bytes.now first_offsets.now first_ids.now first_lstrip.now first_rstrip.now) (token_list second_bytes.now second_offsets.now second_ids.now second_lstrip.now second_rstrip.now) step_bytes.now (steps_from step_kinds.now step_spans.now) (length step_kinds.now) (metaspace_from metaspace split)) }
    requires index_derived { index.now ≡ derived_index (model_of piece_bytes.now piece_offsets.now lookup.now fallback.now left.now right.now res.now rank.now (token_list first_bytes.now first_offsets.now first_ids.now first_lstrip.now first_rstrip.now) (token_list second_bytes.now second_offsets.now second_ids.now second_lstrip.now second_rstrip.now) step_bytes.now (steps_from step_kinds.now step_spans.now) (length step_kinds.now) (metaspace_from metaspace split)) }
    ensures { ◌≡◌ {A = ScratchOutcome} (record { answer = result; out = out.new; scratch_a = scratch_a.new; scratch_b = scratch_b.new }) (answered_scratch (wrong_numbers step_kinds.now step_spans.now metaspace split) out.old scratch_a.old scratch_b.old (encode_outcome (model_of piece_bytes.now piece_offsets.now lookup.now fallback.now left.now right.now res.now rank.now (token_list first_bytes.now first_offsets.now first_ids.now first_lstrip.now first_rstrip.now) (token_list second_bytes.now second_offsets.now second_ids.now second_lstrip.now second_rstrip.now) step_bytes.now (steps_from step_kinds.now step_spans.now) (length step_kinds.now) (metaspace_from metaspace split)) text.now continuation out.old scratch_a.old scratch_b.old)) }
{
    match lent(
        piece_bytes,
        piece_offsets,
        lookup,
        fallback,
        left,
        right,
        res,
        rank,
        first_bytes,
        first_offsets,
        first_ids,
        first_lstrip,
        first_rstrip,
        second_bytes,
        second_offsets,
        second_ids,
        second_lstrip,
        second_rstrip,
        step_bytes,
        step_kinds,
        step_spans,
        metaspace,
        split,
    ) {
        Ok(model) => {
            let prepared = Prepared {
                model: &model,
                adjacency,
                index,
            };
            Answer::from(encode::encode_prepared(
                &prepared,
                text,
                continuation,
                out,
                scratch_a,
                scratch_b,
            ))
        }
        Err(refusal) => Answer::from(refusal),
    }
}

// `fragments::fragments`.
#[tactic(auto, unfolding(crate::specs::Numbers::answered_result))]
#[unsafe(no_mangle)]
pub extern "C" fn varitmol_fragments(
    piece_bytes: &[u8],
    piece_offsets: &[u32],
    lookup: &[u32],
    fallback: &[u32],
    left: &[u32],
    right: &[u32],
    res: &[u32],
    rank: &[u32],
    first_bytes: &[u8],
    first_offsets: &[u32],
    first_ids: &[u32],
    first_lstrip: &[bool],
    first_rstrip: &[bool],
    second_bytes: &[u8],
    second_offsets: &[u32],
    second_ids: &[u32],
    second_lstrip: &[bool],
    second_rstrip: &[bool],
    step_bytes: &[u8],
    step_kinds: &[u8],
    step_spans: &[u32],
    metaspace: u8,
    split: u8,
    text: &[u8],
    target: usize,
    out: &mut [u32],
) -> Answer
    ensures { ◌≡◌ {A = Outcome} (record { answer = result; out = out.new }) (answered_result (wrong_numbers step_kinds.now step_spans.now metaspace split) out.old (fragments_outcome (model_of piece_bytes.now piece_offsets.now lookup.now fallback.now left.now right.now res.now rank.now (token_list first_bytes.now first_offsets.now first_ids.now first_lstrip.now first_rstrip.now) (token_list second_bytes.now second_offsets.now second_ids.now second_lstrip.now second_rstrip.now) step_bytes.now (steps_from step_kinds.now step_spans.now) (length step_kinds.now) (metaspace_from metaspace split)) text.now target out.old)) }
{
    match lent(
        piece_bytes,
        piece_offsets,
        lookup,
        fallback,
        left,
        right,
        res,
        rank,
        first_bytes,
        first_offsets,
        first_ids,
        first_lstrip,
        first_rstrip,
        second_bytes,
        second_offsets,
        second_ids,
        second_lstrip,
        second_rstrip,
        step_bytes,
        step_kinds,
        step_spans,
        metaspace,
        split,
    ) {
        Ok(model) => Answer::from(fragments::fragments(&model, text, target, out)),
        Err(refusal) => Answer::from(refusal),
    }
}

// `fragments::fragments_prepared`: whoever calls it answers for the model's check and for the two rows.
#[tactic(auto, unfolding(crate::specs::Numbers::answered_result))]
#[unsafe(no_mangle)]
pub extern "C" fn varitmol_fragments_prepared(
    piece_bytes: &[u8],
    piece_offsets: &[u32],
    lookup: &[u32],
    fallback: &[u32],
    left: &[u32],
    right: &[u32],
    res: &[u32],
    rank: &[u32],
    first_bytes: &[u8],
    first_offsets: &[u32],
    first_ids: &[u32],
    first_lstrip: &[bool],
    first_rstrip: &[bool],
    second_bytes: &[u8],
    second_offsets: &[u32],
    second_ids: &[u32],
    second_lstrip: &[bool],
    second_rstrip: &[bool],
    step_bytes: &[u8],
    step_kinds: &[u8],
    step_spans: &[u32],
    metaspace: u8,
    split: u8,
    adjacency: &[u64],
    index: &[u32],
    text: &[u8],
    target: usize,
    out: &mut [u32],
) -> Answer
    requires accepted { check_number (model_of piece_bytes.now piece_offsets.now lookup.now fallback.now left.now right.now res.now rank.now (token_list first_bytes.now first_offsets.now first_ids.now first_lstrip.now first_rstrip.now) (token_list second_bytes.now second_offsets.now second_ids.now second_lstrip.now second_rstrip.now) step_bytes.now (steps_from step_kinds.now step_spans.now) (length step_kinds.now) (metaspace_from metaspace split)) ≡ 0 }
    requires adjacency_derived { adjacency.now ≡ derived_adjacency (model_of piece_bytes.now piece_offsets.now lookup.now fallback.now left.now right.now res.now rank.now (token_list first_bytes.now first_offsets.now first_ids.now first_lstrip.now first_rstrip.now) (token_list second_bytes.now second_offsets.now second_ids.now second_lstrip.now second_rstrip.now) step_bytes.now (steps_from step_kinds.now step_spans.now) (length step_kinds.now) (metaspace_from metaspace split)) }
    requires index_derived { index.now ≡ derived_index (model_of piece_bytes.now piece_offsets.now lookup.now fallback.now left.now right.now res.now rank.now (token_list first_bytes.now first_offsets.now first_ids.now first_lstrip.now first_rstrip.now) (token_list second_bytes.now second_offsets.now second_ids.now second_lstrip.now second_rstrip.now) step_bytes.now (steps_from step_kinds.now step_spans.now) (length step_kinds.now) (metaspace_from metaspace split)) }
    ensures { ◌≡◌ {A = Outcome} (record { answer = result; out = out.new }) (answered_result (wrong_numbers step_kinds.now step_spans.now metaspace split) out.old (fragments_outcome (model_of piece_bytes.now piece_offsets.now lookup.now fallback.now left.now right.now res.now rank.now (token_list first_bytes.now first_offsets.now first_ids.now first_lstrip.now first_rstrip.now) (token_list second_bytes.now second_offsets.now second_ids.now second_lstrip.now second_rstrip.now) step_bytes.now (steps_from step_kinds.now step_spans.now) (length step_kinds.now) (metaspace_from metaspace split)) text.now target out.old)) }
{
    match lent(
        piece_bytes,
        piece_offsets,
        lookup,
        fallback,
        left,
        right,
        res,
        rank,
        first_bytes,
        first_offsets,
        first_ids,
        first_lstrip,
        first_rstrip,
        second_bytes,
        second_offsets,
        second_ids,
        second_lstrip,
        second_rstrip,
        step_bytes,
        step_kinds,
        step_spans,
        metaspace,
        split,
    ) {
        Ok(model) => {
            let prepared = Prepared {
                model: &model,
                adjacency,
                index,
            };
            Answer::from(fragments::fragments_prepared(&prepared, text, target, out))
        }
        Err(refusal) => Answer::from(refusal),
    }
}

// `decode::decode`.
#[tactic(auto, unfolding(crate::specs::Numbers::answered_result))]
#[unsafe(no_mangle)]
pub extern "C" fn varitmol_decode(
    piece_bytes: &[u8],
    piece_offsets: &[u32],
    lookup: &[u32],
    fallback: &[u32],
    left: &[u32],
    right: &[u32],
    res: &[u32],
    rank: &[u32],
    first_bytes: &[u8],
    first_offsets: &[u32],
    first_ids: &[u32],
    first_lstrip: &[bool],
    first_rstrip: &[bool],
    second_bytes: &[u8],
    second_offsets: &[u32],
    second_ids: &[u32],
    second_lstrip: &[bool],
    second_rstrip: &[bool],
    step_bytes: &[u8],
    step_kinds: &[u8],
    step_spans: &[u32],
    metaspace: u8,
    split: u8,
    ids: &[u32],
    out: &mut [u8],
) -> Answer
    ensures { ◌≡◌ {A = Outcome} (record { answer = result; out = out.new }) (answered_result (wrong_numbers step_kinds.now step_spans.now metaspace split) out.old (decode_outcome (model_of piece_bytes.now piece_offsets.now lookup.now fallback.now left.now right.now res.now rank.now (token_list first_bytes.now first_offsets.now first_ids.now first_lstrip.now first_rstrip.now) (token_list second_bytes.now second_offsets.now second_ids.now second_lstrip.now second_rstrip.now) step_bytes.now (steps_from step_kinds.now step_spans.now) (length step_kinds.now) (metaspace_from metaspace split)) ids.now out.old)) }
{
    match lent(
        piece_bytes,
        piece_offsets,
        lookup,
        fallback,
        left,
        right,
        res,
        rank,
        first_bytes,
        first_offsets,
        first_ids,
        first_lstrip,
        first_rstrip,
        second_bytes,
        second_offsets,
        second_ids,
        second_lstrip,
        second_rstrip,
        step_bytes,
        step_kinds,
        step_spans,
        metaspace,
        split,
    ) {
        Ok(model) => Answer::from(decode::decode(&model, ids, out)),
        Err(refusal) => Answer::from(refusal),
    }
}

// `decode::decode_checked`: whoever calls it answers for the model's check.
#[tactic(auto, unfolding(crate::specs::Numbers::answered_result))]
#[unsafe(no_mangle)]
pub extern "C" fn varitmol_decode_checked(
    piece_bytes: &[u8],
    piece_offsets: &[u32],
    lookup: &[u32],
    fallback: &[u32],
    left: &[u32],
    right: &[u32],
    res: &[u32],
    rank: &[u32],
    first_bytes: &[u8],
    first_offsets: &[u32],
    first_ids: &[u32],
    first_lstrip: &[bool],
    first_rstrip: &[bool],
    second_bytes: &[u8],
    second_offsets: &[u32],
    second_ids: &[u32],
    second_lstrip: &[bool],
    second_rstrip: &[bool],
    step_bytes: &[u8],
    step_kinds: &[u8],
    step_spans: &[u32],
    metaspace: u8,
    split: u8,
    ids: &[u32],
    out: &mut [u8],
) -> Answer
    requires { check_number (model_of piece_bytes.now piece_offsets.now lookup.now fallback.now left.now right.now res.now rank.now (token_list first_bytes.now first_offsets.now first_ids.now first_lstrip.now first_rstrip.now) (token_list second_bytes.now second_offsets.now second_ids.now second_lstrip.now second_rstrip.now) step_bytes.now (steps_from step_kinds.now step_spans.now) (length step_kinds.now) (metaspace_from metaspace split)) ≡ 0 }
    ensures { ◌≡◌ {A = Outcome} (record { answer = result; out = out.new }) (answered_result (wrong_numbers step_kinds.now step_spans.now metaspace split) out.old (decode_outcome (model_of piece_bytes.now piece_offsets.now lookup.now fallback.now left.now right.now res.now rank.now (token_list first_bytes.now first_offsets.now first_ids.now first_lstrip.now first_rstrip.now) (token_list second_bytes.now second_offsets.now second_ids.now second_lstrip.now second_rstrip.now) step_bytes.now (steps_from step_kinds.now step_spans.now) (length step_kinds.now) (metaspace_from metaspace split)) ids.now out.old)) }
{
    match lent(
        piece_bytes,
        piece_offsets,
        lookup,
        fallback,
        left,
        right,
        res,
        rank,
        first_bytes,
        first_offsets,
        first_ids,
        first_lstrip,
        first_rstrip,
        second_bytes,
        second_offsets,
        second_ids,
        second_lstrip,
        second_rstrip,
        step_bytes,
        step_kinds,
        step_spans,
        metaspace,
        split,
    ) {
        Ok(model) => Answer::from(decode::decode_checked(&model, ids, out)),
        Err(refusal) => Answer::from(refusal),
    }
}
