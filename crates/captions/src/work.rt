// What a command does with one line, by a model that is checked and prepared.
ghost use Rattle.model.specs.Model.{columns};
ghost use Rattle.captions.specs.Ready.{Ready};

use crate::ids::parse;
use crate::job::Job;
use crate::lines::LONGEST;
use crate::options::Command;
use crate::report;
use crate::tally::Tally;
use crate::tell::Reason;
use model::tables::part;
use prepare::Prepared;

// Ids are at most twice as many as a line's bytes, and two more; normalised text is at most three times as long, and three bytes more.
const IDS: usize = 2 * LONGEST + 2;

const BYTES: usize = 3 * LONGEST + 3;

// A model that the check accepts, with the two rows that are derived of it.
#[derive(Clone, Copy)]
pub(crate) struct Checked<'a> {
    pub prepared: &'a Prepared<'a>,
    ghost ready: { Ready (columns prepared.now.model.now) prepared.now.adjacency.now prepared.now.index.now },
}

// The buffers that every line is lent.
#[derive(Drop)]
pub(crate) struct Buffers {
    cells: [u32; IDS],
    bytes: [u8; BYTES],
    a: [u8; BYTES],
    b: [u8; BYTES],
}

impl Buffers {
    pub(crate) fn new() -> Buffers {
        Buffers {
            cells: [0; IDS],
            bytes: [0; BYTES],
            a: [0; BYTES],
            b: [0; BYTES],
        }
    }
}

fn cut(
    model: &Checked<'_>,
    job: Job<'_>,
    text: &[u8],
    ranges: &mut [u32],
    tally: &mut Tally,
) -> Result<(), Reason> {
    let counts = fragments::fragments_prepared(model.prepared, text, 0, ranges)?;
    tally.count(counts);
    tally.note(report::cut(job, tally.lines, text, part(ranges, 0, counts.written)));
    Ok(())
}

// The ids stay in the cells; answers how many there are.
fn encode(
    model: &Checked<'_>,
    job: Job<'_>,
    text: &[u8],
    lent: &mut Buffers,
    tally: &mut Tally,
) -> Result<usize, Reason> {
    let counts = encode::encode_prepared(
        model.prepared,
        text,
        false,
        &mut lent.cells,
        &mut lent.a,
        &mut lent.b,
    )?;
    tally.count(counts);
    let ids = part(&lent.cells, 0, counts.written);
    tally.note(report::encoded(
        job,
        tally.lines,
        text,
        &model.prepared.model.pieces,
        counts,
        ids,
    ));
    Ok(counts.written)
}

// The first `count` cells are ids.
fn decode(
    model: &Checked<'_>,
    job: Job<'_>,
    text: &[u8],
    count: usize,
    lent: &mut Buffers,
    tally: &mut Tally,
) -> Result<(), Reason> {
    let counts = decode::decode_checked(
        model.prepared.model,
        part(&lent.cells, 0, count),
        &mut lent.bytes,
    )?;
    tally.count(counts);
    let back = part(&lent.bytes, 0, counts.written);
    if job.command != Command::Decode && back != text {
        tally.count_change();
    }
    tally.note(report::decoded(job, tally.lines, text, counts, back));
    Ok(())
}

fn normalise(
    model: &Checked<'_>,
    job: Job<'_>,
    text: &[u8],
    lent: &mut Buffers,
    tally: &mut Tally,
) -> Result<(), Reason> {
    let counts = normalise::normalise_checked(
        model.prepared.model,
        text,
        true,
        &mut lent.bytes,
        &mut lent.a,
        &mut lent.b,
    )?;
    tally.count(counts);
    tally.note(report::written(
        job,
        tally.lines,
        counts,
        part(&lent.bytes, 0, counts.written),
    ));
    Ok(())
}

// Does with a line what the command says. What is told before a call refuses stays told.
pub(crate) fn work(
    model: &Checked<'_>,
    job: Job<'_>,
    text: &[u8],
    lent: &mut Buffers,
    tally: &mut Tally,
) -> Result<(), Reason> {
    match job.command {
        Command::Show => {
            cut(model, job, text, &mut lent.cells, tally)?;
            let count = encode(model, job, text, lent, tally)?;
            decode(model, job, text, count, lent, tally)
        }
        Command::Check => {
            let count = encode(model, job, text, lent, tally)?;
            decode(model, job, text, count, lent, tally)
        }
        Command::Encode => {
            encode(model, job, text, lent, tally)?;
            Ok(())
        }
        Command::Decode => {
            let count = parse(text, &mut lent.cells)?;
            decode(model, job, text, count, lent, tally)
        }
        Command::Fragments => cut(model, job, text, &mut lent.cells, tally),
        Command::Normalise => normalise(model, job, text, lent, tally),
    }
}
