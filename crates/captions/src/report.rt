// What a run writes: of the model, of each line, and at the end.
use crate::job::Job;
use crate::options::Command;
use crate::output::Stream;
use crate::tell;
use crate::tell::Reason;
use model::{Counts, Model, Refusal, Strings};
use std::io;

fn model_sizes(to: Stream, job: Job<'_>, model: &Model<'_>) -> io::Result<()> {
    print!(to;
        "the model {}, {} pieces and {} merge rows, is ",
        job.name,
        model.pieces.len(),
        model.rows.left.len()
    )
}

pub(crate) fn model_refused(
    to: Stream,
    job: Job<'_>,
    model: &Model<'_>,
    refusal: Refusal,
) -> io::Result<()> {
    let _ = print!(to; "not ok: ");
    let _ = model_sizes(to, job, model);
    print!(to; "{}", Reason::Call(refusal))
}

// Says that the model was accepted, where that was asked for.
pub(crate) fn model_accepted(to: Stream, job: Job<'_>, model: &Model<'_>) -> io::Result<()> {
    match job.command {
        Command::Show => {
            let _ = model_sizes(to, job, model);
            print!(to; "accepted\n\n")
        }
        Command::Check => {
            let _ = model_sizes(to, job, model);
            print!(to; "accepted (0)\n")
        }
        _ => Ok(()),
    }
}

// Programs get an empty row, but by `check` the number and place.
pub(crate) fn refused(job: Job<'_>, line: usize, reason: Reason) -> io::Result<()> {
    let _ = print!(tell::remarks(job); "line {line}: {reason}");
    if !job.bare {
        return Ok(());
    }
    if job.command == Command::Check {
        return tell::checked(job.output, reason.number(), reason.place(), false);
    }
    println!(job.output;)
}

pub(crate) fn encoded(
    job: Job<'_>,
    line: usize,
    text: &[u8],
    pieces: &Strings<'_>,
    counts: Counts,
    ids: &[u32],
) -> io::Result<()> {
    if job.command == Command::Check {
        return Ok(());
    }
    if job.command == Command::Encode {
        if job.bare {
            return tell::numbers(job.output, ids);
        }
        let _ = tell::text_line(job.output, line, text);
    }
    let _ = print!(job.output; "  ids      ");
    let _ = tell::ids_with_pieces(job.output, pieces, ids);
    print!(job.output;
        "  dropped   {} characters that the model has no piece for\n",
        counts.drops
    )
}

pub(crate) fn cut(job: Job<'_>, line: usize, text: &[u8], ranges: &[u32]) -> io::Result<()> {
    if job.bare {
        return tell::numbers(job.output, ranges);
    }
    let _ = tell::text_line(job.output, line, text);
    let _ = print!(job.output; "  fragments");
    tell::ranges(job.output, text, ranges)
}

// The text that ids gave: below its line where that is shown, compared with it by `check`, and else alone.
pub(crate) fn decoded(
    job: Job<'_>,
    line: usize,
    text: &[u8],
    counts: Counts,
    back: &[u8],
) -> io::Result<()> {
    match job.command {
        Command::Show => {
            let _ = print!(job.output; "  decoded   ");
            let _ = job.output.write_all(back);
            print!(job.output; "\n\n")
        }
        Command::Check => compared(job, line, text, back),
        _ => written(job, line, counts, back),
    }
}

fn compared(job: Job<'_>, line: usize, text: &[u8], back: &[u8]) -> io::Result<()> {
    let changed = back != text;
    if changed {
        let _ = told_change(tell::remarks(job), line, text, back);
    }
    if job.bare {
        return tell::checked(job.output, 0, 0, changed);
    }
    Ok(())
}

fn told_change(to: Stream, line: usize, text: &[u8], back: &[u8]) -> io::Result<()> {
    let _ = print!(to; "line {line}: ");
    let _ = print!(to; "changed\n  given      ");
    let _ = to.write_all(text);
    let _ = print!(to; "\n  comes back ");
    tell::row_of_text(to, back)
}

// What decode or normalise wrote.
pub(crate) fn written(job: Job<'_>, line: usize, counts: Counts, text: &[u8]) -> io::Result<()> {
    if job.bare {
        return tell::row_of_text(job.output, text);
    }
    let wrote = tell::text_line(job.output, line, text);
    if counts.skips == 0 {
        return wrote;
    }
    print!(job.output;
        "  skipped   {} ids that the model has no piece for\n",
        counts.skips
    )
}
