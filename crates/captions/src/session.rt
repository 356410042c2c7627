// A model is checked and prepared once, and then used for every line. Wherever it comes from, it comes here.
ghost use Rattle.std.specs.Prelude.{◌≡◌};
ghost use Rattle.model.specs.Check.{check_number};
ghost use Rattle.model.specs.Model.{columns};

use crate::job::Job;
use crate::lines::{Line, Lines};
use crate::tally::Tally;
use crate::tell::Reason;
use crate::work::{Buffers, Checked, work};
use crate::{report, tell};
use model::Model;
use prepare::Prepared;

fn refuse(job: Job<'_>, reason: Reason, tally: &mut Tally) {
    tally.count_refusal();
    tally.note(report::refused(job, tally.lines, reason));
}

// A proved loop has to end, and nothing says that what is read does: the turns are more than any run takes.
fn all_lines(model: &Checked<'_>, job: Job<'_>) {
    let mut lent = Buffers::new();
    let mut lines = Lines::new();
    let mut tally = Tally::default();
    for _ in 0..u64::MAX {
        match lines.next(job) {
            Line::End => break,
            Line::More => {}
            Line::TooLong(length) => {
                tally.count_line(job.errors, length);
                refuse(job, Reason::TooLong, &mut tally);
            }
            Line::Whole(text) => {
                tally.count_line(job.errors, text.len());
                if let Err(reason) = work(model, job, text, &mut lent, &mut tally) {
                    refuse(job, reason, &mut tally);
                }
            }
        }
    }
    if tally
        .tell(tell::remarks(job), job.command, lines.has_failed())
        .is_err()
    {
        let _ = print!(job.errors; "not ok: standard output did not take all\n");
    }
}

// Prepares a model that the check accepts, and goes through the lines.
fn run_accepted(model: &Model<'_>, job: Job<'_>)
    requires { check_number (columns model.now) ≡ 0 }
{
    let mut adjacency = [0u64; prepare::ADJACENCY_LEN];
    let mut index = [0u32; prepare::INDEX_LEN];
    // The rows are long enough, so nothing is refused.
    let _ = prepare::prepare_checked(model, &mut adjacency, &mut index);
    let prepared = Prepared {
        model,
        adjacency: &adjacency,
        index: &index,
    };
    all_lines(
        &Checked {
            prepared: &prepared,
        },
        job,
    );
}

pub(crate) fn run(model: &Model<'_>, job: Job<'_>) {
    let to = tell::remarks(job);
    match model::check(model) {
        Ok(()) => {
            let _ = report::model_accepted(to, job, model);
            run_accepted(model, job);
        }
        Err(refusal) => {
            let _ = report::model_refused(to, job, model, refusal);
        }
    }
}
