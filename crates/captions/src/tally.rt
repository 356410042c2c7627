// What came of the lines so far.
use crate::options::Command;
use crate::output::Stream;
use model::Counts;
use std::io;

#[derive(Clone, Copy, Default)]
pub(crate) struct Tally {
    pub lines: usize,
    bytes: usize,
    refused: usize,
    drops: usize,
    skips: usize,
    // Lines whose ids do not decode to them again.
    changed: usize,
    // Whether standard output did not take all that was written to it.
    unwritten: bool,
}

const MIB: usize = 1048576;

impl Tally {
    // Counts a line, and says on standard error when another MiB is done.
    pub(crate) fn count_line(&mut self, errors: Stream, bytes: usize) {
        let before = self.bytes / MIB;
        self.lines = self.lines.saturating_add(1);
        self.bytes = self.bytes.saturating_add(bytes).saturating_add(1);
        let done = self.bytes / MIB;
        if before < done {
            let _ = print!(errors; "captions: {done} MiB done, {} lines\n", self.lines);
        }
    }

    pub(crate) fn count_refusal(&mut self) {
        self.refused = self.refused.saturating_add(1);
    }

    pub(crate) fn count_change(&mut self) {
        self.changed = self.changed.saturating_add(1);
    }

    // What an accepted call dropped and skipped.
    pub(crate) fn count(&mut self, counts: Counts) {
        self.drops = self.drops.saturating_add(counts.drops);
        self.skips = self.skips.saturating_add(counts.skips);
    }

    pub(crate) fn note(&mut self, wrote: io::Result<()>) {
        if wrote.is_err() {
            self.unwritten = true;
        }
    }

    // Whether nothing was refused, lost or changed.
    fn is_well(&self) -> bool {
        !self.unwritten
            && self.refused == 0
            && self.drops == 0
            && self.skips == 0
            && self.changed == 0
    }

    // It is in two pieces, of which the second may be nothing.
    fn verdict(&self, failed: bool) -> (&'static str, &'static str) {
        if failed {
            ("not ok: reading failed, so that lines are missing: ", "")
        } else if self.is_well() {
            ("ok: ", "")
        } else if self.unwritten {
            ("not ok: ", "standard output did not take all: ")
        } else {
            ("not ok: ", "")
        }
    }

    // The last line of every run that has a model.
    pub(crate) fn tell(&self, to: Stream, command: Command, failed: bool) -> io::Result<()> {
        let (verdict, why) = self.verdict(failed);
        let _ = print!(to; "{verdict}{why}");
        let _ = print!(to;
            "lines {}, refused {}, characters dropped {}, ids skipped {}",
            self.lines, self.refused, self.drops, self.skips
        );
        if command.goes_back() {
            let _ = print!(to; ", lines changed on the way back {}", self.changed);
        }
        println!(to;)
    }
}
