// The lines of what is read, one after the other, in one buffer.
ghost use Rattle.std.specs.Prelude.{◌≤◌, length, IfOk};

use crate::job::Job;
use crate::output::fail;
use crate::script::SCRIPT;
use model::tables::part;
use std::fs::File;
use std::io;
use std::io::{Read, Stdin};

// Where lines are read from.
#[derive(Clone, Copy)]
pub(crate) enum Source<'a> {
    Nowhere,
    Script,
    Input(Stdin),
    File(&'a File),
}

// The longest line of a file. The buffer holds its line end too.
pub(crate) const LONGEST: usize = 16384;

// The buffer is longer than a line by its line end.
const ROOM: usize = LONGEST + 1;

#[derive(Drop)]
pub(crate) struct Lines {
    buffer: [u8; ROOM],
    // Where it holds what is read and not yet taken.
    start: usize,
    end: usize,
    // Whether nothing more comes, and whether that is so because reading failed.
    ended: bool,
    failed: bool,
    // Whether what comes up to the next line end belongs to a line that is too long.
    skipping: bool,
}

#[derive(Clone, Copy)]
pub(crate) enum Line<'a> {
    Whole(&'a [u8]),
    // No line yet: the buffer was filled again.
    More,
    // So many bytes were read of it.
    TooLong(usize),
    End,
}

fn read_from(source: Source<'_>, rest: &mut [u8]) -> io::Result<usize>
    ensures { IfOk result (λ n. n ≤ length rest.new) }
{
    match source {
        Source::Nowhere => Ok(0),
        Source::Script => {
            let script = SCRIPT.as_bytes();
            let count = script.len().min(rest.len());
            rest[..count].copy_from_slice(&script[..count]);
            Ok(count)
        }
        Source::Input(mut input) => input.read(rest),
        Source::File(mut file) => file.read(rest),
    }
}

// Moves what stands from `from` up to `to` to the front, and answers how much that is.
fn move_to_front(bytes: &mut [u8], from: usize, to: usize) -> usize
    ensures { result ≤ length bytes.new }
{
    if to < from || bytes.len() < to {
        return 0;
    }
    bytes.copy_within(from..to, 0);
    to - from
}

impl Lines {
    pub(crate) fn new() -> Lines {
        Lines {
            buffer: [0; ROOM],
            start: 0,
            end: 0,
            ended: false,
            failed: false,
            skipping: false,
        }
    }

    pub(crate) fn has_failed(&self) -> bool {
        self.failed
    }

    // Moves what is still to be taken to the front, and reads behind it. The script comes at once.
    fn fill(&mut self, job: Job<'_>) {
        let kept = move_to_front(&mut self.buffer, self.start, self.end);
        self.start = 0;
        self.end = kept;
        match read_from(job.source, &mut self.buffer[kept..]) {
            Ok(0) => self.ended = true,
            Ok(more) => self.end = kept + more,
            Err(error) => {
                let _ = fail(job.errors, b"captions: reading", error);
                self.ended = true;
                self.failed = true;
            }
        }
        if let Source::Script = job.source {
            self.ended = true;
        }
    }

    // All that stands in the buffer is taken.
    fn clear(&mut self) {
        self.start = 0;
        self.end = 0;
    }

    pub(crate) fn next(&mut self, job: Job<'_>) -> Line<'_> {
        let (start, end) = (self.start, self.end);
        let waiting = part(&self.buffer, start, end);
        if let Some(length) = waiting.iter().position(|byte| *byte == b'\n') {
            self.start = start + length + 1;
            if self.skipping {
                self.skipping = false;
                return Line::More;
            }
            return Line::Whole(part(&self.buffer, start, start + length));
        }
        if self.ended {
            self.clear();
            // The last line has no end.
            if end <= start || self.skipping {
                return Line::End;
            }
            return Line::Whole(part(&self.buffer, start, end));
        }
        if start == 0 && ROOM <= end {
            self.clear();
            if self.skipping {
                return Line::More;
            }
            self.skipping = true;
            return Line::TooLong(end);
        }
        self.fill(job);
        Line::More
    }
}
