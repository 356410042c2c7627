// What a run writes to. A stream that fails once may take what comes next, and then at least the row's end has to stand there, so that the next row
// begins on a line of its own. So a write that fails ends no row: each is tried, and the last one's answer is the row's.
use std::fmt::{Display, Write as _};
use std::io::{Stderr, Stdout, Write};
use std::{fmt, io};

#[derive(Clone, Copy)]
pub(crate) enum Stream {
    Output(Stdout),
    Errors(Stderr),
}

// What is printed goes out piece by piece, a literal or a value at a time, so a literal is what a failed write loses: to join two or part one changes
// that. Where a row ends with words, its `\n` is a part of them, so that they decide whether the row was taken.
#[derive(Drop)]
struct Pieces {
    to: Stream,
    wrote: io::Result<()>,
}

impl fmt::Write for Pieces {
    fn write_str(&mut self, piece: &str) -> fmt::Result {
        self.wrote = self.to.write_all(piece.as_bytes());
        Ok(())
    }
}

impl Print for Stream {
    fn print<D: Display + Drop>(&self, value: D) -> io::Result<()> {
        let mut pieces = Pieces {
            to: *self,
            wrote: Ok(()),
        };
        let _ = write!(pieces, "{value}");
        pieces.wrote
    }

    fn println<D: Display + Drop>(&self, value: D) -> io::Result<()> {
        let _ = self.print(value);
        self.write_all(b"\n")
    }

    fn write_all(&self, bytes: &[u8]) -> io::Result<()> {
        match self {
            Stream::Output(output) => Print::write_all(output, bytes),
            Stream::Errors(errors) => Print::write_all(errors, bytes),
        }
    }
}

// The system's words for an error, without the number that follows in brackets.
fn words(text: &[u8]) -> &[u8] {
    match text.iter().position(|byte| *byte == b'(') {
        Some(bracket) if 0 < bracket => &text[..bracket - 1],
        _ => match text.iter().position(|byte| *byte == 0) {
            Some(end) => &text[..end],
            None => text,
        },
    }
}

// What failed, and why.
pub(crate) fn fail(to: Stream, what: &[u8], error: io::Error) -> io::Result<()> {
    let mut text = [0u8; 128];
    let mut room = &mut text[..];
    let _ = write!(room, "{error}");
    let _ = Print::write_all(&to, what);
    let _ = print!(to; ": ");
    let _ = Print::write_all(&to, words(&text));
    println!(to;)
}
