// What is written of a line and its answers.
use crate::job::Job;
use crate::lines::LONGEST;
use crate::output::Stream;
use model::tables::part;
use model::{Refusal, Strings};
use std::fmt::Display;
use std::io::Write as _;
use std::{fmt, io};

// Why a line is refused.
#[derive(Clone, Copy)]
pub(crate) enum Reason {
    Call(Refusal),
    // The line is no row of ids, from a byte on.
    NoIds { place: usize },
    TooLong,
}

impl From<Refusal> for Reason {
    fn from(refusal: Refusal) -> Reason {
        Reason::Call(refusal)
    }
}

impl Reason {
    // 13 is none of the calls'.
    pub(crate) fn number(self) -> u32 {
        match self {
            Reason::Call(refusal) => refusal.number(),
            Reason::NoIds { .. } => 13,
            Reason::TooLong => Refusal::WrongSize.number(),
        }
    }

    pub(crate) fn place(self) -> usize {
        match self {
            Reason::Call(Refusal::BadText { place }) => place,
            Reason::NoIds { place } => place,
            _ => 0,
        }
    }
}

// What a call's refusal says.
fn words(refusal: Refusal) -> &'static str {
    match refusal {
        Refusal::WrongSize => {
            "something is longer than its limit, or columns of a table differ in length"
        }
        Refusal::OffsetsAstray => "the model's offsets do not fit its bytes",
        Refusal::BadPiece => "a piece of the model is neither valid UTF-8 nor a single byte",
        Refusal::BadLookup => "the model's lookup list is not in byte order, or misses a piece",
        Refusal::BadFallback => "a fallback id of the model is not the piece of its byte",
        Refusal::BadRow => "a merge row of the model is out of order, or does not join its sides",
        Refusal::BadToken => "a token of the model is empty or not valid UTF-8",
        Refusal::BadStep => "a string of the model's steps is not valid UTF-8",
        Refusal::BadText { .. } => "the text is not valid UTF-8",
        Refusal::NoRawPath => "the model has no raw path, which fragments need",
        Refusal::ScratchTooShort => {
            "a step makes the line longer than captions has room for: break it"
        }
        Refusal::ResultTooShort => {
            "the result is longer than captions has room for: break the line"
        }
    }
}

const NO_IDS: &str = "the line is not a row of ids, numbers up to 4294967295 and spaces,";

// The end of a row: why, and the reason's number in brackets.
impl Display for Reason {
    fn fmt<W: fmt::Write>(&self, f: &mut fmt::Formatter<W>) -> fmt::Result {
        match self {
            Reason::TooLong => {
                return write!(
                    f,
                    "refused: a line has at most {LONGEST} bytes: break it (1)\n"
                );
            }
            Reason::NoIds { place } => write!(f, "refused: {NO_IDS} from byte {place} on")?,
            Reason::Call(refusal @ Refusal::BadText { place }) => write!(
                f,
                "refused: {} from byte {place} on",
                words(*refusal)
            )?,
            Reason::Call(refusal) => write!(f, "refused: {}", words(*refusal))?,
        }
        write!(f, " ({})\n", self.number())
    }
}

// Results for programs stand alone on standard output, so remarks go to standard error beside them.
pub(crate) fn remarks(job: Job<'_>) -> Stream {
    if job.bare { job.errors } else { job.output }
}

pub(crate) fn text_line(to: Stream, line: usize, text: &[u8]) -> io::Result<()> {
    let _ = print!(to; "line {line}: ");
    row_of_text(to, text)
}

pub(crate) fn row_of_text(to: Stream, text: &[u8]) -> io::Result<()> {
    let _ = to.write_all(text);
    println!(to;)
}

// A byte that is no character alone, or that moves the cursor, is written as its number.
fn piece(to: Stream, text: &[u8]) -> io::Result<()> {
    match text {
        [byte] if !(33..=126).contains(byte) => byte_number(to, *byte),
        _ => to.write_all(text),
    }
}

// Both digits go out in one write: a print would part them.
fn byte_number(to: Stream, byte: u8) -> io::Result<()> {
    let mut digits = [0u8; 2];
    let mut room = &mut digits[..];
    let _ = write!(room, "{byte:02x}");
    let _ = to.write_all(b"<");
    let _ = to.write_all(&digits);
    to.write_all(b">")
}

pub(crate) fn ids_with_pieces(to: Stream, pieces: &Strings<'_>, ids: &[u32]) -> io::Result<()> {
    for id in ids {
        let _ = print!(to; " {id}:");
        let _ = piece(to, pieces.get(*id as usize));
    }
    println!(to;)
}

// Numbers as programs read them, parted by single spaces.
pub(crate) fn numbers(to: Stream, row: &[u32]) -> io::Result<()> {
    for (i, number) in row.iter().enumerate() {
        if 0 < i {
            let _ = to.write_all(b" ");
        }
        let _ = to.print(*number);
    }
    println!(to;)
}

// What programs get of a line by `check`: the number of its refusal, the place, and whether it comes back as another.
pub(crate) fn checked(to: Stream, number: u32, place: usize, changed: bool) -> io::Result<()> {
    if changed {
        print!(to; "{number} {place} 1\n")
    } else {
        print!(to; "{number} {place} 0\n")
    }
}

// Pairs of numbers as ranges of the text.
pub(crate) fn ranges(to: Stream, text: &[u8], row: &[u32]) -> io::Result<()> {
    for range in row.chunks_exact(2) {
        let [start, end] = range else { break };
        let _ = print!(to; " {start}..{end} '");
        let _ = to.write_all(part(text, *start as usize, *end as usize));
        let _ = print!(to; "'");
    }
    println!(to;)
}
