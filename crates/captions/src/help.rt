// What `--help` says, and what is said of arguments that are not understood.
use crate::options::argument;
use crate::output::Stream;
use std::env::Env;
use std::io;

// A print of more than 1,024 bytes would end at its first write that fails, so the text goes in parts.
const HELP: [&str; 8] = [
    "captions: text to token ids and back, by a proved tokenizer

captions                       shows the whole way of a short script; with --ids its ids alone
",
    "captions encode FILE           the ids of each line, with their pieces
captions decode FILE           each line is a row of ids, parted by spaces: the text of each
",
    "captions fragments FILE        where each line can be cut: the ids of the parts, joined, are those of the line
captions normalise FILE        each line as the model's steps leave it
",
    "captions check FILE            the lines that lose something, and what; without FILE the model alone

",
    "FILE is - for standard input. Each line is a text of its own, of at most 16384 bytes; a longer one is refused, and has to be
broken. Lines end at \\n, which belongs to no line.

",
    "--model embedded               T with a piece for every byte, letters of French and joined pieces: this one is taken
--model T, --model U           the models of rules 14.1 and 14.2
",
    "--ids                          for programs: numbers or text alone, a row for each line, and an empty one for a refusal;
                               of check the refusal's number or 0, its place, and 1 where the line changed.
                               Remarks and the last line go to standard error
--help                         this

",
    "A refusal is told in words, with its number in brackets. A proved program cannot set its exit code, which is always 0, so the last
line begins with ok or not ok, and says how many lines were refused, how many characters dropped and how many ids skipped.
",
];

pub(crate) fn tell(to: Stream) -> io::Result<()> {
    let mut wrote = Ok(());
    for part in HELP {
        wrote = print!(to; "{part}");
    }
    wrote
}

// The argument at `i` is written as it was given, as far as a path's length goes.
pub(crate) fn tell_wrong(env: &impl Env, to: Stream, i: usize) -> io::Result<()> {
    let mut word = [0u8; 4096];
    let length = argument(env, i, &mut word);
    let _ = print!(to; "not ok: '");
    let _ = to.write_all(&word[..length]);
    print!(to; "' is not understood; captions --help says what is\n")
}

pub(crate) fn not_ok(to: Stream, why: &str) -> io::Result<()> {
    println!(to; "not ok: {why}")
}
