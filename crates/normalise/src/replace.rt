// The step Replace.
ghost use Rattle.std.specs.Prelude.{◌≡◌, ◌<◌, ◌≤◌, [], ◌++◌, length, drop};
ghost use Rattle.normalise.specs.Steps.{replaced};
ghost use Rattle.normalise.specs.inner.Fit.{Put, fitted, put};
ghost use Rattle.normalise.specs.inner.Heads.{replaced-none};

use crate::copy::copy_at;
use crate::exchange::{Exchange, put_exchanged};
use utf8::chars::char_step;
use utf8::edges::starts_with;

// Occurrences of a pattern that is not empty, for a content.
#[derive(Clone, Copy)]
struct Occurrences<'a> {
    pattern: &'a [u8],
    content: &'a [u8],
    ghost some: { 0 < length pattern.now },
}

impl<'a> Exchange for Occurrences<'a> {
    ghost content = { λ e. e.content.now };

    ghost exchanged = { λ e. replaced e.pattern.now e.content.now };

    ghost ends = { λ e. replaced-none e.pattern.now e.content.now e.some };

    fn content(&self) -> &[u8] {
        self.content
    }

    fn found(&self, rest: &[u8]) -> Option<usize> {
        if starts_with(rest, self.pattern) {
            Some(self.pattern.len())
        } else {
            None
        }
    }
}

// The measure where the pattern is empty. This is no `Exchange`: the content stands before each character and at the end, in place
// of nothing.
fn inserted_length(content: &[u8], text: &[u8], room: usize) -> Option<usize>
    ensures { result ≡ fitted (length (replaced [] content.now text.now)) room }
{
    let mut left = room;
    let mut rest = text;
    while !rest.is_empty() {
        let (character, others) = rest.split_at(char_step(rest));
        left = left
            .checked_sub(content.len())?
            .checked_sub(character.len())?;
        rest = others;
    }
    left = left.checked_sub(content.len())?;
    Some(room - left)
}

// The writer where the pattern is empty.
fn write_inserted(content: &[u8], text: &[u8], out: &mut [u8])
    requires { length (replaced [] content.now text.now) ≤ length out.old }
    ensures { out.new ≡ replaced [] content.now text.now ++ drop (length (replaced [] content.now text.now)) out.old }
{
    let mut at = 0;
    let mut rest = text;
    while !rest.is_empty() {
        let (character, others) = rest.split_at(char_step(rest));
        copy_at(out, at, content);
        at += content.len();
        copy_at(out, at, character);
        at += character.len();
        rest = others;
    }
    copy_at(out, at, content);
}

pub fn replace(
    pattern: &[u8],
    content: &[u8],
    text: &[u8],
    room: usize,
    out: &mut [u8],
) -> Option<usize>
    ensures { ◌≡◌ {A = Put} (record { length = result; out = out.new }) (put (replaced pattern.now content.now text.now) room out.old) }
{
    if !pattern.is_empty() {
        return put_exchanged(&Occurrences { pattern, content }, &[], text, room, out);
    }
    let n = inserted_length(content, text, room.min(out.len()))?;
    write_inserted(content, text, out);
    Some(n)
}
