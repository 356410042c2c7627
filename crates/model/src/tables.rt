// Reading the lent tables: numbers of a column, parts of bytes, and the strings that lie end to end.
ghost use Rattle.std.specs.Prelude.{◌≡◌, [], ◌-◌, length, get_or};
ghost use Rattle.std.proofs.Math.Seq.{slice};
ghost use Rattle.model.specs.Model.{strings, strings_of, step_string};

use crate::{Span, Strings};

// The cells from `start` up to `stop`, as far as there are any; a slice's `get` would give none of them where some are missing.
pub fn part<T>(cells: &[T], start: usize, stop: usize) -> &[T]
    ensures { result.now ≡ slice start stop cells.now }
{
    if stop <= start {
        return &cells[..0];
    }
    if stop <= cells.len() {
        return &cells[start..stop];
    }
    if start <= cells.len() {
        return &cells[start..];
    }
    &cells[..0]
}

// The number at `i` of a column, 0 past its end.
pub fn number_at(column: &[u32], i: usize) -> u32
    ensures { result ≡ get_or column.now i 0 }
{
    if i < column.len() { column[i] } else { 0 }
}

impl<'a> Strings<'a> {
    // How many strings there are.
    pub fn len(&self) -> usize
        ensures { result ≡ length self.now.offsets.now - 1 }
    {
        self.offsets.len().saturating_sub(1)
    }

    // The string at `i`; the empty part where there is none.
    pub fn get(&self, i: usize) -> &'a [u8]
        ensures { result.now ≡ get_or (strings_of self.now) i [] }
    {
        string_at(self.bytes, self.offsets, i)
    }
}

// The string at `i` of those that `offsets` cuts `bytes` into; the empty part where there is none.
pub fn string_at<'a>(bytes: &'a [u8], offsets: &[u32], i: usize) -> &'a [u8]
    ensures { result.now ≡ get_or (strings bytes.now offsets.now) i [] }
{
    if offsets.len() <= i {
        return &bytes[..0];
    }
    let next = i + 1;
    if offsets.len() <= next {
        return &bytes[..0];
    }
    part(bytes, offsets[i] as usize, offsets[next] as usize)
}

// The string of the step bytes that a span names.
pub fn string_of(step_bytes: &[u8], span: Span) -> &[u8]
    ensures { result.now ≡ step_string step_bytes.now span }
{
    let start = span.place as usize;
    part(step_bytes, start, start + span.len as usize)
}
