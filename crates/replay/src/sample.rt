// The sample's bytes, numbers and flags. A place that the sample does not have reads as 0, and a part that it does not have as an
// empty one: the sum over the sample tells such damage.
use model::tables::number_at;

// Stands before a number that takes four bytes.
const IN_FULL: u8 = 255;

// What the rows of a sample name parts of.
#[derive(Clone, Copy)]
pub(crate) struct Sample<'a> {
    pub bytes: &'a [u8],
    pub numbers: &'a [u32],
    pub flags: &'a [bool],
}

pub(crate) fn place_at(numbers: &[u32], at: usize) -> usize {
    number_at(numbers, at) as usize
}

// Four bytes, the lowest first.
pub(crate) fn word_at(bytes: &[u8], at: usize) -> u32 {
    match bytes.get(at..) {
        Some([a, b, c, d, ..]) => u32::from_le_bytes([*a, *b, *c, *d]),
        _ => 0,
    }
}

// The number that packed ones begin with, and the others.
fn unpacked(bytes: &[u8]) -> (u32, &[u8]) {
    match bytes {
        [] => (0, bytes),
        [IN_FULL, a, b, c, d, rest @ ..] => (u32::from_le_bytes([*a, *b, *c, *d]), rest),
        [IN_FULL, ..] => (0, &[]),
        [value, rest @ ..] => (u32::from(*value), rest),
    }
}

// Fills `numbers`, and answers what is left.
pub(crate) fn unpack<'a>(bytes: &'a [u8], numbers: &mut [u32]) -> &'a [u8] {
    let mut rest = bytes;
    for number in numbers {
        let (value, next) = unpacked(rest);
        *number = value;
        rest = next;
    }
    rest
}

pub(crate) fn unpack_flags(bytes: &[u8], flags: &mut [bool]) {
    for (flag, byte) in flags.iter_mut().zip(bytes) {
        *flag = *byte != 0;
    }
}

// Adler's sum, as zlib has it.
pub(crate) fn sum_of(bytes: &[u8]) -> u32 {
    let mut low = 1u32;
    let mut high = 0u32;
    for byte in bytes {
        low = (low + u32::from(*byte)) % 65521;
        high = (high + low) % 65521;
    }
    high << 16 | low
}

pub(crate) fn between<T>(items: &[T], from: usize, to: usize) -> &[T] {
    match items.get(from..to) {
        Some(part) => part,
        None => &items[..0],
    }
}

// The part whose start and end stand in `row` at `at` and behind it.
fn part<'a, T>(items: &'a [T], row: &[u32], at: usize) -> &'a [T] {
    match row.get(at..) {
        Some([from, to, ..]) => between(items, *from as usize, *to as usize),
        _ => &items[..0],
    }
}

impl<'a> Sample<'a> {
    pub(crate) fn bytes(&self, row: &[u32], at: usize) -> &'a [u8] {
        part(self.bytes, row, at)
    }

    pub(crate) fn numbers(&self, row: &[u32], at: usize) -> &'a [u32] {
        part(self.numbers, row, at)
    }

    pub(crate) fn flags(&self, row: &[u32], at: usize) -> &'a [bool] {
        part(self.flags, row, at)
    }
}
