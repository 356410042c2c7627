// Unicode's White_Space, and texts trimmed of it.
ghost use Rattle.std.specs.Prelude.{◌≡◌};
ghost use Rattle.utf8.specs.Lists.{within};
ghost use Rattle.utf8.specs.WhiteSpace.{is_white_space, trim_start, trim_end};
ghost use Rattle.utf8.specs.inner.Ends.{white_width, white_end};

use super::chars::{char_width, last_width, number_of};

// Code points from low to high, both included. No `..=`: a constant can hold none.
#[derive(Clone, Copy)]
pub struct Range {
    pub low: u32,
    pub high: u32,
}

// The characters that have the property White_Space.
const WHITE_SPACE: [Range; 10] = [
    Range {
        low: 0x0009,
        high: 0x000D,
    },
    Range {
        low: 0x0020,
        high: 0x0020,
    },
    Range {
        low: 0x0085,
        high: 0x0085,
    },
    Range {
        low: 0x00A0,
        high: 0x00A0,
    },
    Range {
        low: 0x1680,
        high: 0x1680,
    },
    Range {
        low: 0x2000,
        high: 0x200A,
    },
    Range {
        low: 0x2028,
        high: 0x2029,
    },
    Range {
        low: 0x202F,
        high: 0x202F,
    },
    Range {
        low: 0x205F,
        high: 0x205F,
    },
    Range {
        low: 0x3000,
        high: 0x3000,
    },
];

pub fn is_white_space(code: u32) -> bool
    ensures { result ≡ is_white_space code }
{
    WHITE_SPACE
        .iter()
        .any(|range| (range.low..=range.high).contains(&code))
}

// The width of the White_Space character at the head of s, 0 where none stands there (as `chars::char_width`).
pub fn white_width(s: &[u8]) -> usize
    ensures { result ≡ white_width s.now }
{
    let w = char_width(s);
    if w != 0 && is_white_space(number_of(&s[..w])) {
        w
    } else {
        0
    }
}

// The part of s without White_Space at its left end.
pub fn trim_start(s: &[u8]) -> &[u8]
    ensures { result.now ≡ trim_start s.now }
{
    let mut i = 0;
    while i < s.len() {
        let w = white_width(&s[i..]);
        if w == 0 {
            return &s[i..];
        }
        i += w;
    }
    &s[i..]
}

// The width of the White_Space character at the right end of s, 0 where none stands there (as `chars::char_width`).
pub fn white_end(s: &[u8]) -> usize
    ensures { result ≡ white_end s.now }
{
    white_width(&s[s.len() - last_width(s)..])
}

// The part of s without White_Space at its right end.
pub fn trim_end(s: &[u8]) -> &[u8]
    ensures { result.now ≡ trim_end s.now }
{
    let mut end = s.len();
    while 0 < end {
        let w = white_end(&s[..end]);
        if w == 0 {
            return &s[..end];
        }
        end -= w;
    }
    &s[..end]
}
