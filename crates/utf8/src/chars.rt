// UTF-8 by RFC 3629: characters, and the longest prefix that is valid.
ghost use Rattle.std.specs.Prelude.{◌≡◌, ◌↔◌, cond, ◌∷◌, ◌+◌, ◌*◌, ◌-◌, ◌≤◌, max, length, take, drop, replicate, IsTrue};
ghost use Rattle.std.specs.Str.{IsAscii};
ghost use Rattle.utf8.specs.Lists.{within};
ghost use Rattle.utf8.specs.Chars.{tail, has_form, char_width, valid, longest_valid_prefix, code_point};
ghost use Rattle.utf8.specs.inner.Ends.{last_width};

pub fn is_within(b: u8, low: u8, high: u8) -> bool
    ensures { result ≡ within (low, high) b }
{
    (low..=high).contains(&b)
}

// The width n where the second byte of s lies from low to high and those after it, up to the n-th, are UTF8-tails; else 0.
fn width_if(s: &[u8], n: usize, low: u8, high: u8) -> usize
    requires { 2 ≤ n }
    ensures { result ≡ cond (has_form ((low, high) ∷ replicate (n - 2) tail) (drop 1 s.now)) n 0 }
{
    if s.len() < n || !is_within(s[1], low, high) {
        return 0;
    }
    if s[2..n].iter().all(|b| is_within(*b, 0x80, 0xBF)) {
        n
    } else {
        0
    }
}

// The width of the character at the head of s, 0 where none stands there. RFC 3629, section 4, by the first byte. No `Option`: the
// definitions have widths as numbers with 0 for none, and the theorems are about them.
pub fn char_width(s: &[u8]) -> usize
    ensures { result ≡ char_width s.now }
{
    let &[first, ..] = s else {
        return 0;
    };
    match first {
        0x00..=0x7F => 1,
        0xC2..=0xDF => width_if(s, 2, 0x80, 0xBF),
        0xE0 => width_if(s, 3, 0xA0, 0xBF),
        0xE1..=0xEC => width_if(s, 3, 0x80, 0xBF),
        0xED => width_if(s, 3, 0x80, 0x9F),
        0xEE..=0xEF => width_if(s, 3, 0x80, 0xBF),
        0xF0 => width_if(s, 4, 0x90, 0xBF),
        0xF1..=0xF3 => width_if(s, 4, 0x80, 0xBF),
        0xF4 => width_if(s, 4, 0x80, 0x8F),
        _ => 0,
    }
}

// The width of the character at the right end of s, 0 where none stands there (as `char_width`): a character is at most four bytes wide.
pub fn last_width(s: &[u8]) -> usize
    ensures { result ≡ last_width s.now }
{
    for k in 1..=s.len().min(4) {
        if char_width(&s[s.len() - k..]) == k {
            return k;
        }
    }
    0
}

// Whether eight bytes stand at the head of s that are characters by themselves: one test for all of them.
fn are_eight_plain(s: &[u8]) -> bool
    ensures { IsTrue result ↔ (8 ≤ length s.now × IsAscii (take 8 s.now)) }
{
    match s.first_chunk::<8>() {
        Some(eight) => eight.is_ascii(),
        None => false,
    }
}

// How long the longest prefix of s that is valid UTF-8 is.
pub fn valid_prefix(s: &[u8]) -> usize
    ensures { result ≡ length (longest_valid_prefix s.now) }
{
    let mut i = 0;
    while i < s.len() {
        if are_eight_plain(&s[i..]) {
            i += 8;
        } else {
            let w = char_width(&s[i..]);
            if w == 0 {
                return i;
            }
            i += w;
        }
    }
    i
}

pub fn is_valid(s: &[u8]) -> bool
    ensures { result ≡ valid s.now }
{
    valid_prefix(s) == s.len()
}

// A character's bits so far, and those of the next UTF8-tail.
fn joined(number: u32, b: u8) -> u32
    requires { (number ≤ 0xFFFF) × (0x80 ≤ b) }
    ensures { result ≡ number * 64 + (b - 0x80) }
{
    number * 64 + (u32::from(b) - 0x80)
}

// The number of a character, which is given alone.
pub(crate) fn number_of(character: &[u8]) -> u32
    requires { char_width character.now ≡ length character.now }
    ensures { result ≡ code_point character.now }
{
    match character {
        &[a] => u32::from(a),
        &[a, b] => joined(u32::from(a) - 0xC0, b),
        &[a, b, c] => joined(joined(u32::from(a) - 0xE0, b), c),
        &[a, b, c, d] => joined(joined(joined(u32::from(a) - 0xF0, b), c), d),
        _ => 0,
    }
}

// The width of the character at the head; a byte that begins none stands alone.
pub fn char_step(text: &[u8]) -> usize
    ensures { result ≡ max 1 (char_width text.now) }
{
    char_width(text).max(1)
}
