// Bytes put into the buffer from a place on, as far as there are cells: in a buffer without cells they are only counted.
// The buffer and the place stay two parameters: a struct that holds a `&mut` asks each function for a clause on its name, and is no plainer.
ghost use Rattle.std.specs.Prelude.{◌≡◌, false, not, [], ◌∷◌, ◌++◌, ◌+◌, ◌*◌, ◌≤◌, ◌<◌, length, replicate};
ghost use Rattle.utf8.specs.Lists.{join};
ghost use Rattle.decode.specs.Decode.{replacement};
ghost use Rattle.decode.specs.inner.Feeding.{is_open, is_broken, held_by, largest, shown_first, Put, put, Sound};

use crate::{Decoder, Held};
use model::mark::MARK;

// U+FFFD.
const REPLACEMENT: [u8; 3] = [0xEF, 0xBF, 0xBD];

#[tactic(auto, unfolding(crate::specs::inner::Feeding::put))]
pub fn put_byte(b: u8, out: &mut [u8], at: usize) -> usize
    requires { at < largest }
    ensures { ◌≡◌ {A = Put} (record { at = result; out = out.new }) (put (b ∷ []) at out.old) }
{
    if at < out.len() {
        out[at] = b;
    }
    at + 1
}

fn put_bytes(bytes: &[u8], out: &mut [u8], at: usize) -> usize
    requires { at + length bytes.now ≤ largest }
    ensures { ◌≡◌ {A = Put} (record { at = result; out = out.new }) (put bytes.now at out.old) }
{
    let mut next = at;
    for b in bytes {
        next = put_byte(*b, out, next);
    }
    next
}

// U+FFFD for each of some stray bytes.
pub fn put_strays(count: usize, out: &mut [u8], at: usize) -> usize
    requires { at + count * 3 ≤ largest }
    ensures { ◌≡◌ {A = Put} (record { at = result; out = out.new }) (put (join (replicate count replacement)) at out.old) }
{
    let mut next = at;
    for _ in 0..count {
        next = put_bytes(&REPLACEMENT, out, next);
    }
    next
}

// A byte that stands for itself: a character of one byte, or a stray one.
fn put_alone(begun: bool, b: u8, out: &mut [u8], at: usize) -> usize
    requires closed_after { is_open (b ∷ []) ≡ false }
    requires at_bound { at + 4 ≤ largest }
    ensures { ◌≡◌ {A = Put} (record { at = result; out = out.new }) (put (shown_first (not begun) (b ∷ [])) at out.old) }
{
    if 0x7F < b {
        return put_bytes(&REPLACEMENT, out, at);
    }
    if begun {
        return put_byte(b, out, at);
    }
    if b == 0x20 {
        return at;
    }
    put_byte(b, out, at)
}

impl Decoder {
    // The character that a byte makes of those held, as it is shown.
    pub(crate) fn put_settled(self, b: u8, out: &mut [u8], at: usize) -> usize
        requires sound { Sound self }
        requires unbroken { is_broken (held_by self) b ≡ false }
        requires closed_after { is_open (held_by self ++ (b ∷ [])) ≡ false }
        requires at_bound { at + 4 ≤ largest }
        ensures { ◌≡◌ {A = Put} (record { at = result; out = out.new }) (put (shown_first (not self.begun) (held_by self ++ (b ∷ []))) at out.old) }
    {
        match self.held {
            Held::Nothing => put_alone(self.begun, b, out, at),
            Held::One(first) => put_bytes(&[first, b], out, at),
            Held::Two(first, second) => {
                let character = [first, second, b];
                if character != MARK {
                    return put_bytes(&character, out, at);
                }
                if self.begun {
                    return put_byte(0x20, out, at);
                }
                at
            }
            Held::Three(first, second, third) => put_bytes(&[first, second, third, b], out, at),
        }
    }
}
