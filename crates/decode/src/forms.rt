// What the first byte of a character tells of it. RFC 3629, section 4.
ghost use Rattle.std.specs.Prelude.{◌≡◌, length, get_or};
ghost use Rattle.utf8.specs.Lists.{within};
ghost use Rattle.decode.specs.inner.Feeding.{form_of};

use utf8::chars::is_within;

// The width of the character that a byte begins, 0 where it begins none: no Option, since it is compared with `<` alone.
pub fn lead_width(first: u8) -> u8
    ensures { result ≡ length (form_of first) }
{
    match first {
        0x00..=0x7F => 1,
        0xC2..=0xDF => 2,
        0xE0..=0xEF => 3,
        0xF0..=0xF4 => 4,
        _ => 0,
    }
}

// Whether a byte can come second in the character that another begins.
pub fn second_fits(first: u8, b: u8) -> bool
    ensures { result ≡ within (get_or (form_of first) 1 (1, 0)) b }
{
    match first {
        0xC2..=0xDF => is_within(b, 0x80, 0xBF),
        0xE0 => is_within(b, 0xA0, 0xBF),
        0xE1..=0xEC => is_within(b, 0x80, 0xBF),
        0xED => is_within(b, 0x80, 0x9F),
        0xEE..=0xEF => is_within(b, 0x80, 0xBF),
        0xF0 => is_within(b, 0x90, 0xBF),
        0xF1..=0xF3 => is_within(b, 0x80, 0xBF),
        0xF4 => is_within(b, 0x80, 0x8F),
        _ => false,
    }
}
