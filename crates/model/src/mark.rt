// The mark U+2581, and the space that it stands for.
ghost use Rattle.std.specs.Prelude.{◌≡◌};
ghost use Rattle.model.specs.Mark.{mark_width, ends_with_mark};

use utf8::edges::{ends_with, starts_with};

// The bytes of the mark.
pub const MARK: [u8; 3] = [0xE2, 0x96, 0x81];

// The width of the mark at the head, 0 where none stands there, as the definition has it; `raw` says that a space is a mark too.
pub fn mark_width(bytes: &[u8], raw: bool) -> usize
    ensures { result ≡ mark_width raw bytes.now }
{
    if starts_with(bytes, &MARK) {
        return 3;
    }
    if !raw {
        return 0;
    }
    if starts_with(bytes, &[0x20]) {
        return 1;
    }
    0
}

pub fn ends_with_mark(bytes: &[u8], raw: bool) -> bool
    ensures { result ≡ ends_with_mark raw bytes.now }
{
    if ends_with(bytes, &MARK) {
        return true;
    }
    if !raw {
        return false;
    }
    ends_with(bytes, &[0x20])
}
