// The starting ids of a unit.
ghost use Rattle.std.specs.Prelude.{◌≡◌, cond, []};
ghost use Rattle.model.specs.Mark.{mark};
ghost use Rattle.merge.specs.Start.{fallback_ids, lacks_byte, as_mark};
ghost use Rattle.merge.specs.inner.Laid.{Laid, own_by, byte_own, laid_in, char_laid, marked_chars, unit_laid, unit_symbols};

use crate::{Speller, Symbols};
use model::compare::equal;
use model::fallback::{NO_ID, fallback_id};
use model::mark::MARK;
use utf8::chars::char_step;

// The fallback ids that the bytes of a character have, into the front of `out`; one drop where some byte has none.
fn spell_bytes(fallback: &[u32], char: &[u8], out: &mut [u32]) -> Symbols
    ensures { ◌≡◌ {A = Laid} (record { symbols = result; out = out.new }) (laid_in (fallback_ids fallback.now char.now) (cond (lacks_byte fallback.now char.now) 1 0) out.old) }
{
    let mut count = 0;
    let mut drops = 0;
    for b in char {
        match fallback_id(fallback, *b) {
            Some(id) => {
                if count < out.len() {
                    out[count] = id;
                    count += 1;
                }
            }
            None => drops = 1,
        }
    }
    Symbols { count, drops }
}

impl Speller<'_> {
    // The id of a byte that is a character by itself, where it has a piece; a raw space is the mark. The number of none is the index's own: a test of
    // it is all that most bytes of a text cost.
    fn own_byte(&self, raw: bool, b: u8) -> u32
        ensures { result ≡ byte_own self.now.index.words.now self.now.index.mark_id raw b }
    {
        if 0x80 <= b {
            return NO_ID;
        }
        if raw && b == 0x20 {
            return self.index.mark_id;
        }
        self.index.byte_id(b)
    }

    // The starting ids of one character into the front of `out`.
    fn spell(&self, char: &[u8], out: &mut [u32]) -> Symbols
        ensures { ◌≡◌ {A = Laid} (record { symbols = result; out = out.new }) (char_laid (own_by self.now.index) self.now.fallback.now char.now out.old) }
    {
        match self.index.find(char) {
            Some(id) => {
                if out.is_empty() {
                    return Symbols { count: 0, drops: 0 };
                }
                out[0] = id;
                Symbols { count: 1, drops: 0 }
            }
            None => spell_bytes(self.fallback, char, out),
        }
    }

    // The same, with a raw space as the mark.
    fn spell_as(&self, char: &[u8], raw: bool, out: &mut [u32]) -> Symbols
        ensures { ◌≡◌ {A = Laid} (record { symbols = result; out = out.new }) (char_laid (own_by self.now.index) self.now.fallback.now (as_mark raw char.now) out.old) }
    {
        if raw && equal(char, &[0x20]) {
            return self.spell(&MARK, out);
        }
        self.spell(char, out)
    }

    // The starting ids of the virtual mark, where there is one.
    fn spell_mark(&self, virtual_mark: bool, out: &mut [u32]) -> Symbols
        ensures { ◌≡◌ {A = Laid} (record { symbols = result; out = out.new }) (cond virtual_mark (char_laid (own_by self.now.index) self.now.fallback.now mark out.old) (laid_in [] 0 out.old)) }
    {
        if !virtual_mark {
            return Symbols { count: 0, drops: 0 };
        }
        self.spell(&MARK, out)
    }

    // The starting ids of a unit into the front of `out`, as far as it goes.
    pub fn init_symbols(
        &self,
        unit: &[u8],
        raw: bool,
        virtual_mark: bool,
        out: &mut [u32],
    ) -> Symbols
        ensures { ◌≡◌ {A = Laid} (record { symbols = result; out = out.new }) (unit_laid (own_by self.now.index) self.now.fallback.now (marked_chars virtual_mark raw unit.now) out.old) }
    {
        let first = self.spell_mark(virtual_mark, out);
        let mut count = first.count;
        let mut drops = first.drops;
        let mut i = 0;
        while i < unit.len() {
            let id = self.own_byte(raw, unit[i]);
            if id != NO_ID {
                if count < out.len() {
                    out[count] = id;
                    count += 1;
                }
                i += 1;
            } else {
                let next = i + char_step(&unit[i..]);
                let given = self.spell_as(&unit[i..next], raw, &mut out[count..]);
                count += given.count;
                drops += given.drops;
                i = next;
            }
        }
        Symbols { count, drops }
    }

    // How many starting ids a unit has, counted up to `room`, and its drops.
    pub fn count_symbols(&self, unit: &[u8], raw: bool, virtual_mark: bool, room: usize) -> Symbols
        ensures { result ≡ unit_symbols (own_by self.now.index) self.now.fallback.now (marked_chars virtual_mark raw unit.now) room }
    {
        let mut ids = [0u32; 4];
        let first = self.spell_mark(virtual_mark, &mut ids);
        let mut count = first.count.min(room);
        let mut drops = first.drops;
        let mut i = 0;
        while i < unit.len() {
            let id = self.own_byte(raw, unit[i]);
            if id != NO_ID {
                if count < room {
                    count += 1;
                }
                i += 1;
            } else {
                let next = i + char_step(&unit[i..]);
                let given = self.spell_as(&unit[i..next], raw, &mut ids);
                count += given.count.min(room - count);
                drops += given.drops;
                i = next;
            }
        }
        Symbols { count, drops }
    }
}
