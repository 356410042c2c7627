// A stretch of bytes: its units one after the other.
ghost use Rattle.std.specs.Prelude.{◌≡◌, ◌&&◌, ◌≤◌, ltb, length};
ghost use Rattle.merge.specs.inner.Turns.{Merged};
ghost use Rattle.stretches.specs.Stretches.{stretch};
ghost use Rattle.stretches.specs.inner.Encoders.{own_with, rest_by, stretch_by};
ghost use Rattle.stretches.specs.inner.Tables.{tables_in, own_in, stretch_in};
ghost use Rattle.stretches.specs.inner.Parts.{parts_symbols, parts_writer};

use crate::Encoder;
use merge::{Speller, Symbols};
use prepare::Prepared;

// From how many bytes on a stretch has its units remembered: in a shorter one few come again.
const LONG: usize = 16384;

// What is remembered of a unit are numbers of 32 bits.
const TOO_LONG: usize = 4294967296;

// Whether a stretch of so many bytes has its units remembered, with so much room for its ids.
fn remembers(bytes: usize, room: usize) -> bool
    ensures { result ≡ (ltb 16383 bytes && (ltb bytes 4294967296 && ltb room 4294967296)) }
{
    LONG <= bytes && bytes < TOO_LONG && room < TOO_LONG
}

// What the units of a model are spelled by.
fn speller<'a>(prepared: &Prepared<'a>) -> Speller<'a>
    ensures own { own_with result ≡ own_in (tables_in prepared.now) }
    ensures fallback { result.fallback.now ≡ prepared.now.model.now.fallback.now }
{
    Speller {
        index: prepared.pieces(),
        fallback: prepared.model.fallback,
    }
}

impl<'a> Encoder<'a> {
    // What the stretches of a model are encoded by.
    fn new(prepared: &Prepared<'a>) -> Encoder<'a>
        ensures { stretch_by result ≡ stretch_in (tables_in prepared.now) }
    {
        Encoder {
            cutter: prepared.cutter(),
            speller: speller(prepared),
            rows: prepared.rows(),
        }
    }

    // The ids of the units from `start` on into the front of `out`, each unit's behind those of the last. Answers how many there are.
    fn encode_rest(&self, section: &[u8], raw: bool, start: usize, out: &mut [u32]) -> usize
        requires { start ≤ length section.now }
        ensures { ◌≡◌ {A = Merged} (record { count = result; ids = out.new }) (rest_by self.now raw section.now start out.old) }
    {
        if remembers(section.len(), out.len()) {
            return self.encode_repeats(section, raw, start, out);
        }
        self.encode_each(section, raw, start, out)
    }

    // The ids of a stretch into the front of `out`: its first unit, which has the virtual mark, and then the others. Answers how many there are.
    fn encode_units(&self, section: &[u8], raw: bool, virtual_mark: bool, out: &mut [u32]) -> usize
        ensures { ◌≡◌ {A = Merged} (record { count = result; ids = out.new }) (stretch_by self.now virtual_mark raw section.now out.old) }
    {
        let next = self.cutter.next_unit(raw, section, 0);
        let written = self.encode_unit(&section[0..next], raw, virtual_mark, out);
        if section.len() <= next {
            return written;
        }
        written + self.encode_rest(section, raw, next, &mut out[written..])
    }
}

// The ids of a stretch by the two derived rows; no bytes give none, not even a virtual mark.
pub fn encode_stretch(
    prepared: &Prepared<'_>,
    section: &[u8],
    raw: bool,
    virtual_mark: bool,
    out: &mut [u32],
) -> usize
    ensures { ◌≡◌ {A = Merged} (record { count = result; ids = out.new }) (parts_writer (tables_in prepared.now) (stretch section.now virtual_mark raw) out.old) }
{
    if section.len() == 0 {
        return 0;
    }
    Encoder::new(prepared).encode_units(section, raw, virtual_mark, out)
}

// Its starting ids, counted up to `room`, and its drops.
pub fn count_stretch(
    prepared: &Prepared<'_>,
    section: &[u8],
    raw: bool,
    virtual_mark: bool,
    room: usize,
) -> Symbols
    ensures { result ≡ parts_symbols (own_in (tables_in prepared.now)) prepared.now.model.now.fallback.now (stretch section.now virtual_mark raw) room }
{
    if section.len() == 0 {
        return Symbols { count: 0, drops: 0 };
    }
    speller(prepared).count_symbols(section, raw, virtual_mark, room)
}
