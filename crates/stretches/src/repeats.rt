// The units of a long stretch, where one that came before is copied.
ghost use Rattle.std.specs.Prelude.{◌≡◌, ◌++◌, ◌&&◌, ◌+◌, ◌-◌, ◌≤◌, ◌<◌, ltb, length, take, drop};
ghost use Rattle.utf8.specs.Lists.{same};
ghost use Rattle.model.specs.Answers.{zeros};
ghost use Rattle.merge.specs.inner.Turns.{Merged};
ghost use Rattle.stretches.specs.inner.Encoders.{rest_by};

use crate::Encoder;
use model::compare::equal;

// A unit that was encoded: its bytes in the section, where its ids stand in the buffer, how many it started as and how many are left.
#[derive(Clone, Copy)]
pub struct Seen {
    pub start: u32,
    pub end: u32,
    pub at: u32,
    pub starts: u32,
    pub count: u32,
}

// How many units are remembered.
const SLOTS: usize = 8192;

// The slot of a unit.
fn slot_of(unit: &[u8]) -> usize
    ensures { result < 8192 }
{
    let mut slot = 0;
    for b in unit {
        slot = (slot * 31 + usize::from(*b)) % SLOTS;
    }
    slot
}

// Whether a unit has the same bytes as one that was encoded, and the room is more than that started as: the buffer was then long enough for it too.
fn is_repeat(section: &[u8], old: Seen, from: usize, next: usize, room: usize) -> bool
    requires { (old.start ≤ old.end) × (old.end ≤ length section.now) × (from ≤ next) × (next ≤ length section.now) }
    ensures { result ≡ (ltb old.starts room && same (take (old.end - old.start) (drop old.start section.now)) (take (next - from) (drop from section.now))) }
{
    let start = old.start as usize;
    let end = old.end as usize;
    (old.starts as usize) < room && equal(&section[start..end], &section[from..next])
}

// Copies `count` cells from `at` on to the cells from `to` on, which lie behind them, and zeros up to `starts` cells: what a unit leaves that starts as so many ids.
fn repeat_ids(out: &mut [u32], at: usize, count: usize, to: usize, starts: usize)
    requires { (at + count ≤ to) × (count ≤ starts) × (to + starts ≤ length out.old) }
    ensures { out.new ≡ take to out.old ++ take count (drop at out.old) ++ zeros (starts - count) ++ drop (to + starts) out.old }
{
    out.copy_within(at..at + count, to);
    out[to + count..to + starts].fill(0);
}

impl Encoder<'_> {
    // The same as `encode_each`: each slot remembers the last unit that belongs to it, and one of the same bytes has its ids copied.
    pub fn encode_repeats(&self, section: &[u8], raw: bool, start: usize, out: &mut [u32]) -> usize
        requires start_in_bounds { start ≤ length section.now }
        requires section_len_bound { (length section.now < 4294967296) × (length out.old < 4294967296) }
        ensures { ◌≡◌ {A = Merged} (record { count = result; ids = out.new }) (rest_by self.now raw section.now start out.old) }
    {
        // A unit of no bytes, which no unit repeats: in place of a flag in each of the slots.
        let none = Seen {
            start: 0,
            end: 0,
            at: 0,
            starts: 0,
            count: 0,
        };
        let mut seen = [none; SLOTS];
        let mut from = start;
        let mut written = 0;
        loop {
            let next = self.cutter.next_unit(raw, section, from);
            let slot = slot_of(&section[from..next]);
            let old = seen[slot];
            let room = out.len() - written;
            if is_repeat(section, old, from, next, room) {
                repeat_ids(
                    out,
                    old.at as usize,
                    old.count as usize,
                    written,
                    old.starts as usize,
                );
                written += old.count as usize;
            } else {
                let one = self.encode_started(
                    &section[from..next],
                    raw,
                    false,
                    &mut out[written..],
                );
                seen[slot] = Seen {
                    start: from as u32,
                    end: next as u32,
                    at: written as u32,
                    starts: one.starts as u32,
                    count: one.count as u32,
                };
                written += one.count;
            }
            if section.len() <= next {
                return written;
            }
            from = next;
        }
    }
}
