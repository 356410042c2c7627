// One unit.
ghost use Rattle.std.specs.Prelude.{◌≡◌, min, length};
ghost use Rattle.merge.specs.inner.Laid.{marked_chars};
ghost use Rattle.merge.specs.inner.Turns.{Merged};
ghost use Rattle.stretches.specs.inner.Encoders.{spelled_by, unit_by};

use crate::Encoder;
use merge::ranked::bpe_merge_symbols_ranked;

// How many ids a unit starts as, as far as the buffer goes, and how many are left of them.
#[derive(Clone, Copy)]
pub struct Encoded {
    pub starts: usize,
    pub count: usize,
}

impl Encoder<'_> {
    // The ids of a unit into the front of `out`: its starting ids, merged in place.
    pub fn encode_started(
        &self,
        unit: &[u8],
        raw: bool,
        virtual_mark: bool,
        out: &mut [u32],
    ) -> Encoded
        ensures { (◌≡◌ {A = Merged} (record { count = result.count; ids = out.new }) (unit_by self.now (marked_chars virtual_mark raw unit.now) out.old)) × (result.starts ≡ min (length (spelled_by self.now (marked_chars virtual_mark raw unit.now))) (length out.old)) }
    {
        let starts = self
            .speller
            .init_symbols(unit, raw, virtual_mark, out)
            .count;
        let count = bpe_merge_symbols_ranked(&self.rows, out, starts);
        Encoded { starts, count }
    }

    // The same. Answers how many ids are left.
    pub fn encode_unit(&self, unit: &[u8], raw: bool, virtual_mark: bool, out: &mut [u32]) -> usize
        ensures { ◌≡◌ {A = Merged} (record { count = result; ids = out.new }) (unit_by self.now (marked_chars virtual_mark raw unit.now) out.old) }
    {
        self.encode_started(unit, raw, virtual_mark, out).count
    }
}
