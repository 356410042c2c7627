// The units of a stretch, each encoded for itself.
ghost use Rattle.std.specs.Prelude.{◌≡◌, ◌≤◌, length};
ghost use Rattle.merge.specs.inner.Turns.{Merged};
ghost use Rattle.stretches.specs.inner.Encoders.{rest_by};

use crate::Encoder;

impl Encoder<'_> {
    // The ids of the units from `start` on into the front of `out`, each unit's behind those of the last. Answers how many there are.
    pub fn encode_each(&self, section: &[u8], raw: bool, start: usize, out: &mut [u32]) -> usize
        requires { start ≤ length section.now }
        ensures { ◌≡◌ {A = Merged} (record { count = result; ids = out.new }) (rest_by self.now raw section.now start out.old) }
    {
        let mut from = start;
        let mut written = 0;
        loop {
            let next = self.cutter.next_unit(raw, section, from);
            written += self.encode_unit(&section[from..next], raw, false, &mut out[written..]);
            if section.len() <= next {
                return written;
            }
            from = next;
        }
    }
}
