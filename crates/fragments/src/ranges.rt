// The cuts of a text, counted, and the ranges between them, written.
ghost use Rattle.std.specs.Prelude.{◌≡◌, true, ◌∷◌, ◌++◌, ◌+◌, ◌≤◌, ◌<◌, max, length, take, drop};
ghost use Rattle.fragments.specs.inner.Search.{cuts_in, numbers_in};
ghost use Rattle.fragments.specs.inner.Places.{KnownIn, NextIn, is_safe_in};

use crate::{Cut, Places};

// A range at a place of the buffer.
fn put_range(out: &mut [u32], at: usize, start: usize, end: usize)
    requires at_in_bounds { at + 2 ≤ length out.old }
    requires start_bound { (start < 4294967296) × (end < 4294967296) }
    ensures { out.new ≡ take at out.old ++ (start ∷ end ∷ drop (at + 2) out.old) }
{
    out[at] = start as u32;
    out[at + 1] = end as u32;
}

impl Places<'_> {
    // The first safe place that is at least `target` and one byte behind the last cut.
    fn cut_after(&self, target: usize, last: Cut) -> Option<Cut>
        requires last_in_bounds { last.place ≤ length self.now.text.now }
        requires known { KnownIn self.now last (last.place + 1) }
        ensures { NextIn self.now (last.place + max target 1) result }
    {
        let step = target.max(1);
        if self.text.len() - last.place <= step {
            return None;
        }
        self.next_cut(last, last.place + step)
    }

    // How many cuts there are.
    pub fn count_cuts(&self, target: usize) -> usize
        ensures { result ≡ length (cuts_in (is_safe_in self.now) (length self.now.text.now) (max target 1)) }
    {
        let mut cuts = 0;
        let mut last = Cut { place: 0, ahead: 0 };
        while let Some(cut) = self.cut_after(target, last) {
            cuts += 1;
            last = cut;
        }
        cuts
    }

    // The ranges into the front of `out`. Answers how many numbers they are.
    pub fn write_ranges(&self, target: usize, out: &mut [u32]) -> usize
        requires { length (numbers_in (is_safe_in self.now) (length self.now.text.now) (max target 1)) ≤ length out.old }
        ensures value { result ≡ length (numbers_in (is_safe_in self.now) (length self.now.text.now) (max target 1)) }
        ensures out_after { out.new ≡ numbers_in (is_safe_in self.now) (length self.now.text.now) (max target 1) ++ drop result out.old }
    {
        let mut written = 0;
        let mut last = Cut { place: 0, ahead: 0 };
        while let Some(cut) = self.cut_after(target, last) {
            put_range(out, written, last.place, cut.place);
            written += 2;
            last = cut;
        }
        put_range(out, written, last.place, self.text.len());
        written + 2
    }
}
