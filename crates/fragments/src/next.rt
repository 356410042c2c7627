// The search for the next safe place.
ghost use Rattle.std.specs.Prelude.{◌≡◌, true, ◌-◌, ◌<◌, length};
ghost use Rattle.utf8.specs.Lists.{find, count_from};
ghost use Rattle.model.specs.Model.{tokens_of};
ghost use Rattle.units.specs.Units.{mark_cuts};
ghost use Rattle.units.specs.inner.Read.{crossings_in};
ghost use Rattle.fragments.specs.inner.Reach.{Edge};
ghost use Rattle.fragments.specs.inner.Search.{Judged};
ghost use Rattle.fragments.specs.inner.Places.{KnownIn, NextIn};

use crate::ends::may_cut;
use crate::{Cut, Places, Verdict};
use sections::strips::start_after;

impl Places<'_> {
    // Whether `p` is blocked: from before it, or by a token ahead of it.
    fn judge(&self, last: Cut, p: usize) -> Verdict
        requires p_nonzero { (0 < p) × (p < length self.now.text.now) }
        requires edge { Edge self.now.text.now p }
        requires known { KnownIn self.now last p }
        ensures { Judged self.now.unguarded (tokens_of self.now.tokens) self.now.text.now p result }
    {
        if let Some(end) = self.look_back(last.place, p) {
            return Verdict::Blocked(end);
        }
        if p < last.ahead {
            return Verdict::Free(last.ahead);
        }
        match self.strip_ahead(p) {
            Some(s) => Verdict::Blocked(s),
            None => Verdict::Free(start_after(true, self.text, p) + 1),
        }
    }

    // The first place from `from` on at which a mark or space would begin a unit.
    fn next_mark(&self, from: usize) -> Option<usize>
        ensures { result ≡ find (mark_cuts self.now.cutter.kind (crossings_in self.now.cutter) true self.now.text.now) (count_from from (length self.now.text.now - from)) }
    {
        for p in from..self.text.len() {
            if may_cut(self.text[p]) && self.cutter.mark_cuts(true, self.text, p) {
                return Some(p);
            }
        }
        None
    }

    // The first safe place from `from` on.
    pub fn next_cut(&self, mut last: Cut, from: usize) -> Option<Cut>
        requires from_nonzero { 0 < from }
        requires known { KnownIn self.now last from }
        ensures { NextIn self.now from result }
    {
        let mut p = from;
        while let Some(mark) = self.next_mark(p) {
            match self.judge(last, mark) {
                Verdict::Blocked(end) => {
                    last.place = mark;
                    p = end + 1;
                }
                Verdict::Free(end) => {
                    return Some(Cut {
                        place: mark,
                        ahead: end,
                    });
                }
            }
        }
        None
    }
}
