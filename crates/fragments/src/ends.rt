// Where tokens that block end.
ghost use Rattle.std.specs.Prelude.{◌≡◌, true, ◌||◌, ℕ, ◌+◌, ◌≤◌, eqb, ltb, length};
ghost use Rattle.utf8.specs.Lists.{any};
ghost use Rattle.model.specs.Model.{tokens_of};
ghost use Rattle.fragments.specs.Safe.{makes_blocks};
ghost use Rattle.fragments.specs.inner.Reach.{end_of, end_at, end_between};

use crate::Places;
use model::tables::part;
use sections::first::may_begin;
use sections::strips::flag_at;
use utf8::edges::starts_with;

// Whether the byte is a space or begins a mark.
pub fn may_cut(b: u8) -> bool
    ensures { result ≡ (eqb b 0x20 || eqb b 0xE2) }
{
    matches!(b, b' ' | 0xE2)
}

fn holds_space(content: &[u8]) -> bool
    ensures { result ≡ any (λ (b : ℕ). eqb b 0x20 || eqb b 0xE2) content.now }
{
    content.iter().any(|b| may_cut(*b))
}

// Whether a token at `s` can end beyond `far`.
fn may_reach(s: usize, longest: usize, far: usize) -> bool
    ensures { result ≡ ltb far (s + longest) }
{
    far < longest || far - longest < s
}

impl Places<'_> {
    #[tactic(auto, unfolding(crate::specs::Safe::makes_blocks))]
    fn is_blocking(&self, content: &[u8], lstrip: bool, rstrip: bool) -> bool
        ensures { result ≡ makes_blocks self.now.unguarded (record { content = content.now; id = 0; lstrip = lstrip; rstrip = rstrip }) }
    {
        lstrip || rstrip || self.unguarded || holds_space(content)
    }

    // Where the token of `row` ends if it blocks and stands at `s` and its rstrip is `strip`, and else 0, as the definition has it:
    // the least of a maximum.
    fn end_of(&self, strip: bool, s: usize, row: usize) -> usize
        ensures { result ≡ end_of self.now.unguarded (tokens_of self.now.tokens) self.now.text.now strip s row }
    {
        let right = flag_at(self.tokens.rstrip, row);
        if right != strip {
            return 0;
        }
        let content = self.tokens.contents.get(row);
        let stands = starts_with(part(self.text, s, self.text.len()), content);
        if stands && self.is_blocking(content, flag_at(self.tokens.lstrip, row), right) {
            s + content.len()
        } else {
            0
        }
    }

    // The furthest such end of a token at `s`. The rows are read of a copy, which the compiler keeps in registers.
    fn end_at(&self, strip: bool, s: usize) -> usize
        ensures { result ≡ end_at self.now.unguarded (tokens_of self.now.tokens) self.now.text.now strip s }
    {
        let places = *self;
        let mut far = 0;
        for row in 0..places.tokens.contents.len() {
            far = places.end_of(strip, s, row).max(far);
        }
        far
    }

    // The furthest such end of all that stand from `from` up to `to`. The places are walked back from the last, as long as a token there can
    // end further on.
    pub fn end_between(&self, strip: bool, from: usize, to: usize) -> usize
        requires { to ≤ length self.now.text.now }
        ensures { result ≡ end_between self.now.unguarded (tokens_of self.now.tokens) self.now.text.now strip from to }
    {
        let mut far = 0;
        for s in (from..to).rev() {
            if !may_reach(s, self.longest, far) {
                return far;
            }
            if may_begin(self.begins, self.text[s]) {
                far = far.max(self.end_at(strip, s));
            }
        }
        far
    }
}
