// Tokens with lstrip ahead of a place.
ghost use Rattle.std.specs.Prelude.{◌≡◌, true, ◌≤◌, length};
ghost use Rattle.utf8.specs.Lists.{find};
ghost use Rattle.model.specs.Model.{tokens_of};
ghost use Rattle.fragments.specs.inner.Reach.{strips_at, places_ahead};

use crate::Places;
use model::tables::part;
use sections::first::may_begin;
use sections::strips::flag_at;
use utf8::edges::starts_with;
use utf8::white_space::white_width;

impl Places<'_> {
    // Whether a token with lstrip stands at `s`.
    fn strips_at(&self, s: usize) -> bool
        ensures { result ≡ strips_at (tokens_of self.now.tokens) self.now.text.now s }
    {
        let tokens = self.tokens;
        let rest = part(self.text, s, self.text.len());
        (0..tokens.contents.len()).any(|row| {
            flag_at(tokens.lstrip, row) && starts_with(rest, tokens.contents.get(row))
        })
    }

    // The same, tested only where the byte begins some token.
    fn strips_here(&self, s: usize) -> bool
        ensures { result ≡ strips_at (tokens_of self.now.tokens) self.now.text.now s }
    {
        s < self.text.len() && may_begin(self.begins, self.text[s]) && self.strips_at(s)
    }

    // The nearest place at `p` or behind the white space from there on at which a token with lstrip stands.
    pub fn strip_ahead(&self, p: usize) -> Option<usize>
        requires { p ≤ length self.now.text.now }
        ensures { result ≡ find (strips_at (tokens_of self.now.tokens) self.now.text.now) (places_ahead self.now.text.now p) }
    {
        let mut s = p;
        loop {
            if self.strips_here(s) {
                return Some(s);
            }
            let width = white_width(&self.text[s..]);
            if width == 0 {
                return None;
            }
            s += width;
        }
    }
}
