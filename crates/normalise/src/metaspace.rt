// Metaspace.
ghost use Rattle.std.specs.Prelude.{◌≡◌, ◌++◌};
ghost use Rattle.model.specs.Mark.{mark};
ghost use Rattle.normalise.specs.Spaces.{spaces_marked, scheme_prepends, mark_prepended};
ghost use Rattle.normalise.specs.inner.Fit.{Put, put};
ghost use Rattle.normalise.specs.inner.Heads.{marked_none};

use crate::exchange::{Exchange, put_exchanged};
use model::PrependScheme;
use model::mark::MARK;
use utf8::edges::starts_with;

// Spaces, for marks.
#[derive(Clone, Copy)]
struct Spaces;

impl Exchange for Spaces {
    ghost content = { λ e. mark };

    ghost exchanged = { λ e. spaces_marked };

    ghost ends = { λ e. marked_none };

    fn content(&self) -> &[u8] {
        &MARK
    }

    fn found(&self, rest: &[u8]) -> Option<usize> {
        if rest[0] == 0x20 { Some(1) } else { None }
    }
}

fn scheme_prepends(scheme: PrependScheme, first: bool) -> bool
    ensures { result ≡ scheme_prepends scheme first }
{
    match scheme {
        PrependScheme::Never => false,
        PrependScheme::Always => true,
        PrependScheme::First => first,
    }
}

// What stands in front of the marked text: the mark, or nothing.
fn lead(wanted: bool, text: &[u8]) -> &'static [u8]
    ensures { result.now ++ spaces_marked text.now ≡ mark_prepended wanted (spaces_marked text.now) }
{
    if !wanted || text.is_empty() || text[0] == 0x20 || starts_with(text, &MARK) {
        return &[];
    }
    &MARK
}

pub fn apply_metaspace(
    prepend: PrependScheme,
    first: bool,
    text: &[u8],
    room: usize,
    out: &mut [u8],
) -> Option<usize>
    ensures { ◌≡◌ {A = Put} (record { length = result; out = out.new }) (put (mark_prepended (scheme_prepends prepend first) (spaces_marked text.now)) room out.old) }
{
    let wanted = scheme_prepends(prepend, first);
    put_exchanged(&Spaces, lead(wanted, text), text, room, out)
}
