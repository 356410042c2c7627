// The step Strip.
ghost use Rattle.std.specs.Prelude.{◌≡◌};
ghost use Rattle.normalise.specs.Steps.{stripped};
ghost use Rattle.normalise.specs.inner.Fit.{Put, put};

use crate::put::put;
use utf8::white_space::{trim_end, trim_start};

pub fn strip(left: bool, right: bool, text: &[u8], room: usize, out: &mut [u8]) -> Option<usize>
    ensures { ◌≡◌ {A = Put} (record { length = result; out = out.new }) (put (stripped left right text.now) room out.old) }
{
    let rest = if left { trim_start(text) } else { text };
    let kept = if right { trim_end(rest) } else { rest };
    put(&[], kept, room, out)
}
