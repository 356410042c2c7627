// The step Prepend.
ghost use Rattle.std.specs.Prelude.{◌≡◌};
ghost use Rattle.normalise.specs.Steps.{prepended};
ghost use Rattle.normalise.specs.inner.Fit.{Put, put};

use crate::put::put;

pub fn prepend(content: &[u8], text: &[u8], room: usize, out: &mut [u8]) -> Option<usize>
    ensures { ◌≡◌ {A = Put} (record { length = result; out = out.new }) (put (prepended content.now text.now) room out.old) }
{
    if text.is_empty() {
        return put(&[], text, room, out);
    }
    put(content, text, room, out)
}
