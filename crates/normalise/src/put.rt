// Outputs put into a buffer.
ghost use Rattle.std.specs.Prelude.{◌≡◌, ◌++◌};
ghost use Rattle.normalise.specs.inner.Fit.{Put, put};

use crate::copy::copy_at;

// `lead` and `text` behind it at the front of `out`, where there is room for both.
pub fn put(lead: &[u8], text: &[u8], room: usize, out: &mut [u8]) -> Option<usize>
    ensures { ◌≡◌ {A = Put} (record { length = result; out = out.new }) (put (lead.now ++ text.now) room out.old) }
{
    let space = room.min(out.len());
    let left = space.checked_sub(lead.len())?.checked_sub(text.len())?;
    let n = space - left;
    copy_at(out, 0, lead);
    copy_at(out, lead.len(), text);
    Some(n)
}
