// Buffers cleared from a place to their end.
ghost use Rattle.std.specs.Prelude.{◌≡◌, ◌++◌, ◌-◌, length, take, replicate};

// Puts `blank` into each cell from `start` on.
pub fn clear<T: Copy>(out: &mut [T], start: usize, blank: T)
    ensures { out.new ≡ take start out.old ++ replicate (length out.old - start) blank }
{
    for i in start..out.len() {
        out[i] = blank;
    }
}
