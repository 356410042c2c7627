// Bytes put into a buffer.
ghost use Rattle.std.specs.Prelude.{◌≡◌, ◌++◌, ◌+◌, ◌≤◌, length, take, drop};

// Copies `part` into `out` from `at` on. A loop, since `copy_from_slice` would call `memmove`, and most parts are a few bytes long.
pub fn copy_at(out: &mut [u8], at: usize, part: &[u8])
    requires { at + length part.now ≤ length out.old }
    ensures { out.new ≡ take at out.old ++ part.now ++ drop (at + length part.now) out.old }
{
    for (j, byte) in part.iter().enumerate() {
        out[at + j] = *byte;
    }
}
