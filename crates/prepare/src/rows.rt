// Rows of words put into the buffers that are lent.
ghost use Rattle.std.specs.Prelude.{◌≡◌, ◌≤◌, length};
ghost use Rattle.model.specs.Answers.{filled};

use model::clear::clear;

// The rows, and zeros behind them.
pub fn put_rows(rows: &[u64], out: &mut [u64])
    requires { length rows.now ≤ length out.old }
    ensures { out.new ≡ filled rows.now out.old }
{
    out[..rows.len()].copy_from_slice(rows);
    clear(out, rows.len(), 0);
}
