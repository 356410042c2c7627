// Reading a record.
ghost use Rattle.std.specs.Prelude.{◌≡◌, get_or};
ghost use Rattle.records.specs.Records.{no_token};

use crate::{AddedToken, NO_TOKEN};

// The record of a row; past the end of the list an empty one.
pub fn record_at(tokens: &[AddedToken], row: usize) -> AddedToken
    ensures { result ≡ get_or tokens.now row no_token }
{
    tokens.get(row).copied().unwrap_or(NO_TOKEN)
}
