// Answer 2: offsets that run in order inside their bytes.
ghost use Rattle.std.specs.Prelude.{◌≡◌, ◌<◌, ◌≤◌, length};
ghost use Rattle.utf8.specs.Lists.{all, neighbours};
ghost use Rattle.model.specs.Model.{columns};
ghost use Rattle.model.specs.Check.{pair_rises, run_in_order, offsets_astray};

use crate::steps::{StepTest, steps_fail};
use crate::{Model, Strings};

fn never_fall(offsets: &[u32]) -> bool
    ensures { result ≡ all pair_rises (neighbours offsets.now) }
{
    offsets
        .iter()
        .zip(offsets.iter().skip(1))
        .all(|(offset, next)| offset <= next)
}

// The offsets run from 0 to the number of bytes.
fn run_in_order(strings: &Strings<'_>) -> bool
    requires { 0 < length strings.now.offsets.now }
    ensures { result ≡ run_in_order strings.now.bytes.now strings.now.offsets.now }
{
    let offsets = strings.offsets;
    offsets[0] == 0
        && never_fall(offsets)
        && offsets[offsets.len() - 1] as usize == strings.bytes.len()
}

// Answer 2 applies to the model.
pub fn offsets_astray(model: &Model<'_>) -> bool
    requires { (0 < length model.now.pieces.offsets.now) × (0 < length model.now.first.contents.offsets.now) × (0 < length model.now.second.contents.offsets.now) × (model.now.steps.count ≤ 16) }
    ensures { result ≡ offsets_astray (columns model.now) }
{
    !run_in_order(&model.pieces)
        || !run_in_order(&model.first.contents)
        || !run_in_order(&model.second.contents)
        || steps_fail(StepTest::Inside, &model.steps)
}
