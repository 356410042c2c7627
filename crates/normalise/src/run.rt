// The run of steps and metaspace between two buffers. Each output goes where the text does not stand.
ghost use Rattle.std.specs.Prelude.{◌≡◌, List, ℕ, Option, Some, take};
ghost use Rattle.normalise.specs.inner.Fit.{Put, put};
ghost use Rattle.normalise.specs.inner.Run.{Run, turn, steps_run, normal_run};
ghost use Rattle.normalise.specs.declared.Ran.TheVariants.{Given};

use crate::Ran;
use crate::metaspace::apply_metaspace;
use crate::step::apply_step;
use model::tables::part;
use model::{Metaspace, StepList};

// What `apply` makes of the text that stands at `from`, put into the other buffer.
fn turn<F: FnOnce(&[u8], usize, &mut [u8]) -> Option<usize>>(
    apply: F,
    text: &[u8],
    room: usize,
    from: Ran,
    a: &mut [u8],
    b: &mut [u8],
) -> Option<Ran>
    ghost step: { List ℕ → List ℕ }
    requires callable { F.IsAlwaysCallable apply }
    requires puts { (cur out : _) (r : Option ℕ) (after : _) → F.post apply cur room out r after → ◌≡◌ {A = Put} (record { length = r; out = after.now }) (put (step cur.now) room out.now) }
    ensures { ◌≡◌ {A = Run} (record { ran = result; a = a.new; b = b.new }) (turn step text.now room (record { ran = Some from; a = a.old; b = b.old })) }
{
    match from {
        Ran::Given => apply(text, room, a).map(Ran::InA),
        Ran::InA(n) => apply(part(a, 0, n), room, b).map(Ran::InB),
        Ran::InB(n) => apply(part(b, 0, n), room, a).map(Ran::InA),
    }
}

// All steps in their order; `a` takes the first output.
pub fn run_steps(
    steps: &StepList<'_>,
    text: &[u8],
    room: usize,
    a: &mut [u8],
    b: &mut [u8],
) -> Option<Ran>
    ensures { ◌≡◌ {A = Run} (record { ran = result; a = a.new; b = b.new }) (steps_run steps.now.bytes.now (take steps.now.count steps.now.list) text.now room (record { ran = Some Given; a = a.old; b = b.old })) }
{
    let bytes = steps.bytes;
    let mut ran = Ran::Given;
    for step in &steps.list[..steps.count.min(steps.list.len())] {
        ran = turn(
            |text, room, out| apply_step(bytes, *step, text, room, out),
            text,
            room,
            ran,
            a,
            b,
        )?;
    }
    Some(ran)
}

// All steps, and then metaspace where it is present.
pub(crate) fn run_all(
    steps: &StepList<'_>,
    metaspace: Option<Metaspace>,
    first: bool,
    text: &[u8],
    room: usize,
    a: &mut [u8],
    b: &mut [u8],
) -> Option<Ran>
    ensures { ◌≡◌ {A = Run} (record { ran = result; a = a.new; b = b.new }) (normal_run steps.now.bytes.now (take steps.now.count steps.now.list) metaspace first text.now room a.old b.old) }
{
    let stepped = run_steps(steps, text, room, a, b)?;
    match metaspace {
        None => Some(stepped),
        Some(Metaspace { prepend, .. }) => turn(
            |text, room, out| apply_metaspace(prepend, first, text, room, out),
            text,
            room,
            stepped,
            a,
            b,
        ),
    }
}
