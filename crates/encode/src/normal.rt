// The way off the raw path: the steps on each section, and then its parts.
ghost use Rattle.std.specs.Prelude.{◌≡◌, true, ◌≤◌, length, take, MatchOption};
ghost use Rattle.normalise.specs.Normalise.{outgrows};
ghost use Rattle.normalise.specs.Steps.{outputs_of};
ghost use Rattle.stretches.specs.inner.Tables.{tables_in};
ghost use Rattle.encode.specs.inner.Passes.{Stepped, normal_in, stretches_in, outputs_in};

use crate::checked::Checked;
use crate::parts::{count_parts, encode_parts};
use crate::passes::Path;
use merge::Symbols;
use model::StepList;
use model::tables::part;
use normalise::Ran;
use normalise::run::run_steps;

#[derive(Clone, Copy)]
pub(crate) struct Normal<'a> {
    pub model: &'a Checked<'a>,
}

// What the steps leave of a section, nothing where an output is longer than `room`; and the buffer in which it does not stand.
fn stepped<'s>(
    steps: &StepList<'_>,
    section: &'s [u8],
    room: usize,
    a: &'s mut [u8],
    b: &'s mut [u8],
) -> Option<(&'s [u8], &'s mut [u8])>
    requires { (room ≤ length a.old) × (room ≤ length b.old) }
    ensures { MatchOption result (outgrows (outputs_of steps.now.bytes.now (take steps.now.count steps.now.list) section.now) room ≡ true) (λ left. Stepped steps.now.bytes.now (take steps.now.count steps.now.list) section.now room left.0.now × (room ≤ length left.1.now)) }
{
    match run_steps(steps, section, room, a, b)? {
        Ran::Given => Some((section, a)),
        Ran::InA(n) => Some((part(a, 0, n), b)),
        Ran::InB(n) => Some((part(b, 0, n), a)),
    }
}

impl<'a> Path for Normal<'a> {
    ghost tables = { λ e. tables_in e.model.now.prepared.now };

    ghost outputs = { λ e. outputs_in (normal_in e.model.now.prepared.now.model.now) };

    ghost stretches = { λ e. stretches_in (normal_in e.model.now.prepared.now.model.now) };

    fn count(
        &self,
        opening: bool,
        section: &[u8],
        cells: usize,
        a: &mut [u8],
        b: &mut [u8],
    ) -> Option<Symbols> {
        let model = self.model;
        let room = a.len().min(b.len());
        let (left, scratch) = stepped(&model.prepared.model.steps, section, room, a, b)?;
        count_parts(model, opening, left, room, cells, scratch)
    }

    fn write(
        &self,
        opening: bool,
        section: &[u8],
        a: &mut [u8],
        b: &mut [u8],
        out: &mut [u32],
    ) -> usize {
        let model = self.model;
        let room = a.len().min(b.len());
        match stepped(&model.prepared.model.steps, section, room, a, b) {
            None => 0,
            Some((left, scratch)) => encode_parts(model, opening, left, room, scratch, out),
        }
    }
}
