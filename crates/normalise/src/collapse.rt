// The step CollapseSpaces.
ghost use Rattle.std.specs.Prelude.{◌≡◌, ◌==◌};
ghost use Rattle.std.specs.List.{prefix_len};
ghost use Rattle.normalise.specs.Steps.{collapsed};
ghost use Rattle.normalise.specs.inner.Fit.{Put, put};
ghost use Rattle.normalise.specs.inner.Heads.{collapsed-none};

use crate::exchange::{Exchange, put_exchanged};

// How many spaces stand at the head.
fn space_run(text: &[u8]) -> usize
    ensures { result ≡ prefix_len (λ b. b == 0x20) text.now }
{
    text.iter().take_while(|b| **b == 0x20).count()
}

// Runs of two spaces and more, for a content.
#[derive(Clone, Copy)]
struct SpaceRuns<'a> {
    content: &'a [u8],
}

impl<'a> Exchange for SpaceRuns<'a> {
    ghost content = { λ e. e.content.now };

    ghost exchanged = { λ e. collapsed e.content.now };

    ghost ends = { λ e. collapsed-none e.content.now };

    fn content(&self) -> &[u8] {
        self.content
    }

    fn found(&self, rest: &[u8]) -> Option<usize> {
        let run = space_run(rest);
        if run < 2 { None } else { Some(run) }
    }
}

pub fn collapse_space_runs(
    content: &[u8],
    text: &[u8],
    room: usize,
    out: &mut [u8],
) -> Option<usize>
    ensures { ◌≡◌ {A = Put} (record { length = result; out = out.new }) (put (collapsed content.now text.now) room out.old) }
{
    put_exchanged(&SpaceRuns { content }, &[], text, room, out)
}
