// What the program writes.
ghost use Rattle.std.specs.Prelude.{◌<◌};

use crate::calls::Call;
use crate::compare::Difference;
use std::io;
use std::io::Write;

// How many cases agreed, by their call, and how many did not.
#[derive(Clone, Copy, Default)]
pub(crate) struct Tally {
    encode: u32,
    fragments: u32,
    decode: u32,
    normalise: u32,
    differ: u32,
}

impl Tally {
    pub(crate) fn count_agreed(&mut self, call: Call) {
        match call {
            Call::Encode => self.encode = self.encode.saturating_add(1),
            Call::Fragments => self.fragments = self.fragments.saturating_add(1),
            Call::Decode => self.decode = self.decode.saturating_add(1),
            Call::Normalise => self.normalise = self.normalise.saturating_add(1),
        }
    }

    pub(crate) fn count_other(&mut self) {
        self.differ = self.differ.saturating_add(1);
    }

    fn agreed(self) -> u64
        ensures { result < 17179869184 }
    {
        u64::from(self.encode)
            + u64::from(self.fragments)
            + u64::from(self.decode)
            + u64::from(self.normalise)
    }

    // The cases so far.
    fn cases(self) -> u64 {
        self.agreed() + u64::from(self.differ)
    }
}

// Counts what came of a case, and tells the first that differs.
pub(crate) fn count(
    to: &mut impl Write,
    tally: &mut Tally,
    call: Option<Call>,
    outcome: Result<(), Difference>,
) -> io::Result<()> {
    match outcome {
        Ok(()) => {
            if let Some(call) = call {
                tally.count_agreed(call);
            }
            Ok(())
        }
        Err(difference) => {
            tally.count_other();
            if tally.differ == 1 {
                tell_difference(to, tally.cases(), call, difference)?;
            }
            Ok(())
        }
    }
}

// The first case that differs, the `case`-th of the sample.
fn tell_difference(
    to: &mut impl Write,
    case: u64,
    call: Option<Call>,
    difference: Difference,
) -> io::Result<()> {
    let name = match call {
        Some(call) => call.name(),
        None => "no call",
    };
    writeln!(
        to,
        "case {case}, {name}: {} is {}, in the sample {}",
        difference.part, difference.found, difference.expected
    )
}

// The line's end is a part of its last word here and below, so that they go out in one write.
fn tell_agreed(to: &mut impl Write, call: Call, count: u32) -> io::Result<()> {
    write!(to, "{}: {count} agree\n", call.name())
}

pub(crate) fn tell(to: &mut impl Write, tally: Tally) -> io::Result<()> {
    tell_agreed(to, Call::Encode, tally.encode)?;
    tell_agreed(to, Call::Fragments, tally.fragments)?;
    tell_agreed(to, Call::Decode, tally.decode)?;
    tell_agreed(to, Call::Normalise, tally.normalise)?;
    write!(
        to,
        "{} cases: {} agree, {} differ\n",
        tally.cases(),
        tally.agreed(),
        tally.differ
    )
}
