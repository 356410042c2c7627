// The calls, by the number that the sample gives each, and what one is lent.
use model::{Answer, Counts, Model, Refusal};

#[derive(Clone, Copy)]
pub(crate) enum Call {
    Encode,
    Fragments,
    Decode,
    Normalise,
}

// The number of the last call.
pub(crate) const LAST: usize = 4;

impl Call {
    pub(crate) fn of(number: u32) -> Option<Call> {
        match number {
            1 => Some(Call::Encode),
            2 => Some(Call::Fragments),
            3 => Some(Call::Decode),
            4 => Some(Call::Normalise),
            _ => None,
        }
    }

    pub(crate) fn name(self) -> &'static str {
        match self {
            Call::Encode => "encode",
            Call::Fragments => "fragments",
            Call::Decode => "decode",
            Call::Normalise => "normalise",
        }
    }
}

// What a call is given besides the model: encode's `continuation` or normalise's `first`, fragments' target, and its input.
#[derive(Clone, Copy)]
pub(crate) struct Given<'a> {
    pub flag: bool,
    pub target: usize,
    pub text: &'a [u8],
    pub ids: &'a [u32],
}

// Never inlined, so that what fragments derives of the model and what encode does are not on the stack together.
#[inline(never)]
fn cut(model: &Model<'_>, given: Given<'_>, cells: &mut [u32]) -> Result<Counts, Refusal> {
    fragments::fragments(model, given.text, given.target, cells)
}

pub(crate) fn run(
    call: Call,
    model: &Model<'_>,
    given: Given<'_>,
    cells: &mut [u32],
    bytes: &mut [u8],
    a: &mut [u8],
    b: &mut [u8],
) -> Answer {
    let outcome = match call {
        Call::Encode => encode::encode(model, given.text, given.flag, cells, a, b),
        Call::Fragments => cut(model, given, cells),
        Call::Decode => decode::decode(model, given.ids, bytes),
        Call::Normalise => normalise::normalise(model, given.text, given.flag, bytes, a, b),
    };
    Answer::from(outcome)
}
