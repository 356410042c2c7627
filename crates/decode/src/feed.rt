// A byte fed to the state.
ghost use Rattle.std.specs.Prelude.{◌≡◌, true, false, [], ◌∷◌, ◌++◌, ◌+◌, ◌≤◌, length};
ghost use Rattle.utf8.specs.Lists.{is_empty};
ghost use Rattle.decode.specs.inner.Feeding.{is_open, is_broken, is_idle, bytes_of, held_by, holding, longer, largest, Sound, Fed, fed};

use crate::forms::{lead_width, second_fits};
use crate::put::put_strays;
use crate::{Decoder, Held, Progress};
use utf8::chars::is_within;

impl Held {
    pub(crate) fn len(self) -> usize
        ensures { result ≡ length (bytes_of self) }
    {
        match self {
            Held::Nothing => 0,
            Held::One(_) => 1,
            Held::Two(..) => 2,
            Held::Three(..) => 3,
        }
    }

    fn is_empty(self) -> bool
        ensures { result ≡ is_empty (bytes_of self) }
    {
        matches!(self, Held::Nothing)
    }

    // Whether a byte can't stand in one character with those held.
    fn is_broken(self, b: u8) -> bool
        requires { is_open (bytes_of self) ≡ true }
        ensures { result ≡ is_broken (bytes_of self) b }
    {
        match self {
            Held::Nothing => false,
            Held::One(first) => !second_fits(first, b),
            Held::Two(..) => !is_within(b, 0x80, 0xBF),
            Held::Three(..) => !is_within(b, 0x80, 0xBF),
        }
    }

    // The byte held behind those that are, where they can still become a character.
    fn longer(self, b: u8) -> Option<Held>
        requires unfinished { is_open (bytes_of self) ≡ true }
        requires unbroken { is_broken (bytes_of self) b ≡ false }
        ensures { result ≡ longer (bytes_of self) b }
    {
        match self {
            Held::Nothing => (1 < lead_width(b)).then_some(Held::One(b)),
            Held::One(first) => (2 < lead_width(first)).then_some(Held::Two(first, b)),
            Held::Two(first, second) => {
                (3 < lead_width(first)).then_some(Held::Three(first, second, b))
            }
            Held::Three(..) => None,
        }
    }
}

impl Decoder {
    #[tactic(auto, unfolding(crate::specs::inner::Feeding::holding))]
    pub(crate) fn new(begun: bool) -> Decoder
        ensures { result ≡ holding [] begun }
    {
        Decoder {
            held: Held::Nothing,
            begun,
        }
    }

    // Whether a whole character can be put out as it is: nothing is held, and the first one is settled.
    #[tactic(auto, unfolding(crate::specs::inner::Feeding::is_idle))]
    pub(crate) fn is_idle(self) -> bool
        ensures { result ≡ is_idle self }
    {
        self.held.is_empty() && self.begun
    }

    // A byte that breaks nothing off. Always inlined: what is no ASCII is decoded a quarter faster so.
    #[inline(always)]
    fn take_in(self, b: u8, out: &mut [u8], at: usize) -> Progress
        requires sound { Sound self }
        requires unbroken { is_broken (held_by self) b ≡ false }
        requires at_bound { at + 4 ≤ largest }
        ensures { ◌≡◌ {A = Fed} (record { progress = result; out = out.new }) (fed self (b ∷ []) at out.old) }
    {
        match self.held.longer(b) {
            Some(held) => Progress {
                decoder: Decoder {
                    held,
                    begun: self.begun,
                },
                at,
            },
            None => Progress {
                at: self.put_settled(b, out, at),
                decoder: Decoder::new(true),
            },
        }
    }

    pub(crate) fn feed(self, b: u8, out: &mut [u8], at: usize) -> Progress
        requires sound { Sound self }
        requires at_bound { at + 13 ≤ largest }
        ensures { ◌≡◌ {A = Fed} (record { progress = result; out = out.new }) (fed self (b ∷ []) at out.old) }
    {
        if !self.held.is_broken(b) {
            return self.take_in(b, out, at);
        }
        let next = put_strays(self.held.len(), out, at);
        Decoder::new(true).take_in(b, out, next)
    }
}
