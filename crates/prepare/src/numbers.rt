// The kind of split and the raw path as numbers of the index, and back: the index is a row of words that C keeps.
ghost use Rattle.std.specs.Prelude.{◌≡◌};
ghost use Rattle.prepare.specs.Numbers.{kind_number, raw_path_number};
ghost use Rattle.prepare.specs.inner.Read.{kind_from, raw_path_from};

use units::{RawPrepend, WordSplit};

#[tactic(auto, unfolding(crate::specs::Numbers::kind_number))]
pub fn kind_number(kind: WordSplit) -> u32
    ensures { result ≡ kind_number kind }
{
    match kind {
        WordSplit::SpaceRuns => 0,
        WordSplit::EveryMark => 1,
        WordSplit::None => 2,
    }
}

// The kind of a number; from 2 on none.
#[tactic(auto, unfolding(crate::specs::inner::Read::kind_from))]
pub fn kind_from(number: u32) -> WordSplit
    ensures { result ≡ kind_from number }
{
    match number {
        0 => WordSplit::SpaceRuns,
        1 => WordSplit::EveryMark,
        _ => WordSplit::None,
    }
}

#[tactic(auto, unfolding(crate::specs::Numbers::raw_path_number))]
pub fn raw_path_number(path: Option<RawPrepend>) -> u32
    ensures { result ≡ raw_path_number path }
{
    match path {
        None => 0,
        Some(RawPrepend::Never) => 1,
        Some(RawPrepend::Unguarded) => 2,
        Some(RawPrepend::GuardedAlways) => 3,
        Some(RawPrepend::GuardedFirst) => 4,
    }
}

// The raw path of a number; above 4 there is none.
#[tactic(auto, unfolding(crate::specs::inner::Read::raw_path_from))]
pub fn raw_path_from(number: u32) -> Option<RawPrepend>
    ensures { result ≡ raw_path_from number }
{
    match number {
        1 => Some(RawPrepend::Never),
        2 => Some(RawPrepend::Unguarded),
        3 => Some(RawPrepend::GuardedAlways),
        4 => Some(RawPrepend::GuardedFirst),
        _ => None,
    }
}
