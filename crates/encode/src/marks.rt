// Whether a section on the raw path gets a virtual mark.
ghost use Rattle.std.specs.Prelude.{◌≡◌, true, not};
ghost use Rattle.model.specs.Mark.{starts_with_mark};
ghost use Rattle.encode.specs.Parts.{prepends_mark, virtual_mark};

use model::mark::mark_width;
use units::RawPrepend;

// Whether the bytes start with neither mark nor space.
fn unmarked(bytes: &[u8]) -> bool
    ensures { result ≡ not (starts_with_mark true bytes.now) }
{
    mark_width(bytes, true) == 0
}

#[tactic(auto, unfolding(crate::specs::Parts::prepends_mark))]
fn prepends_mark(prepend: RawPrepend, opening: bool, bytes: &[u8]) -> bool
    ensures { result ≡ prepends_mark prepend opening bytes.now }
{
    match prepend {
        RawPrepend::Never => false,
        RawPrepend::Unguarded => true,
        RawPrepend::GuardedAlways => unmarked(bytes),
        RawPrepend::GuardedFirst => opening && unmarked(bytes),
    }
}

// The same for a text that may be a continuation.
#[tactic(auto, unfolding(crate::specs::Parts::virtual_mark))]
pub fn virtual_mark(prepend: RawPrepend, continuation: bool, opening: bool, bytes: &[u8]) -> bool
    ensures { result ≡ virtual_mark prepend continuation opening bytes.now }
{
    !(continuation && opening) && prepends_mark(prepend, opening, bytes)
}
