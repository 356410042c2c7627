// The two passes over the parts of a normalized section.
ghost use Rattle.std.specs.Prelude.{◌≡◌, true, false, ◌≤◌, length, MatchOption};
ghost use Rattle.merge.specs.inner.Turns.{Merged};
ghost use Rattle.normalise.specs.Normalise.{outgrows};
ghost use Rattle.normalise.specs.Spaces.{metaspace_output, metaspaced};
ghost use Rattle.stretches.specs.Stretches.{stretch};
ghost use Rattle.stretches.specs.inner.Tables.{tables_in};
ghost use Rattle.stretches.specs.inner.Parts.{parts_writer};
ghost use Rattle.encode.specs.inner.Passes.{symbols_in, counted, unless_long, Leaves, normal_in, stretches_after, outputs_after};

use crate::checked::Checked;
use crate::passes::put_id;
use merge::Symbols;
use model::Metaspace;
use model::tables::part;
use normalise::metaspace::apply_metaspace;
use prepare::Prepared;
use sections::Next;
use sections::walk::parts_start;
use stretches::stretch::{count_stretch, encode_stretch};

// What metaspace leaves of a part, nothing where its output is longer than `room`.
fn marked<'s>(
    metaspace: Option<Metaspace>,
    first: bool,
    bytes: &'s [u8],
    room: usize,
    scratch: &'s mut [u8],
) -> Option<&'s [u8]>
    requires { room ≤ length scratch.old }
    ensures { MatchOption result (outgrows (metaspace_output metaspace first bytes.now) room ≡ true) (λ left. Leaves metaspace first bytes.now room left.now) }
{
    match metaspace {
        None => Some(bytes),
        Some(metaspace) => {
            let n = apply_metaspace(metaspace.prepend, first, bytes, room, scratch)?;
            Some(part(scratch, 0, n))
        }
    }
}

// Its starting ids, counted up to `cells`, and its drops. What metaspace puts out may have `room` bytes.
pub(crate) fn count_part(
    prepared: &Prepared<'_>,
    first: bool,
    bytes: &[u8],
    room: usize,
    cells: usize,
    scratch: &mut [u8],
) -> Option<Symbols>
    requires { room ≤ length scratch.old }
    ensures { result ≡ counted (outgrows (metaspace_output prepared.now.model.now.metaspace first bytes.now) room) (symbols_in (tables_in prepared.now) (stretch (metaspaced prepared.now.model.now.metaspace first bytes.now) false false) cells) }
{
    let left = marked(prepared.model.metaspace, first, bytes, room, scratch)?;
    Some(count_stretch(prepared, left, false, false, cells))
}

// Its ids into the front of `out`. Answers how many there are.
pub(crate) fn encode_part(
    prepared: &Prepared<'_>,
    first: bool,
    bytes: &[u8],
    room: usize,
    scratch: &mut [u8],
    out: &mut [u32],
) -> usize
    requires { room ≤ length scratch.old }
    ensures { ◌≡◌ {A = Merged} (record { count = result; ids = out.new }) (unless_long (outgrows (metaspace_output prepared.now.model.now.metaspace first bytes.now) room) (parts_writer (tables_in prepared.now) (stretch (metaspaced prepared.now.model.now.metaspace first bytes.now) false false) out.old) out.old) }
{
    match marked(prepared.model.metaspace, first, bytes, room, scratch) {
        None => 0,
        Some(left) => encode_stretch(prepared, left, false, false, out),
    }
}

// This loop and the next stand beside those of src/passes.rt: shared, they would need the walk itself as a law, since parts are bytes, each of its
// own, where sections are places of one text.

// The starting ids of all parts of a normalized section and one for each token between them, counted up to `cells`, and all drops.
pub(crate) fn count_parts(
    model: &Checked<'_>,
    opening: bool,
    text: &[u8],
    room: usize,
    cells: usize,
    scratch: &mut [u8],
) -> Option<Symbols>
    requires { room ≤ length scratch.old }
    ensures { result ≡ counted (outgrows (outputs_after (normal_in model.now.prepared.now.model.now) opening text.now) room) (symbols_in (tables_in model.now.prepared.now) (stretches_after (normal_in model.now.prepared.now.model.now) opening text.now) cells) }
{
    let mut cursor = parts_start(text, opening);
    let mut count = 0;
    let mut drops = 0;
    loop {
        match model.next_part(text, cursor) {
            Next::Finished => return Some(Symbols { count, drops }),
            Next::Added { id: _, next } => {
                count = cells.min(count.saturating_add(1));
                cursor = next;
            }
            Next::Plain {
                start,
                stop,
                opening: first,
                next,
            } => {
                let given = count_part(
                    model.prepared,
                    first,
                    part(text, start, stop),
                    room,
                    cells - count,
                    scratch,
                )?;
                count += given.count;
                drops = drops.saturating_add(given.drops);
                cursor = next;
            }
        }
    }
}

// The ids of all parts of a normalized section and of the tokens between them into the front of `out`. Answers how many there are.
pub(crate) fn encode_parts(
    model: &Checked<'_>,
    opening: bool,
    text: &[u8],
    room: usize,
    scratch: &mut [u8],
    out: &mut [u32],
) -> usize
    requires room_in_bounds { room ≤ length scratch.old }
    requires outputs_fit { outgrows (outputs_after (normal_in model.now.prepared.now.model.now) opening text.now) room ≡ false }
    ensures { ◌≡◌ {A = Merged} (record { count = result; ids = out.new }) (parts_writer (tables_in model.now.prepared.now) (stretches_after (normal_in model.now.prepared.now.model.now) opening text.now) out.old) }
{
    let mut cursor = parts_start(text, opening);
    let mut written = 0;
    loop {
        match model.next_part(text, cursor) {
            Next::Finished => return written,
            Next::Added { id, next } => {
                let more = put_id(id, &mut out[written..]);
                written += more;
                cursor = next;
            }
            Next::Plain {
                start,
                stop,
                opening: first,
                next,
            } => {
                let more = encode_part(
                    model.prepared,
                    first,
                    part(text, start, stop),
                    room,
                    scratch,
                    &mut out[written..],
                );
                written += more;
                cursor = next;
            }
        }
    }
}
