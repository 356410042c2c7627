// The two passes over the sections of a text: one counts, the other writes.
ghost use Rattle.std.specs.Prelude.{◌≡◌, ℕ, Bool, List, false, min, length};
ghost use Rattle.model.specs.Answers.{Outcome, answer_of};
ghost use Rattle.model.specs.Model.{tokens_of};
ghost use Rattle.merge.specs.inner.Turns.{Merged};
ghost use Rattle.normalise.specs.Normalise.{outgrows};
ghost use Rattle.sections.specs.Sections.{Item};
ghost use Rattle.stretches.specs.Stretches.{Stretch};
ghost use Rattle.stretches.specs.inner.Tables.{Tables};
ghost use Rattle.stretches.specs.inner.Parts.{id_writer, parts_writer};
ghost use Rattle.encode.specs.inner.Passes.{symbols_in, counted, text_stretches, text_outputs, text_outcome};

use crate::checked::Checked;
use merge::Symbols;
use model::clear::clear;
use model::tables::part;
use model::{Counts, Refusal};
use sections::Next;
use sections::walk::sections_start;

// A path from sections to ids: the raw path, or the way by normalization.
pub(crate) trait Path {
    // The tables that it reads.
    ghost tables: { Self → Tables };

    // What a section puts out on its way, and what it comes to.
    ghost outputs: { Self → Bool → List ℕ → List (List ℕ) };

    ghost stretches: { Self → Bool → List ℕ → List (Item Stretch) };

    // The starting ids of a section and one for each token in it, counted up to `cells`, and its drops; nothing where an output is longer than
    // the shorter buffer.
    fn count(
        &self,
        opening: bool,
        section: &[u8],
        cells: usize,
        a: &mut [u8],
        b: &mut [u8],
    ) -> Option<Symbols>
        ensures { result ≡ counted (outgrows (outputs self.now opening section.now) (min (length a.old) (length b.old))) (symbols_in (tables self.now) (stretches self.now opening section.now) cells) };

    // Its ids into the front of `out`. Answers how many there are.
    fn write(
        &self,
        opening: bool,
        section: &[u8],
        a: &mut [u8],
        b: &mut [u8],
        out: &mut [u32],
    ) -> usize
        requires { outgrows (outputs self.now opening section.now) (min (length a.old) (length b.old)) ≡ false }
        ensures { ◌≡◌ {A = Merged} (record { count = result; ids = out.new }) (parts_writer (tables self.now) (stretches self.now opening section.now) out.old) };
}

// A token's id into the first cell, where there is one.
pub(crate) fn put_id(id: u32, out: &mut [u32]) -> usize
    ensures { ◌≡◌ {A = Merged} (record { count = result; ids = out.new }) (id_writer id out.old) }
{
    if out.is_empty() {
        return 0;
    }
    out[0] = id;
    1
}

// The starting ids of all sections and one for each token, counted up to `cells`, and all drops.
fn count_sections<P: Path>(
    path: &P,
    model: &Checked<'_>,
    text: &[u8],
    cells: usize,
    a: &mut [u8],
    b: &mut [u8],
) -> Option<Symbols>
    ensures { result ≡ counted (outgrows (text_outputs (P.outputs path.now) (tokens_of model.now.prepared.now.model.now.first) text.now) (min (length a.old) (length b.old))) (symbols_in (P.tables path.now) (text_stretches (P.stretches path.now) (tokens_of model.now.prepared.now.model.now.first) text.now) cells) }
{
    let mut cursor = sections_start(&model.prepared.model.first, text);
    let mut count = 0;
    let mut drops = 0;
    loop {
        match model.next_section(text, cursor) {
            Next::Finished => return Some(Symbols { count, drops }),
            Next::Added { id: _, next } => {
                count = cells.min(count.saturating_add(1));
                cursor = next;
            }
            Next::Plain {
                start,
                stop,
                opening,
                next,
            } => {
                let section = part(text, start, stop);
                let given = path.count(opening, section, cells - count, a, b)?;
                count += given.count;
                drops = drops.saturating_add(given.drops);
                cursor = next;
            }
        }
    }
}

// The ids of all sections and tokens into the front of `out`. Answers how many there are.
fn write_sections<P: Path>(
    path: &P,
    model: &Checked<'_>,
    text: &[u8],
    a: &mut [u8],
    b: &mut [u8],
    out: &mut [u32],
) -> usize
    requires { outgrows (text_outputs (P.outputs path.now) (tokens_of model.now.prepared.now.model.now.first) text.now) (min (length a.old) (length b.old)) ≡ false }
    ensures { ◌≡◌ {A = Merged} (record { count = result; ids = out.new }) (parts_writer (P.tables path.now) (text_stretches (P.stretches path.now) (tokens_of model.now.prepared.now.model.now.first) text.now) out.old) }
{
    let mut cursor = sections_start(&model.prepared.model.first, text);
    let mut written = 0;
    loop {
        match model.next_section(text, cursor) {
            Next::Finished => return written,
            Next::Added { id, next } => {
                let more = put_id(id, &mut out[written..]);
                written += more;
                cursor = next;
            }
            Next::Plain {
                start,
                stop,
                opening,
                next,
            } => {
                let section = part(text, start, stop);
                let more = path.write(opening, section, a, b, &mut out[written..]);
                written += more;
                cursor = next;
            }
        }
    }
}

// A text: both passes, and zeros behind what was written.
pub(crate) fn encode_sections<P: Path>(
    path: &P,
    model: &Checked<'_>,
    text: &[u8],
    a: &mut [u8],
    b: &mut [u8],
    out: &mut [u32],
) -> Result<Counts, Refusal>
    ensures { ◌≡◌ {A = Outcome} (record { answer = answer_of result; out = out.new }) (text_outcome (P.tables path.now) (P.outputs path.now) (P.stretches path.now) (tokens_of model.now.prepared.now.model.now.first) text.now (min (length a.old) (length b.old)) out.old) }
{
    let Some(counted) = count_sections(path, model, text, out.len() + 1, a, b) else {
        return Err(Refusal::ScratchTooShort);
    };
    if out.len() < counted.count {
        return Err(Refusal::ResultTooShort);
    }
    let written = write_sections(path, model, text, a, b, out);
    clear(out, written, 0);
    Ok(Counts {
        written,
        drops: counted.drops,
        skips: 0,
    })
}
