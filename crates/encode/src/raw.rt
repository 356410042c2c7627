// The raw path, where the sections of a text are its stretches.
ghost use Rattle.std.specs.Prelude.{[], true};
ghost use Rattle.stretches.specs.Stretches.{stretch};
ghost use Rattle.stretches.specs.inner.Tables.{tables_in};
ghost use Rattle.encode.specs.Parts.{virtual_mark};

use crate::marks::virtual_mark;
use crate::passes::Path;
use merge::Symbols;
use prepare::Prepared;
use stretches::stretch::{count_stretch, encode_stretch};
use units::RawPrepend;

#[derive(Clone, Copy)]
pub(crate) struct Raw<'a> {
    pub prepared: &'a Prepared<'a>,
    pub prepend: RawPrepend,
    pub continuation: bool,
}

// Nothing is put out on the way: the buffers stay as they are.
impl<'a> Path for Raw<'a> {
    ghost tables = { λ e. tables_in e.prepared.now };

    ghost outputs = { λ e opening section. [] };

    ghost stretches = { λ e opening section. stretch section (virtual_mark e.prepend e.continuation opening section) true };

    fn count(
        &self,
        opening: bool,
        section: &[u8],
        cells: usize,
        a: &mut [u8],
        b: &mut [u8],
    ) -> Option<Symbols> {
        let mark = virtual_mark(self.prepend, self.continuation, opening, section);
        Some(count_stretch(self.prepared, section, true, mark, cells))
    }

    fn write(
        &self,
        opening: bool,
        section: &[u8],
        a: &mut [u8],
        b: &mut [u8],
        out: &mut [u32],
    ) -> usize {
        let mark = virtual_mark(self.prepend, self.continuation, opening, section);
        encode_stretch(self.prepared, section, true, mark, out)
    }
}
