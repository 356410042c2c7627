// What a line says of a buffer, every cell of it, and how long the buffers are.
use std::io;
use std::io::Write;

// How many cells of result and bytes of scratch a call is lent.
#[derive(Clone, Copy)]
pub(crate) struct Rooms {
    pub out: usize,
    pub a: usize,
    pub b: usize,
}

// Cells are told in decimal and bytes in hex: two formats, so two functions.
pub(crate) fn tell_cells(to: &mut impl Write, cells: &[u32]) -> io::Result<()> {
    for cell in cells {
        write!(to, " {cell}")?;
    }
    Ok(())
}

pub(crate) fn tell_bytes(to: &mut impl Write, bytes: &[u8]) -> io::Result<()> {
    for byte in bytes {
        // Both digits go out in one write: `write!` to standard output would part them.
        let mut digits = [0u8; 2];
        let mut room = &mut digits[..];
        write!(room, "{byte:02x}")?;
        to.write_all(b" ")?;
        to.write_all(&digits)?;
    }
    Ok(())
}
