// The models that are built in: T and U of rules 14.1 and 14.2, and the embedded one, which is T with a piece for every byte, the letters
// of French, and joined pieces that are frequent in it.
use crate::tables::Tables;
use std::fmt;
use std::fmt::Display;

#[derive(Clone, Copy)]
pub(crate) enum Name {
    Embedded,
    T,
    U,
}

impl Display for Name {
    fn fmt<W: fmt::Write>(&self, f: &mut fmt::Formatter<W>) -> fmt::Result {
        match self {
            Name::Embedded => f.write_str("embedded"),
            Name::T => f.write_str("T"),
            Name::U => f.write_str("U"),
        }
    }
}

// `\xE2\x96\x81` is the mark.
const TOY: &[u8] = b"0\xE2\x96\x81,0a,0b,1ab,3\xE2\x96\x81a,0.,0\xC3,0\xA9";

// Small letters, capital letters, the marks of French typography, and joined pieces.
const FRENCH: &[u8] =
    b"0\xC3\xA0,0\xC3\xA2,0\xC3\xA6,0\xC3\xA7,0\xC3\xA8,0\xC3\xA9,0\xC3\xAA,0\xC3\xAB,0\xC3\xAE,0\xC3\xAF,0\xC3\xB4,0\xC5\x93,0\xC3\xB9,0\xC3\xBB,0\xC3\xBC,0\xC3\xBF,0\xC3\x80,0\xC3\x82,0\xC3\x86,0\xC3\x87,0\xC3\x88,0\xC3\x89,0\xC3\x8A,0\xC3\x8B,0\xC3\x8E,0\xC3\x8F,0\xC3\x94,0\xC5\x92,0\xC3\x99,0\xC3\x9B,0\xC3\x9C,0\xC5\xB8,0\xC2\xA0,0\xC2\xAB,0\xC2\xBB,0\xE2\x80\x93,0\xE2\x80\x94,0\xE2\x80\x99,0\xE2\x80\xA6,0\xE2\x80\xAF,0\xE2\x82\xAC,1es,1en,1le,1de,1nt,1on,1re,1ou,1er,1an,1qu,1ai,1et,1la,1un,1in,1is,1te,1me,1se,1ne,1au,1ti,1ch,1tr,2ent,2que,2ons,2our,2air,2ait,2ment,2tion,1ve,1ur,1us,1il,1eu,1eau,2\xC3\xA9t,2\xC3\xA9s,2\xC3\xA8re,2tr\xC3\xA8,4tr\xC3\xA8s,3\xE2\x96\x81d,3\xE2\x96\x81l,3\xE2\x96\x81s,3\xE2\x96\x81p,3\xE2\x96\x81c,3\xE2\x96\x81le,3\xE2\x96\x81la,3\xE2\x96\x81de,3\xE2\x96\x81et,3\xE2\x96\x81un,3\xE2\x96\x81\xC3\xA0,3\xE2\x96\x81en,3\xE2\x96\x81il,3\xE2\x96\x81se,3\xE2\x96\x81ne,3\xE2\x96\x81que,3\xE2\x96\x81tr\xC3\xA8s,5\xE2\x96\x81les,5\xE2\x96\x81des,5\xE2\x96\x81une,4\xE2\x96\x81pour";

// The model of a name.
pub(crate) fn build(name: Name) -> Tables {
    let mut tables = Tables::empty();
    tables.add_words(TOY);
    match name {
        Name::Embedded => {
            for byte in 0..=255u8 {
                tables.add_byte(byte);
            }
            tables.add_words(FRENCH);
        }
        Name::T => add_toy_bytes(&mut tables),
        Name::U => {
            add_toy_bytes(&mut tables);
            tables.add_words(b"1b\xE2\x96\x81a");
        }
    }
    tables
}

// The bytes that T falls back for.
fn add_toy_bytes(tables: &mut Tables) {
    tables.add_byte(0xC3);
    tables.add_byte(0xA9);
}
