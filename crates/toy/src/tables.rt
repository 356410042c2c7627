// The toy models, lent (rules 14.1 and 14.2), and what models near them are made of.
use model::{AddedTokens, MergeRows, Metaspace, Model, PrependScheme, Step, StepList, Strings};

// T.
pub(crate) const PIECES_T: [u8; 14] = [
    0xE2, 0x96, 0x81, 0x61, 0x62, 0x61, 0x62, 0xE2, 0x96, 0x81, 0x61, 0x2E, 0xC3, 0xA9,
];

pub(crate) const OFFSETS_T: [u32; 9] = [0, 3, 4, 5, 7, 11, 12, 13, 14];

// U has one piece and one row more.
const PIECES_U: [u8; 19] = [
    0xE2, 0x96, 0x81, 0x61, 0x62, 0x61, 0x62, 0xE2, 0x96, 0x81, 0x61, 0x2E, 0xC3, 0xA9, 0x62, 0xE2,
    0x96, 0x81, 0x61,
];

const OFFSETS_U: [u32; 10] = [0, 3, 4, 5, 7, 11, 12, 13, 14, 19];

pub(crate) const NO_TOKENS: AddedTokens<'static> = AddedTokens {
    contents: Strings {
        bytes: &[],
        offsets: &[0],
    },
    ids: &[],
    lstrip: &[],
    rstrip: &[],
};

// The token `<n>` of id 50.
pub(crate) const N_ALONE: AddedTokens<'static> = AddedTokens {
    contents: Strings {
        bytes: b"<n>",
        offsets: &[0, 3],
    },
    ids: &[50],
    lstrip: &[false],
    rstrip: &[false],
};

const NOTHING: Step = Step::Strip {
    left: false,
    right: false,
};

pub(crate) const NO_STEPS: StepList<'static> = StepList {
    bytes: &[],
    list: [NOTHING; 16],
    count: 0,
};

pub(crate) const ALWAYS: Metaspace = Metaspace {
    prepend: PrependScheme::Always,
    split: false,
};

// The fallback ids of T and U.
pub(crate) fn fallback() -> [u32; 256] {
    let mut fallback = [u32::MAX; 256];
    fallback[0xC3] = 6;
    fallback[0xA9] = 7;
    fallback
}

pub(crate) fn t(fallback: &[u32]) -> Model<'_> {
    Model {
        pieces: Strings {
            bytes: &PIECES_T,
            offsets: &OFFSETS_T,
        },
        lookup: &[5, 1, 3, 2, 7, 6, 0, 4],
        fallback,
        rows: MergeRows {
            left: &[0, 1],
            right: &[1, 2],
            result: &[4, 3],
            rank: &[1, 0],
        },
        first: NO_TOKENS,
        second: NO_TOKENS,
        steps: NO_STEPS,
        metaspace: Some(ALWAYS),
    }
}

pub(crate) fn u(fallback: &[u32]) -> Model<'_> {
    Model {
        pieces: Strings {
            bytes: &PIECES_U,
            offsets: &OFFSETS_U,
        },
        lookup: &[5, 1, 3, 2, 8, 7, 6, 0, 4],
        fallback,
        rows: MergeRows {
            left: &[0, 1, 2],
            right: &[1, 2, 4],
            result: &[4, 3, 8],
            rank: &[1, 0, 2],
        },
        first: NO_TOKENS,
        second: NO_TOKENS,
        steps: NO_STEPS,
        metaspace: Some(ALWAYS),
    }
}

// U's pieces, the last of them 33 times.
pub(crate) fn crossed_pieces() -> [u8; 179] {
    let mut pieces = [0u8; 179];
    for (i, byte) in pieces.iter_mut().enumerate() {
        *byte = if i < 14 {
            PIECES_U[i]
        } else {
            PIECES_U[14 + (i + 1) % 5]
        };
    }
    pieces
}

// Where those pieces begin, and the end of the last.
pub(crate) fn crossed_offsets() -> [u32; 42] {
    let mut offsets = [0u32; 42];
    for i in 0..42 {
        offsets[i] = if i < 9 {
            OFFSETS_U[i]
        } else {
            (5 * i - 26) as u32
        };
    }
    offsets
}
