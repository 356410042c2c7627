// Added tokens in a text, and the sections between them. Defined in specs/Matches.antt and specs/Sections.antt, for the second list in
// specs/SecondList.antt; the bytes that contents begin with in specs/Beginnings.antt.

#![tactic(auto)]

ghost use Rattle.std.specs.Prelude.{◌≡◌, cond};
ghost use Rattle.sections.specs.inner.Walk.{is_afresh};

pub mod first;
pub mod seek;
pub mod strips;
pub mod walk;

// An occurrence of a token: the place where it starts, and the token's row.
#[derive(Clone, Copy, PartialEq, Eq, Debug)]
pub struct Match {
    pub place: usize,
    pub row: usize,
}

// The next match that is not swallowed, where it ends, and how many matches may follow.
#[derive(Clone, Copy)]
pub struct Taken {
    pub found: Match,
    pub end: usize,
    pub turns: usize,
}

// How the search for tokens goes on behind a token.
#[derive(Clone, Copy, PartialEq, Eq)]
pub enum Search {
    // From the token's end, whatever strips take: sections, by the first list.
    Onward,
    // From where the token's strip left off: parts, by the second list.
    Afresh,
}

impl Search {
    // Where it goes on, if the next section begins at `start` and the token ends at `end`.
    pub(crate) fn resume(self, start: usize, end: usize) -> usize
        ensures { result ≡ cond (is_afresh self) start end }
    {
        match self {
            Search::Onward => end,
            Search::Afresh => start,
        }
    }
}

// Where a walk through the tokens of a text and what stands between them has come to.
#[derive(Clone, Copy)]
pub enum Cursor {
    // There are no tokens: the text is one section.
    Whole,
    // A section begins at `start`, tokens are sought from `from` on, at most `turns` of them.
    Seek {
        start: usize,
        from: usize,
        turns: usize,
        opening: bool,
    },
    // The token of `row`, which ends at `end`, comes next.
    Held {
        end: usize,
        row: usize,
        turns: usize,
    },
    Done,
}

// What comes next in such a walk, and the cursor behind it.
#[derive(Clone, Copy)]
pub enum Next {
    // The text's part from `start` up to `stop`.
    Plain {
        start: usize,
        stop: usize,
        opening: bool,
        next: Cursor,
    },
    // A token.
    Added {
        id: u32,
        next: Cursor,
    },
    Finished,
}
