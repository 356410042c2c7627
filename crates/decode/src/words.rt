// Short pieces of characters of one byte, eight bytes at a time: with no branch on what they are, but for whether they will do.
ghost use Rattle.std.specs.Prelude.{◌≡◌, true, cond, ◌&&◌, ◌+◌, ◌≤◌, ◌<◌, ltb, length, take, drop};
ghost use Rattle.std.proofs.lemmas.List.Edits.{sets};
ghost use Rattle.utf8.specs.Lists.{all, starts_with};
ghost use Rattle.model.specs.Mark.{mark};
ghost use Rattle.decode.specs.inner.Feeding.{largest};
ghost use Rattle.decode.specs.inner.Words.{is_plain, shown_at, all_or_none};

// Eight bytes that begin with what a piece is shown as, and how many of them that is.
#[derive(Clone, Copy)]
pub struct Shown {
    pub eight: [u8; 8],
    pub len: usize,
}

fn eight_from(bytes: &[u8], i: usize) -> [u8; 8]
    requires { i + 8 ≤ length bytes.now }
    ensures { result ≡ take 8 (drop i bytes.now) }
{
    match bytes[i..].first_chunk() {
        Some(eight) => *eight,
        None => [0; 8],
    }
}

// Whether a mark stands in front, tried as one number: byte by byte there is a branch that short pieces take a third longer for.
fn is_mark_word(eight: [u8; 8]) -> bool
    ensures { result ≡ starts_with mark eight }
{
    usize::from_le_bytes(eight) % 0x100_0000 == 0x81_96E2
}

// Whether a piece of some length in front begins with a mark. The bytes are looked at first, so that nothing is left to branch on.
fn is_marked(bytes: &[u8], len: usize) -> bool
    requires { 8 ≤ length bytes.now }
    ensures { result ≡ starts_with mark (take len bytes.now) }
{
    let marked = is_mark_word(eight_from(bytes, 0));
    marked && 3 <= len
}

// How many bytes fewer a mark takes once it is a space.
fn spared(marked: bool) -> usize
    ensures { result ≡ cond marked 2 0 }
{
    if marked { 2 } else { 0 }
}

// Whether the first n are such characters, where there are fewer than eight: one test for all of them, in one number.
fn is_plain_front(eight: [u8; 8], n: usize) -> bool
    ensures { result ≡ (ltb n 8 && all is_plain (take n eight)) }
{
    if 7 < n {
        return false;
    }
    let front = usize::from_le_bytes(eight) % (1 << (n * 8));
    front.to_le_bytes().is_ascii()
}

// The piece of some length at a place, where it is short and of such characters alone, behind one mark at the most.
pub fn shown_at(bytes: &[u8], start: usize, len: usize) -> Option<Shown>
    requires { start < 4294967296 }
    ensures { result ≡ shown_at bytes.now start len }
{
    if bytes.len() < start + 16 || 9 < len {
        return None;
    }
    let window = &bytes[start..start + 16];
    let marked = is_marked(window, len);
    let shown = len - spared(marked);
    let mut eight = eight_from(window, spared(marked));
    if marked {
        eight[0] = 0x20;
    }
    is_plain_front(eight, shown).then_some(Shown { eight, len: shown })
}

// Whether a buffer has cells for all of eight bytes at a place, or for none.
pub fn all_or_none(at: usize, room: usize) -> bool
    requires { at + 13 ≤ largest }
    ensures { result ≡ all_or_none at room }
{
    room <= at || at + 8 <= room
}

// The bytes behind the piece are put out with it.
pub fn put_eight(eight: [u8; 8], out: &mut [u8], at: usize)
    requires { all_or_none at (length out.old) ≡ true }
    ensures { out.new ≡ sets out.old at eight }
{
    if at < out.len() {
        out[at..at + 8].copy_from_slice(&eight);
    }
}
