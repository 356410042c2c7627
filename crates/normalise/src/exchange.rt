// A text of which some parts are exchanged for a content, while all other bytes stay.
ghost use Rattle.std.specs.Prelude.{◌≡◌, ℕ, ◌<◌, ◌≤◌, List, [], ◌++◌, length, drop};
ghost use Rattle.normalise.specs.inner.Fit.{Put, fitted, put};
ghost use Rattle.normalise.specs.inner.Heads.{Head};

use crate::copy::copy_at;

// Which parts are exchanged, and for what.
pub trait Exchange {
    ghost content: { Self → List ℕ };

    // What becomes of a text.
    ghost exchanged: { Self → List ℕ → List ℕ };

    fn content(&self) -> &[u8]
        ensures { result.now ≡ content self.now };

    // The width of the part at the head of `rest`; none where its first byte stays.
    fn found(&self, rest: &[u8]) -> Option<usize>
        requires { 0 < length rest.now }
        ensures { Head (exchanged self.now) (content self.now) rest.now result };

    ghost ends: { (e : Self) → exchanged e [] ≡ [] };
}

// The length of `lead` and the text behind it, where there is room for both.
fn exchanged_length<E: Exchange>(
    exchange: &E,
    lead: &[u8],
    text: &[u8],
    room: usize,
) -> Option<usize>
    ensures { result ≡ fitted (length (lead.now ++ E.exchanged exchange.now text.now)) room }
{
    let content = exchange.content();
    let mut left = room.checked_sub(lead.len())?;
    let mut i = 0;
    while i < text.len() {
        let (put, passed) = match exchange.found(&text[i..]) {
            None => (1, 1),
            Some(width) => (content.len(), width),
        };
        left = left.checked_sub(put)?;
        i += passed;
    }
    Some(room - left)
}

fn write_exchanged<E: Exchange>(exchange: &E, lead: &[u8], text: &[u8], out: &mut [u8])
    requires { length (lead.now ++ E.exchanged exchange.now text.now) ≤ length out.old }
    ensures { out.new ≡ (lead.now ++ E.exchanged exchange.now text.now) ++ drop (length (lead.now ++ E.exchanged exchange.now text.now)) out.old }
{
    let content = exchange.content();
    copy_at(out, 0, lead);
    let mut at = lead.len();
    let mut i = 0;
    while i < text.len() {
        match exchange.found(&text[i..]) {
            None => {
                out[at] = text[i];
                at += 1;
                i += 1;
            }
            Some(width) => {
                copy_at(out, at, content);
                at += content.len();
                i += width;
            }
        }
    }
}

// `lead` and the text behind it at the front of `out`, where there is room for both. It is measured first, since `out` stays as it was
// where there is not.
pub fn put_exchanged<E: Exchange>(
    exchange: &E,
    lead: &[u8],
    text: &[u8],
    room: usize,
    out: &mut [u8],
) -> Option<usize>
    ensures { ◌≡◌ {A = Put} (record { length = result; out = out.new }) (put (lead.now ++ E.exchanged exchange.now text.now) room out.old) }
{
    let n = exchanged_length(exchange, lead, text, room.min(out.len()))?;
    write_exchanged(exchange, lead, text, out);
    Some(n)
}
