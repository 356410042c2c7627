// What is derived of a token list once: the bytes that contents begin with, and the length of the longest.
ghost use Rattle.std.specs.Prelude.{◌≡◌, [], length, get_or};
ghost use Rattle.model.specs.Model.{strings, strings_of};
ghost use Rattle.sections.specs.Beginnings.{beginnings, longest_content};
ghost use Rattle.sections.specs.inner.Seek.{note_first, may_begin};

use model::Strings;
use model::tables::string_at;

fn note_first(content: &[u8], begins: &mut [u32])
    ensures { begins.new ≡ note_first content.now begins.old }
{
    if let Some(b) = content.first() {
        let b = usize::from(*b);
        if b < begins.len() {
            begins[b] = 1;
        }
    }
}

// A number for each byte, as many as there is room for: 1 if some content begins with the byte, else 0.
pub fn first_bytes(contents: &Strings<'_>, begins: &mut [u32])
    ensures { begins.new ≡ beginnings (strings_of contents.now) (length begins.old) }
{
    begins.fill(0);
    for row in 0..contents.len() {
        note_first(contents.get(row), begins);
    }
}

// Whether the numbers leave it open that a content begins with the byte. Of a byte past their end they say nothing.
pub fn may_begin(begins: &[u32], b: u8) -> bool
    ensures { result ≡ may_begin begins.now b }
{
    begins.get(usize::from(b)).copied().unwrap_or(1) != 0
}

// The length of a content. It takes the columns, since a bound on the offsets is known of a slice alone.
fn content_length(bytes: &[u8], offsets: &[u32], row: usize) -> u32
    ensures { result ≡ length (get_or (strings bytes.now offsets.now) row []) }
{
    string_at(bytes, offsets, row).len() as u32
}

// The length of the longest content, 0 without contents.
pub fn longest_content(contents: &Strings<'_>) -> u32
    ensures { result ≡ longest_content (strings_of contents.now) }
{
    (0..contents.len())
        .map(|row| content_length(contents.bytes, contents.offsets, row))
        .max()
        .unwrap_or(0)
}
