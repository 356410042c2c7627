// What a text begins and ends with.
ghost use Rattle.std.specs.Prelude.{◌≡◌};
ghost use Rattle.utf8.specs.Lists.{starts_with, ends_with};

pub fn starts_with(text: &[u8], pattern: &[u8]) -> bool
    ensures { result ≡ starts_with pattern.now text.now }
{
    if text.len() < pattern.len() {
        return false;
    }
    // Most patterns differ from a text in the first byte: one test, before the slices are compared.
    if !pattern.is_empty() && pattern[0] != text[0] {
        return false;
    }
    pattern == &text[..pattern.len()]
}

pub fn ends_with(text: &[u8], pattern: &[u8]) -> bool
    ensures { result ≡ ends_with pattern.now text.now }
{
    if text.len() < pattern.len() {
        return false;
    }
    pattern == &text[text.len() - pattern.len()..]
}
