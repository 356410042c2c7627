// Byte order, and the order of pairs of ids.
ghost use Rattle.std.specs.Prelude.{◌≡◌};
ghost use Rattle.utf8.specs.Lists.{same};
ghost use Rattle.model.specs.ByteOrder.{byte_order};
ghost use Rattle.model.specs.inner.Search.{pair_order};

use std::cmp::Ordering;

// How `a` stands to `b` in byte order.
pub fn byte_order(a: &[u8], b: &[u8]) -> Ordering
    ensures { result ≡ byte_order a.now b.now }
{
    a.cmp(b)
}

// How the pair `a`, `b` stands to the pair `l`, `r`.
pub fn pair_order(a: u32, b: u32, l: u32, r: u32) -> Ordering
    ensures { result ≡ pair_order (a, b) (l, r) }
{
    a.cmp(&l).then(b.cmp(&r))
}

// Whether `a` and `b` are the same bytes.
pub fn equal(a: &[u8], b: &[u8]) -> bool
    ensures { result ≡ same a.now b.now }
{
    a == b
}
