//! Copying bytes out of a list.

ghost use Rattle.std.specs.Prelude.{◌≡◌, ◌+◌, ◌-◌, ◌<◌, ◌≤◌, [], min, ◌++◌, length, take, drop};

// Copies up to `most` bytes of `bytes`, starting at `at`, to the front of `into`. Returns their
// number, which is 0 only at the end of `bytes` or if `into` is empty.
pub(crate) fn give(bytes: &[u8], at: usize, most: usize, into: &mut [u8]) -> usize
    requires at { at ≤ length bytes.now }
    requires most { 0 < most }
    ensures amount { result ≤ length into.new }
    ensures within { at + result ≤ length bytes.now }
    ensures given { drop at bytes.now ≡ take result into.new ++ drop (at + result) bytes.now }
    ensures end { result ≡ 0 → 0 < length into.new → drop at bytes.now ≡ [] }
    ensures count { result ≡ min (min (length bytes.now - at) (length into.old)) most }
{
    let count = (bytes.len() - at).min(into.len()).min(most);
    into[..count].copy_from_slice(&bytes[at..at + count]);
    count
}
