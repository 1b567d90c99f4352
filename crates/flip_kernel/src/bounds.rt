//! The test of the population bounds.

ghost use Rattle.std.specs.Prelude.{◌<◌, ◌≤◌, ◌^◌, ◌↔◌, IsTrue};
ghost use Rattle.flip_kernel.specs.ChainState.{KeepsBounds};

/// Returns true if both populations stay within the bounds when `people` move.
///
/// If a bound is violated, its difference wraps around to 2^63 or more, and otherwise it is less. One comparison of the
/// larger difference therefore tests both bounds.
#[inline]
pub(crate) fn are_kept(low: u64, high: u64, people: u64, from: u64, to: u64) -> bool
    requires people { people ≤ from }
    requires from { (low ≤ from) × (from ≤ high) }
    requires to { to ≤ high }
    requires high { high < 2 ^ 63 }
    ensures { IsTrue result ↔ KeepsBounds low high people from to }
{
    let left = (from - people).wrapping_sub(low);
    let room = (high - people).wrapping_sub(to);
    left.max(room) < 1 << 63
}
