//! The numbers of the outlier tests: tails, bounds, ranks and p-values.
#![tactic(auto)]

ghost use Rattle.std.specs.Prelude.{◌≡◌, ◌*◌, ◌^◌, ◌<◌, ◌≤◌, nat_le};
ghost use Rattle.audit_model.specs.Least.{IsLeast};
ghost use Rattle.audit_model.specs.Test as test;
ghost use Rattle.audit_model.specs.Trajectory as trajectory;

use audit_model::outcome::Outcome;
use audit_model::setting::Tail;

const BILLION: u64 = 1_000_000_000;

const BILLION_SQUARED: u128 = 1_000_000_000_000_000_000;

/// Returns true if a value is at least as extreme as the start plan's: at most `start` in the low
/// tail, at least `start` in the high one.
#[inline]
pub fn in_tail(tail: Tail, value: i64, start: i64) -> bool
    ensures { result ≡ trajectory.in_tail tail value start }
{
    match tail {
        Tail::Low => value <= start,
        Tail::High => value >= start,
    }
}

/// Returns the p-value bound of a start plan if `count` of the `of` visited plans are in the tail.
/// The start plan is one of the `count` plans.
///
/// The bound is the square root of `2 * count / of`, in billionths (Chikina, Frieze and Pegden). It
/// is rounded up, so that it is never below the exact root.
pub fn bound(count: u64, of: u64) -> u64
    requires count { (1 ≤ count) × (count ≤ of) }
    requires few { of ≤ 1000000001 }
    ensures value { result ≡ test.bound count of }
    ensures least { IsLeast (λ r. nat_le (2 * count * 10 ^ 18) (r * r * of)) result }
{
    // The least r with r * r > short is the least with 2 * count * 10^18 <= r * r * of.
    let short = (2 * u128::from(count) * BILLION_SQUARED - 1) / u128::from(of);
    (short as u64).isqrt() + 1
}

/// Returns the start plan's rank among the endpoints of the parallel test (Besag and Clifford).
///
/// The rank is one plus the number of endpoints whose value of the ask with index `ask` is in the
/// tail.
pub fn rank(tail: Tail, start: i64, ask: u32, ends: &[Outcome]) -> u64
    requires { ask < 4 }
    ensures { result ≡ trajectory.rank_among tail start ask ends.now }
{
    let mut rank = 1;
    for end in ends {
        if in_tail(tail, end.values[ask as usize], start) {
            rank += 1;
        }
    }
    rank
}

/// Returns the p-value `rank / of` of the parallel or serial test (Besag and Clifford), in
/// billionths. It is rounded up, so that it is never below the fraction. `of` is the number of
/// ranked plans, the start plan among them.
pub fn p_value(rank: u64, of: u64) -> u64
    requires rank { (1 ≤ rank) × (rank ≤ of) }
    requires few { of ≤ 1000000001 }
    ensures value { result ≡ test.p_value rank of }
    ensures least { IsLeast (λ z. nat_le (rank * 10 ^ 9) (z * of)) result }
{
    (rank * BILLION + of - 1) / of
}

/// Returns the p-value bound `count / of` of a start plan, in billionths, if `count` plans of two walks from it are in
/// the tail (Chikina, Frieze, Mattingly and Pegden). It is rounded up, so that it is never below the fraction. `of` is
/// the number of plans that each walk visits. The start plan is one of the `count` plans, and counts once.
pub fn pair_bound(count: u64, of: u64) -> u64
    requires count { (1 ≤ count) × (count < 2 * of) }
    requires few { of ≤ 1000000001 }
    ensures value { result ≡ test.p_value count of }
    ensures least { IsLeast (λ z. nat_le (count * 10 ^ 9) (z * of)) result }
{
    (count * BILLION + of - 1) / of
}
