//! Majorities of a group.

ghost use Rattle.std.specs.Prelude.{◌≡◌, ◌*◌, ◌^◌, ◌<◌, ◌≤◌, ℕ, nat_lt, length, slice_index};
ghost use Rattle.audit_model.specs.Below.{count_below};
ghost use Rattle.audit_model.specs.Limits.{IsGroup, most_units, most_people, most_districts};
ghost use Rattle.audit_model.specs.Meets.{majorities};

use crate::sums::district_sums;
use audit_model::rules::Group;

/// Returns true if `members` is more than `share` hundredths of a percent of `whole`.
fn is_above(share: u32, members: u64, whole: u64) -> bool
    requires few { 10000 * members < 2 ^ 64 }
    requires few_whole { share * whole < 2 ^ 64 }
    ensures { result ≡ nat_lt (share * whole) (10000 * members) }
{
    u64::from(share) * whole < 10_000 * members
}

/// Returns the number of districts in which `members` is more than `share` hundredths of a percent
/// of `whole`.
fn count_over_share(share: u32, members: &[u64; 200], whole: &[u64; 200]) -> u32
    requires members { (d : ℕ) → d < most_districts → slice_index members.now d ≤ most_people * most_units }
    requires whole { (d : ℕ) → d < most_districts → share * slice_index whole.now d < 2 ^ 64 }
    ensures { result ≡ count_below most_districts (λ d. nat_lt (share * slice_index whole.now d) (10000 * slice_index members.now d)) }
{
    let mut count = 0;
    for district in 0..200usize {
        if is_above(share, members[district], whole[district]) {
            count += 1;
        }
    }
    count
}

/// Returns the number of districts in which the group has a majority, or 0 if there is no group.
///
/// The group has a majority in a district if it is more than `share` hundredths of a percent of the
/// base population.
pub fn count_majorities(share: u32, group: &Group, plan: &[u32]) -> u32
    requires share { share ≤ 10000 }
    requires group { IsGroup (length plan.now) group.now }
    requires few { length plan.now ≤ most_units }
    requires districts { (u : ℕ) → u < length plan.now → slice_index plan.now u < most_districts }
    ensures { result ≡ majorities share group.now plan.now }
{
    if group.members.as_slice().is_empty() {
        return 0;
    }
    let members = district_sums(group.members.as_slice(), plan);
    let whole = district_sums(group.whole.as_slice(), plan);
    count_over_share(share, &members, &whole)
}
