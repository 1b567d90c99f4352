//! The numbers of a unit's neighbors in two districts.

ghost use Rattle.std.specs.Prelude.{◌≡◌, ◌+◌, ◌^◌, ◌<◌, cond};
ghost use Rattle.district_sums.specs.Following.{count_near};

use dual_graph::member::Member;

/// Counts a unit's neighbors in the district `one`, and its neighbors in the district `other`.
pub fn scan_mates(member: Member, one: u32, other: u32) -> (u64, u64)
    ensures one { result.0 ≡ count_near member.entry.graph.now member.entry.plan.now member.entry.unit one }
    ensures other { result.1 ≡ count_near member.entry.graph.now member.entry.plan.now member.entry.unit other }
{
    let plan = member.plan;
    let mut in_one = 0;
    let mut in_other = 0;
    for neighbor in member.graph.neighbours(member.unit) {
        let district = plan[*neighbor as usize];
        in_one = with_one(in_one, district == one);
        in_other = with_one(in_other, district == other);
    }
    (in_one, in_other)
}

#[inline]
fn with_one(count: u64, counts: bool) -> u64
    requires few { count < 2 ^ 63 }
    ensures { result ≡ count + cond counts 1 0 }
{
    if counts { count + 1 } else { count }
}
