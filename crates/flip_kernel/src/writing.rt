//! Writes to the plan and its sums.

ghost use Rattle.std.specs.Prelude.{◌≡◌, ◌<◌, length, slice_index, slice_set};
ghost use Rattle.district_sums.specs.Following.{StandsFor, count_near, districts_in};
ghost use Rattle.flip_kernel.specs.ChainState.{IsSummed};

use crate::moving::Flip;
use audit_model::lists::UnitList;
use district_sums::sums::Sums;
use dual_graph::member::Member;

/// Writes a unit's district in the plan, without updating the sums.
#[inline]
pub(crate) fn put_unit(plan: &mut UnitList, unit: u32, district: u32)
    requires { unit < length plan.old }
    ensures { plan.new ≡ slice_set plan.old unit district }
{
    plan.as_mut_slice()[unit as usize] = district;
}

/// Moves a unit to a district, in the plan and in its sums. `mates` has the number of the unit's neighbors in its old
/// district, and then in the new one.
#[inline(always)]
pub(crate) fn shift(flip: Flip, mates: (u64, u64), sums: &mut Sums, plan: &mut UnitList)
    requires summed { IsSummed flip.job.now plan.old sums.old }
    requires home_mates { mates.0 ≡ count_near flip.job.now.graph plan.old flip.unit (slice_index plan.old flip.unit) }
    requires other_mates { mates.1 ≡ count_near flip.job.now.graph plan.old flip.unit flip.district }
    ensures plan { plan.new ≡ slice_set plan.old flip.entry.unit flip.entry.district }
    ensures places { districts_in sums.new ≡ flip.entry.job.now.districts }
    ensures stands { StandsFor flip.entry.job.now.graph flip.entry.job.now.counts plan.new sums.new }
{
    let member = Member {
        graph: flip.job.graph(),
        plan: plan.as_slice(),
        unit: flip.unit,
    };
    sums.follow(member, flip.job.counts(), flip.district, mates);
    put_unit(plan, flip.unit, flip.district);
}
