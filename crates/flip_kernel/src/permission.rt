//! Tests of the plan after a flip: the length of its cut edges, and the constraint.

ghost use Rattle.std.specs.Prelude.{◌≡◌, ◌≢◌, ◌<◌, nat_le, length, slice_index, slice_set};
ghost use Rattle.audit_model.specs.Job.{rules};
ghost use Rattle.audit_model.specs.Length.{cut_length};
ghost use Rattle.audit_model.specs.Meets.{meets_rules};
ghost use Rattle.audit_model.specs.Plan.{cut_edges};
ghost use Rattle.flip_kernel.specs.ChainState.{IsSummed};
ghost use Rattle.flip_kernel.specs.Judged.{HasConstraintAt};
ghost use Rattle.flip_kernel.specs.Nearby.{CountsNeighbors};

use crate::moving::Flip;
use crate::nearby::NeighborCounts;
use crate::writing::put_unit;
use audit_model::lists::UnitList;
use district_sums::lengths::length_after;
use district_sums::sums::Sums;
use dual_graph::member::Member;
use flip_guard::judge::Judge;

/// Does the work of `keeps_length` if edges have lengths. The new total is computed from the total before the flip. Few
/// jobs have lengths, so the code is kept out of line.
#[inline(never)]
pub(crate) fn is_short(flip: Flip, sums: &Sums, plan: &UnitList) -> bool
    requires summed { IsSummed flip.job.now plan.now sums.now }
    ensures { result ≡ nat_le (cut_length flip.entry.job.now.graph flip.entry.job.now.counts.lengths (slice_set plan.now flip.entry.unit flip.entry.district))
        flip.entry.job.now.setting.max_length }
{
    let member = Member {
        graph: flip.job.graph(),
        plan: plan.as_slice(),
        unit: flip.unit,
    };
    let before = sums.view().length;
    let lengths = &flip.job.counts().lengths;
    length_after(member, lengths, before, flip.district) <= flip.job.setting().max_length
}

/// Returns true if the constraint permits the plan after the flip.
///
/// The constraint reads a plan and the number of its cut edges. The function therefore writes the flip into `plan` and
/// the new number into `sums`. It undoes both after the call.
#[inline(never)]
pub(crate) fn is_permitted<J: Judge>(
    judge: &J,
    flip: Flip,
    near: &NeighborCounts,
    sums: &mut Sums,
    plan: &mut UnitList,
) -> bool
    requires summed { IsSummed flip.job.now plan.old sums.old }
    requires near { CountsNeighbors flip.job.now.graph plan.old flip.job.now.districts near.now }
    requires judge { HasConstraintAt flip.job.now plan.old (J.judging judge.now) }
    requires elsewhere { slice_index plan.old flip.unit ≢ flip.district }
    ensures meets { let after = slice_set plan.old flip.entry.unit flip.entry.district in
        result ≡ meets_rules (rules flip.entry.job.now) (cut_edges flip.entry.job.now.graph after) after }
    ensures plan { plan.new ≡ plan.old }
    ensures sums { sums.new ≡ sums.old }
{
    let home = plan.as_slice()[flip.unit as usize];
    let before = sums.view().cut;
    let member = Member {
        graph: flip.job.graph(),
        plan: plan.as_slice(),
        unit: flip.unit,
    };
    let mates = near.mates(member, flip.job.districts(), home, flip.district);
    let after = sums.cut_after(member, flip.district, mates);
    sums.put_cut(after);
    put_unit(plan, flip.unit, flip.district);
    let permitted = judge.permits(plan.as_slice(), sums.view(), flip.unit, home);
    put_unit(plan, flip.unit, home);
    sums.put_cut(before);
    permitted
}
