//! The weight on cut edges: which draws take a change of the number of cut edges.

ghost use Rattle.std.specs.Prelude.{◌≡◌, ◌≢◌, ◌+◌, ◌-◌, ◌*◌, ◌<◌, ◌≤◌, slice_index, slice_set};
ghost use Rattle.audit_model.specs.JobOf.{IsJob};
ghost use Rattle.audit_model.specs.Weight.{factor, factors, is_taken, largest_change, passes, weighed_draws};
ghost use Rattle.flip_kernel.specs.Blocks.{AreBlocks};
ghost use Rattle.flip_kernel.specs.ChainState.{IsSummed};
ghost use Rattle.flip_kernel.specs.Nearby.{CountsNeighbors};

use crate::moving::Flip;
use crate::nearby::NeighborCounts;
use crate::proposal::Pairs;
use audit_model::lists::UnitList;
use district_sums::sums::Sums;
use dual_graph::member::Member;

/// Returns the largest change of the number of cut edges in one step.
pub(crate) fn largest_change(pairs: u64) -> u32
    requires { pairs ≤ 20000000 }
    ensures { result ≡ largest_change pairs }
{
    let mut most = 0;
    for m in 0..9u32 {
        if u128::from(pairs) * 64u128.pow(m + 2) <= 1u128 << 64 {
            most += 1;
        }
    }
    most
}

/// Returns the greatest draw that counts with a weight: the last one of the whole blocks of all pairs with all digits.
pub(crate) fn last_weighed(pairs: u64) -> u64
    requires { (0 < pairs) × (pairs ≤ 20000000) }
    ensures { result + 1 ≡ weighed_draws pairs (largest_change pairs) }
{
    let block = u128::from(pairs) * 64u128.pow(largest_change(pairs));
    let whole = (1u128 << 64) / block * block;
    (whole - 1) as u64
}

/// Returns the factor of the cut edge with the number `edge`, in units of 1/64.
#[inline]
fn factor(weight: u32, edge: u32) -> u64
    requires { weight ≤ 256 }
    ensures { result ≡ factor weight edge }
{
    u64::from((weight + 3 - edge % 4) / 4)
}

/// Returns the product of the factors of the next `added` cut edges after `cut` ones.
#[inline]
fn factors(weight: u32, cut: u32, added: u32) -> u64
    requires weight { weight ≤ 256 }
    requires cut { cut ≤ 400000 }
    requires added { added ≤ 9 }
    ensures { result ≡ factors weight cut added }
{
    let mut product = 1u64;
    for k in 0..added {
        product *= factor(weight, cut + k);
    }
    product
}

/// Returns true if the draw takes the change from `before` to `after` cut edges.
///
/// Most draws propose a change by a few cut edges, so the factors are multiplied anew.
#[inline]
fn takes(pairs: &Pairs, weight: u32, draw: u64, before: u32, after: u32) -> bool
    requires blocks { AreBlocks pairs.now }
    requires weight { weight ≤ 256 }
    requires before { before ≤ 400000 }
    ensures { result ≡ passes (factors weight before (after - before)) pairs.now.count (largest_change pairs.now.count) draw (after - before) (before - after) }
{
    if draw > pairs.last_weighed {
        return false;
    }
    if after <= before {
        return before - after <= pairs.largest_change;
    }
    let added = after - before;
    if added > pairs.largest_change {
        return false;
    }
    let digits = pairs.quotient(draw) & ((1u64 << (6 * added)) - 1);
    digits < factors(weight, before, added)
}

/// Returns true if the draw takes the change of cut edges by the flip.
pub(crate) fn is_taken_by(
    flip: Flip,
    draw: u64,
    pairs: &Pairs,
    sums: &Sums,
    near: &NeighborCounts,
    plan: &UnitList,
) -> bool
    requires sound { IsJob flip.job.now }
    requires blocks { AreBlocks pairs.now }
    requires count { pairs.now.count ≡ flip.job.now.graph.units * flip.job.now.districts }
    requires summed { IsSummed flip.job.now plan.now sums.now }
    requires near { CountsNeighbors flip.job.now.graph plan.now flip.job.now.districts near.now }
    requires weighted { flip.job.now.setting.cut_weight ≢ 256 }
    ensures { result ≡ is_taken flip.entry.job.now plan.now (slice_set plan.now flip.entry.unit flip.entry.district) draw }
{
    let job = flip.job;
    let home = plan.as_slice()[flip.unit as usize];
    let member = Member {
        graph: job.graph(),
        plan: plan.as_slice(),
        unit: flip.unit,
    };
    let mates = near.mates(member, job.districts(), home, flip.district);
    let before = sums.view().cut;
    let after = sums.cut_after(member, flip.district, mates);
    takes(pairs, job.setting().cut_weight, draw, before, after)
}
