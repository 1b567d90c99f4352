//! The changes of the sums when one unit moves.

ghost use Rattle.std.specs.Prelude.{◌≡◌, ◌≢◌, ◌+◌, ◌^◌, ◌<◌, ◌≤◌, length, slice_index, slice_set, All};
ghost use Rattle.audit_model.specs.Below.{map_below};
ghost use Rattle.audit_model.specs.Limits.{IsColumn, most_people};
ghost use Rattle.audit_model.specs.District.{district_sum};
ghost use Rattle.audit_model.specs.Plan.{cut_edges};
ghost use Rattle.district_sums.specs.Following.{AreAdded, AreInputs, MovesWithin, count_near};

use audit_model::lists::NumList;
use audit_model::outcome::{Counts, SumsView};
use dual_graph::member::Member;

/// Moves a unit's population and votes from the sums of its district to those of `district`.
pub(crate) fn shift_counts(counts: &Counts, member: Member, district: u32, view: &mut SumsView)
    requires inputs { AreInputs member.graph.now counts.now (length view.old.population) member.plan.now }
    requires moves { MovesWithin (length view.old.population) member.plan.now member.unit district }
    requires added { AreAdded counts.now (length view.old.population) member.plan.now view.old }
    ensures added { AreAdded counts.now (length view.old.population) (slice_set member.entry.plan.now member.entry.unit district) view.new }
    ensures cut { view.new.cut ≡ view.old.cut }
    ensures length { view.new.length ≡ view.old.length }
{
    shift_list(&counts.population, member, district, &mut view.population);
    shift_list(&counts.first, member, district, &mut view.first);
    shift_list(&counts.second, member, district, &mut view.second);
}

/// Returns the number of cut edges after a move. `before` is the number before it, and `mates` are
/// the numbers of the unit's neighbors in its own district and in the new one.
#[inline]
pub(crate) fn cut_with(member: Member, before: u32, district: u32, mates: (u64, u64)) -> u32
    requires before { before ≡ cut_edges member.graph.now member.plan.now }
    requires home_mates { mates.0 ≡ count_near member.graph.now member.plan.now member.unit (slice_index member.plan.now member.unit) }
    requires other_mates { mates.1 ≡ count_near member.graph.now member.plan.now member.unit district }
    ensures { result ≡ cut_edges member.entry.graph.now (slice_set member.entry.plan.now member.entry.unit district) }
{
    (u64::from(before) + mates.0 - mates.1) as u32
}

/// Moves a unit's entry of a column from the sum of its district to the sum of `district`.
fn shift_column(column: &[u64], member: Member, district: u32, sums: &mut [u64])
    requires column { IsColumn member.graph.now.units column.now }
    requires moves { MovesWithin (length sums.old) member.plan.now member.unit district }
    requires added { sums.old ≡ map_below (length sums.old) (district_sum column.now member.plan.now) }
    ensures { sums.new ≡ map_below (length sums.old) (district_sum column.now (slice_set member.entry.plan.now member.entry.unit district)) }
{
    let amount = column[member.unit as usize];
    sums[member.plan[member.unit as usize] as usize] -= amount;
    sums[district as usize] += amount;
}

fn shift_list(column: &NumList, member: Member, district: u32, sums: &mut NumList)
    requires column { IsColumn member.graph.now.units column.now }
    requires moves { MovesWithin (length sums.old) member.plan.now member.unit district }
    requires added { sums.old ≡ map_below (length sums.old) (district_sum column.now member.plan.now) }
    ensures { sums.new ≡ map_below (length sums.old) (district_sum column.now (slice_set member.entry.plan.now member.entry.unit district)) }
{
    shift_column(column.as_slice(), member, district, sums.as_mut_slice());
}
