//! Sums computed anew from a whole plan.

ghost use Rattle.std.specs.Prelude.{◌≡◌, ℕ, ◌^◌, ◌<◌, ◌≤◌, ◌==◌, ◌&&◌, not, true, length, slice_index, All};
ghost use Rattle.audit_model.specs.Below.{count_below, map_below};
ghost use Rattle.audit_model.specs.Graph.{adjacent};
ghost use Rattle.audit_model.specs.District.{district_sum};
ghost use Rattle.audit_model.specs.Plan.{cut_edges};
ghost use Rattle.audit_model.specs.Score.{sums_of};
ghost use Rattle.district_sums.specs.Following.{AreInputs};
ghost use Rattle.audit_model.specs.Limits.{IsColumn, most_units};

use crate::lengths::measure_cut;
use audit_model::lists::NumList;
use audit_model::outcome::{Counts, SumsView};
use dual_graph::graph::Graph;
use dual_graph::member::Member;

/// Returns the number of edges that a plan cuts. Allocates nothing.
pub fn count_cut(graph: &Graph, plan: &[u32]) -> u32
    requires { length plan.now ≡ graph.now.units }
    ensures value { result ≡ cut_edges graph.now plan.now }
    ensures few { graph.now.units ≤ most_units }
{
    let mut cut = 0;
    for unit in 0..graph.units() {
        cut += others_below(Member { graph, plan, unit }, unit);
    }
    cut
}

/// Computes all sums of a plan anew and writes them into `view`.
pub(crate) fn refill_view(graph: &Graph, counts: &Counts, plan: &[u32], view: &mut SumsView)
    requires inputs { AreInputs graph.now counts.now (length view.old.population) plan.now }
    requires first { length view.old.first ≡ length view.old.population }
    requires second { length view.old.second ≡ length view.old.population }
    ensures { view.new ≡ sums_of graph.now counts.now (length view.old.population) plan.now }
{
    view.cut = count_cut(graph, plan);
    refill_column(&counts.population, plan, &mut view.population);
    refill_column(&counts.first, plan, &mut view.first);
    refill_column(&counts.second, plan, &mut view.second);
    view.length = measure_cut(graph, &counts.lengths, plan);
}

/// Writes the sum of a column over the units of each district.
fn add_up(column: &[u64], plan: &[u32], sums: &mut [u64])
    requires column { IsColumn (length plan.now) column.now }
    requires few { length plan.now ≤ most_units }
    requires in_range { (u : ℕ) → u < length plan.now → slice_index plan.now u < length sums.old }
    ensures { sums.new ≡ map_below (length sums.old) (district_sum column.now plan.now) }
{
    sums.fill(0);
    for unit in 0..plan.len() {
        sums[plan[unit] as usize] += column[unit];
    }
}

fn refill_column(column: &NumList, plan: &[u32], sums: &mut NumList)
    requires column { IsColumn (length plan.now) column.now }
    requires few { length plan.now ≤ most_units }
    requires in_range { (u : ℕ) → u < length plan.now → slice_index plan.now u < length sums.old }
    ensures { sums.new ≡ map_below (length sums.old) (district_sum column.now plan.now) }
{
    add_up(column.as_slice(), plan, sums.as_mut_slice());
}

/// Counts the neighbors of a unit that are below `bound` and in another district than the unit. If
/// `bound` is the unit itself, the counts of all units add up to each cut edge once.
fn others_below(member: Member, bound: u32) -> u32
    ensures { result ≡ count_below bound (λ v. adjacent member.entry.graph.now v member.entry.unit
        && not (slice_index member.entry.plan.now v == slice_index member.entry.plan.now member.entry.unit)) }
{
    let plan = member.plan;
    let home = plan[member.unit as usize];
    let mut others = 0usize;
    for other in member.graph.neighbours(member.unit) {
        if *other < bound && plan[*other as usize] != home {
            others += 1;
        }
    }
    others as u32
}
