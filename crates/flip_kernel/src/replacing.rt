//! Replaces a plan unit by unit, with its sums and tables.

ghost use Rattle.std.specs.Prelude.{◌≡◌, ◌≢◌, ℕ, ◌<◌, length, slice_index, slice_set};
ghost use Rattle.flip_kernel.specs.Fitting.{Fits};

use crate::nearby::NeighborCounts;
use crate::writing::put_unit;
use audit_model::lists::UnitList;
use audit_model::outcome::Counts;
use contig::counts::FaceCounts;
use contig::table::FaceTable;
use district_sums::sums::Sums;
use dual_graph::graph::Graph;
use dual_graph::member::Member;

/// A plan, and what its sums and tables depend on beside it.
#[derive(Clone, Copy)]
pub(crate) struct Target<'a> {
    pub graph: &'a Graph,
    pub columns: &'a Counts,
    pub faces: &'a FaceTable,
    pub districts: u32,
    pub plan: &'a [u32],
    pub ghost made: { faces.now.graph ≡ graph.now },
    pub ghost complete: { length plan.now ≡ graph.now.units },
    pub ghost in_range: { (u : ℕ) → u < graph.now.units → slice_index plan.now u < districts },
}

/// Moves a unit to its district in the target, with the sums and tables. No plan has to be legal.
fn replace_unit(
    target: Target,
    unit: u32,
    plan: &mut UnitList,
    sums: &mut Sums,
    near: &mut NeighborCounts,
    counts: &mut FaceCounts,
)
    requires unit { unit < target.graph.now.units }
    requires elsewhere { slice_index plan.old unit ≢ slice_index target.plan.now unit }
    requires fits { Fits target.graph.now target.columns.now target.faces.now.faces target.districts plan.old sums.old near.old counts.old }
    ensures plan { plan.new ≡ slice_set plan.old unit (slice_index target.entry.plan.now unit) }
    ensures fits { Fits target.entry.graph.now target.entry.columns.now target.entry.faces.now.faces target.entry.districts plan.new sums.new near.new counts.new }
    ensures width { length near.new ≡ length near.old }
{
    // This call only tells the proof that the graph is sound.
    let _units = target.graph.units();
    let leaving = Member {
        graph: target.graph,
        plan: plan.as_slice(),
        unit,
    };
    let home = leaving.plan[unit as usize];
    let district = target.plan[unit as usize];
    let mates = near.mates(leaving, target.districts, home, district);
    counts.follow(target.faces, leaving, district, mates);
    near.follow(leaving, target.districts, district);
    sums.follow(leaving, target.columns, district, mates);
    put_unit(plan, unit, district);
}

/// Replaces a plan by the target, with the sums and tables. It updates them for each unit that is
/// in another district, so it costs little if few units are. It allocates nothing.
pub(crate) fn replace_units(
    target: Target,
    plan: &mut UnitList,
    sums: &mut Sums,
    near: &mut NeighborCounts,
    counts: &mut FaceCounts,
)
    requires fits { Fits target.graph.now target.columns.now target.faces.now.faces target.districts plan.old sums.old near.old counts.old }
    ensures plan { plan.new ≡ target.entry.plan.now }
    ensures fits { Fits target.entry.graph.now target.entry.columns.now target.entry.faces.now.faces target.entry.districts plan.new sums.new near.new counts.new }
    ensures width { length near.new ≡ length near.old }
{
    for unit in 0..target.graph.units() {
        if plan.as_slice()[unit as usize] != target.plan[unit as usize] {
            replace_unit(target, unit, plan, sums, near, counts);
        }
    }
}
