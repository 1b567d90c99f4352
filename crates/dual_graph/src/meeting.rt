//! A search from two units at once, which ends where the two sides meet.

ghost use Rattle.std.specs.Prelude.{◌≡◌, ◌≢◌, ◌<◌, ◌↔◌, ◌∷◌, ℕ, [], length, slice_index, IsTrue, IsFalse};
ghost use Rattle.std.specs.List.{slice_index_or};
ghost use Rattle.audit_model.specs.Graph.{has, adjacent, IsIn};
ghost use Rattle.audit_model.specs.Path.{HasPath};
ghost use Rattle.audit_model.specs.Search.{AddsFrom};
ghost use Rattle.dual_graph.specs.Marked.{IsMarked};

use crate::graph::Graph;
use crate::inside::Inside;
use crate::mark_list::MarkList;
use crate::search::Within;

/// Returns true if a path within the set joins two of its units.
///
/// Each side marks the neighbors of one of its units in turn. The sides meet where a neighbor of one
/// is marked by the other. If a side has no unit left to visit, no path joins the two units.
pub(crate) fn are_joined<I: Inside>(
    graph: &Graph,
    set: &I,
    units: (u32, u32),
    near: &mut MarkList,
    far: &mut MarkList,
) -> bool
    requires set { I.units set.now ≡ graph.now.units }
    requires near { near.old.units ≡ graph.now.units }
    requires far { far.old.units ≡ graph.now.units }
    requires one { IsIn graph.now (I.inside set.now) units.0 }
    requires other { IsIn graph.now (I.inside set.now) units.1 }
    requires apart { units.0 ≢ units.1 }
    ensures near { near.new.units ≡ graph.now.units }
    ensures far { far.new.units ≡ graph.now.units }
    ensures joined { IsTrue result ↔ HasPath graph.now (I.inside set.now) units.0 units.1 }
{
    // This call only tells the proof that the graph is sound.
    let _units = graph.units();
    let within = Within { graph, set };
    begin(near, units.0);
    begin(far, units.1);
    let mut next = 0;
    while next < near.count() && next < far.count() {
        if visit(&within, near, far, next) {
            return true;
        }
        if visit(&within, far, near, next) {
            return true;
        }
        next += 1;
    }
    false
}

/// Marks one unit alone.
fn begin(side: &mut MarkList, unit: u32)
    requires { unit < side.old.units }
    ensures units { side.new.units ≡ side.old.units }
    ensures items { side.new.items ≡ unit ∷ [] }
    ensures marked { IsMarked side.new }
{
    side.clear();
    side.mark(unit);
}

/// Marks the neighbors in the set of the unit at a place of a side. Returns true if the other side
/// has marked one of them.
///
/// The loop has no branch on the set or on marks: such a branch would often be mispredicted.
#[inline]
fn visit<I: Inside>(
    within: &Within<I>,
    side: &mut MarkList,
    other_side: &MarkList,
    place: usize,
) -> bool
    requires side { side.old.units ≡ within.now.graph.now.units }
    requires marked { IsMarked side.old }
    requires other_side { other_side.now.units ≡ within.now.graph.now.units }
    requires place { place < length side.old.items }
    ensures units { side.new.units ≡ within.now.graph.now.units }
    ensures marked { IsMarked side.new }
    ensures added { AddsFrom within.now.graph.now (I.inside within.now.set.now) (slice_index_or within.now.graph.now.neighbours (slice_index side.old.items place) []) side.old.items side.new.items }
    ensures met { IsTrue result → (v : ℕ) × IsTrue (adjacent within.now.graph.now (slice_index side.old.items place) v) × IsTrue (has other_side.now.items v) }
    ensures apart { IsFalse result → (v : ℕ) → IsTrue (adjacent within.now.graph.now (slice_index side.old.items place) v) → IsFalse (has other_side.now.items v) }
{
    let mut met = false;
    for other in within.graph.neighbours(side.at(place)) {
        let neighbour = *other;
        let fresh = within.set.holds(neighbour) & !side.has(neighbour);
        side.mark_if(neighbour, 1, fresh);
        met = met | other_side.has(neighbour);
    }
    met
}
