//! Calls that decide if a unit may leave its district.

ghost use Rattle.std.specs.Prelude.{◌≡◌, ◌+◌, ◌<◌, ◌≤◌, ◌^◌, ◌-◌, ◌↔◌, ⊤, [], length, slice_index, IsTrue, MatchOption};
ghost use Rattle.std.specs.List.{slice_index_or};
ghost use Rattle.audit_model.specs.Local.{IsLocal, MayLeave};
ghost use Rattle.audit_model.specs.Path.{IsConnected};
ghost use Rattle.audit_model.specs.District.{in_district};
ghost use Rattle.contig.specs.Counts.{AreCounts, HasNoHole};
ghost use Rattle.contig.specs.Faces.{AreLinked};

use crate::counts::FaceCounts;
use crate::flood::{mates_are_whole, rest_is_whole, rest_joins};
use crate::links::MOST as MOST_LINKED;
use crate::parts::{MOST, are_linked, are_two_parts, mark_mates, meet, other_part};
use crate::table::FaceTable;
use audit_model::steps::Steps;
use dual_graph::graph::Graph;
use dual_graph::marks::Marks;
use dual_graph::member::Member;
use std::sync::ledger::Ledger;

/// Returns true if the mates of a unit are connected among themselves.
pub fn local_holds(graph: &Graph, plan: &[u32], unit: u32, marks: &mut Marks) -> bool
    requires plan { length plan.now ≡ graph.now.units }
    requires unit { unit < graph.now.units }
    requires marks { marks.old.units ≡ graph.now.units }
    ensures marks { marks.new.units ≡ marks.old.units }
    ensures local { IsTrue result ↔ IsLocal graph.now plan.now unit }
{
    has_linked_mates(graph.member(plan, unit), marks)
}

// Does the work of `local_holds`.
fn has_linked_mates(leaving: Member, marks: &mut Marks) -> bool
    requires { marks.old.units ≡ leaving.graph.now.units }
    ensures marks { marks.new.units ≡ marks.old.units }
    ensures local { IsTrue result ↔ IsLocal leaving.entry.graph.now leaving.entry.plan.now leaving.entry.unit }
{
    let mates = mark_mates(leaving, marks);
    if mates == 0 || mates > MOST {
        return mates_are_whole(leaving, marks);
    }
    let mut roots: [u8; 17] = [0, 1, 2, 3, 4, 5, 6, 7, 8, 9, 10, 11, 12, 13, 14, 15, 16];
    are_linked(leaving, marks, &mut roots, mates)
}

/// Searches the rest of the unit's district, and returns true if the rest is nonempty and
/// connected. `steps` counts the search.
pub fn search_holds<L: Ledger>(
    graph: &Graph,
    plan: &[u32],
    unit: u32,
    marks: &mut Marks,
    steps: &mut Steps<L>,
) -> bool
    requires plan { length plan.now ≡ graph.now.units }
    requires unit { unit < graph.now.units }
    requires marks { marks.old.units ≡ graph.now.units }
    ensures marks { marks.new.units ≡ marks.old.units }
    ensures leaves { IsTrue result ↔ MayLeave graph.now plan.now unit }
    ensures cost { steps.new ≡ steps.old + 1 }
{
    rest_is_whole(graph.member(plan, unit), marks, steps)
}

/// Returns true if the unit may leave its district, which must be connected.
///
/// The rest is searched only if the unit's mates are not connected among themselves. `steps` counts
/// the search.
pub fn may_leave<L: Ledger>(
    graph: &Graph,
    plan: &[u32],
    unit: u32,
    marks: &mut Marks,
    steps: &mut Steps<L>,
) -> bool
    requires plan { length plan.now ≡ graph.now.units }
    requires unit { unit < graph.now.units }
    requires marks { marks.old.units ≡ graph.now.units }
    ensures marks { marks.new.units ≡ marks.old.units }
    ensures leaves { IsConnected graph.now (in_district plan.now (slice_index plan.now unit)) → (IsTrue result ↔ MayLeave graph.now plan.now unit) }
    ensures local { IsLocal graph.now plan.now unit → steps.new ≡ steps.old }
    ensures rising { steps.old ≤ steps.new }
    ensures most { steps.new ≤ steps.old + 1 }
{
    can_leave(graph.member(plan, unit), marks, steps)
}

// Does the work of `may_leave`.
fn can_leave<L: Ledger>(leaving: Member, marks: &mut Marks, steps: &mut Steps<L>) -> bool
    requires { marks.old.units ≡ leaving.graph.now.units }
    ensures marks { marks.new.units ≡ marks.old.units }
    ensures leaves { let g = leaving.entry.graph.now in let plan = leaving.entry.plan.now in let u = leaving.entry.unit in
        IsConnected g (in_district plan (slice_index plan u)) → (IsTrue result ↔ MayLeave g plan u) }
    ensures local { IsLocal leaving.entry.graph.now leaving.entry.plan.now leaving.entry.unit → steps.new ≡ steps.old }
    ensures rising { steps.old ≤ steps.new }
    ensures most { steps.new ≤ steps.old + 1 }
{
    let mates = mark_mates(leaving, marks);
    if mates == 1 {
        return true;
    }
    if mates == 0 || mates > MOST {
        if mates_are_whole(leaving, marks) {
            return true;
        }
        return rest_is_whole(leaving, marks, steps);
    }
    let mut roots: [u8; 17] = [0, 1, 2, 3, 4, 5, 6, 7, 8, 9, 10, 11, 12, 13, 14, 15, 16];
    if are_linked(leaving, marks, &mut roots, mates) {
        return true;
    }
    // A search from one mate of each part visits fewer units than one from all mates.
    let other = other_part(&roots, mates);
    if are_two_parts(&roots, mates, other) {
        let one = marks.at(0);
        let other = marks.at(other - 1);
        return rest_joins(leaving, one, other, marks, steps);
    }
    meet(leaving, marks, &mut roots, mates, steps)
}

/// Decides by the tests of links, counts and long faces if a unit may leave its district, which must
/// be connected.
///
/// Returns `None` if the three tests do not decide, and for each unit with more than 32 neighbors.
#[inline(always)]
pub fn decide_by_counting(leaving: Member, table: &FaceTable, counts: &FaceCounts) -> Option<bool>
    requires made { table.now.graph ≡ leaving.graph.now }
    requires counts { AreCounts leaving.graph.now table.now.faces (length counts.now.edges) leaving.plan.now counts.now }
    requires district { slice_index leaving.plan.now leaving.unit < length counts.now.edges }
    requires connected { IsConnected leaving.graph.now (in_district leaving.plan.now (slice_index leaving.plan.now leaving.unit)) }
    ensures observed { MatchOption result ⊤ (λ may. IsTrue may ↔ MayLeave leaving.entry.graph.now leaving.entry.plan.now leaving.entry.unit) }
    ensures undecided { let g = leaving.entry.graph.now in let plan = leaving.entry.plan.now in let u = leaving.entry.unit in
        MatchOption result (length (slice_index_or g.neighbours u []) ≤ 32 → (AreLinked g table.now.faces plan u → ⊥) × (HasNoHole counts.now (slice_index plan u) → ⊥)) (λ may. ⊤) }
{
    if leaving.graph.neighbours(leaving.unit).len() > MOST_LINKED {
        return None;
    }
    if table.links_mates(leaving) {
        return Some(true);
    }
    if counts.has_no_hole(leaving.plan[leaving.unit as usize]) {
        return Some(false);
    }
    if table.has_long_faces() && has_closed_holes(leaving, table, counts) {
        return Some(false);
    }
    None
}

/// Returns true if the unit's district misses no more faces than it has long faces, none of which
/// has the unit. If the mates are not linked, the unit may then not leave.
///
/// Few graphs have long faces, so the code is kept out of line.
#[inline(never)]
fn has_closed_holes(leaving: Member, table: &FaceTable, counts: &FaceCounts) -> bool
    requires made { table.now.graph ≡ leaving.graph.now }
    requires counts { AreCounts leaving.graph.now table.now.faces (length counts.now.edges) leaving.plan.now counts.now }
    requires district { slice_index leaving.plan.now leaving.unit < length counts.now.edges }
    ensures { let g = leaving.entry.graph.now in let plan = leaving.entry.plan.now in let u = leaving.entry.unit in
        IsTrue result → IsConnected g (in_district plan (slice_index plan u)) → (AreLinked g table.now.faces plan u → ⊥) → MayLeave g plan u → ⊥ }
{
    table.closes_holes(leaving, counts.missing(leaving.plan[leaving.unit as usize]))
}
