//! Decides if a unit may leave its district, by filling the district's holes for the moment.
//!
//! A unit that is moved into the district is a *filler*. The plan without it is the *bare* plan.

ghost use Rattle.std.specs.Prelude.{◌≡◌, ◌≢◌, ◌<◌, ◌↔◌, ⊤, ℕ, length, slice_index, slice_set, IsTrue, MatchOption};
ghost use Rattle.audit_model.specs.District.{in_district};
ghost use Rattle.audit_model.specs.Graph.{IsGraph, IsIn, adjacent};
ghost use Rattle.audit_model.specs.Local.{MayLeave, stays_behind};
ghost use Rattle.audit_model.specs.Path.{IsConnected};
ghost use Rattle.contig.specs.Counts.{AreCounts, missing_faces};

use crate::counts::FaceCounts;
use crate::links::MOST as MOST_LINKED;
use crate::missing::missing_with;
use crate::table::FaceTable;
use dual_graph::graph::Graph;
use dual_graph::member::Member;

/// The maximum number of units that are tried as fillers.
const MOST: usize = 16;

/// Decides if a unit may leave its district, which must be connected, by filling the district's
/// holes. At the end, the plan is as it was.
///
/// `fillers` are units that may be the holes. Nothing is required of them: a unit that cannot be
/// used is passed over. At most 16 of them are tried. Long faces in the district close holes too.
/// Returns `None` if the filled district does not decide, and if more faces are missing than there
/// are fillers and such long faces.
pub fn decide_by_filling(
    graph: &Graph,
    plan: &mut [u32],
    unit: u32,
    table: &FaceTable,
    counts: &FaceCounts,
    fillers: &[u32],
) -> Option<bool>
    requires made { table.now.graph ≡ graph.now }
    requires width { length plan.old ≡ graph.now.units }
    requires unit { unit < graph.now.units }
    requires counts { AreCounts graph.now table.now.faces (length counts.now.edges) plan.old counts.now }
    requires district { slice_index plan.old unit < length counts.now.edges }
    requires connected { IsConnected graph.now (in_district plan.old (slice_index plan.old unit)) }
    ensures plan { plan.new ≡ plan.old }
    ensures observed { MatchOption result ⊤ (λ may. IsTrue may ↔ MayLeave graph.now plan.old unit) }
{
    let missing = missing_at(graph.member(plan, unit), table, counts);
    let closed = count_closed(graph.member(plan, unit), table);
    let tried = fillers.len().min(MOST);
    fill(
        graph,
        plan,
        unit,
        table,
        (missing, closed),
        &fillers[..tried],
    )
}

// Returns the number of missing faces of a unit's district.
fn missing_at(leaving: Member, table: &FaceTable, counts: &FaceCounts) -> u64
    requires counts { AreCounts leaving.graph.now table.now.faces (length counts.now.edges) leaving.plan.now counts.now }
    requires district { slice_index leaving.plan.now leaving.unit < length counts.now.edges }
    ensures { let plan = leaving.entry.plan.now in
        result ≡ missing_faces leaving.entry.graph.now table.now.faces (in_district plan (slice_index plan leaving.entry.unit)) }
{
    counts.missing(leaving.plan[leaving.unit as usize])
}

// Returns the number of missing faces that long faces of a unit's district may stand for.
fn count_closed(leaving: Member, table: &FaceTable) -> u64
    requires made { table.now.graph ≡ leaving.graph.now }
{
    if !table.has_long_faces() {
        return 0;
    }
    table.long_faces_around(leaving)
}

// Does the work of `decide_by_filling`. `holes` has the number of missing faces of the unit's
// district, and the number of those that long faces may stand for. Each call moves one filler in
// and, at its end, out again.
//
// It gives up if fewer fillers are left than faces are missing, since one filler seldom closes two
// holes. Long faces in the district stay in it when fillers are moved in.
fn fill(
    graph: &Graph,
    plan: &mut [u32],
    unit: u32,
    table: &FaceTable,
    holes: (u64, u64),
    fillers: &[u32],
) -> Option<bool>
    requires made { table.now.graph ≡ graph.now }
    requires width { length plan.old ≡ graph.now.units }
    requires unit { unit < graph.now.units }
    requires missing { holes.0 ≡ missing_faces graph.now table.now.faces (in_district plan.old (slice_index plan.old unit)) }
    requires connected { IsConnected graph.now (in_district plan.old (slice_index plan.old unit)) }
    ensures plan { plan.new ≡ plan.old }
    ensures observed { MatchOption result ⊤ (λ may. IsTrue may ↔ MayLeave graph.now plan.old unit) }
{
    let (missing, closed) = holes;
    if missing <= closed {
        return decide_whole(graph.member(plan, unit), table, missing);
    }
    if missing - closed > fillers.len() as u64 {
        return None;
    }
    let filler = fillers[0];
    if !can_fill(graph, plan, unit, filler) {
        return fill(graph, plan, unit, table, holes, &fillers[1..]);
    }
    let home = plan[unit as usize];
    let from = plan[filler as usize];
    let left = missing_with(graph.member(plan, filler), table, home, missing);
    plan[filler as usize] = home;
    let filled = fill(graph, plan, unit, table, (left, closed), &fillers[1..]);
    let decided = decide_without(graph, plan, unit, table, (filler, from), filled);
    plan[filler as usize] = from;
    decided
}

// Decides by its links if a unit may leave its district, which must be connected. Returns `None` if
// the unit has more than 32 neighbors. Also returns `None` if the mates are not linked, and faces are
// missing for which no long faces stand.
fn decide_whole(leaving: Member, table: &FaceTable, missing: u64) -> Option<bool>
    requires made { table.now.graph ≡ leaving.graph.now }
    requires missing { missing ≡ missing_faces leaving.graph.now table.now.faces (in_district leaving.plan.now (slice_index leaving.plan.now leaving.unit)) }
    requires connected { IsConnected leaving.graph.now (in_district leaving.plan.now (slice_index leaving.plan.now leaving.unit)) }
    ensures { MatchOption result ⊤ (λ may. IsTrue may ↔ MayLeave leaving.entry.graph.now leaving.entry.plan.now leaving.entry.unit) }
{
    if leaving.graph.neighbours(leaving.unit).len() > MOST_LINKED {
        return None;
    }
    if table.links_mates(leaving) {
        return Some(true);
    }
    if missing > 0 && !table.closes_holes(leaving, missing) {
        return None;
    }
    Some(false)
}

// Returns true if `filler` is outside the unit's district and has a neighbor in it other than the
// unit.
fn can_fill(graph: &Graph, plan: &[u32], unit: u32, filler: u32) -> bool
    requires width { length plan.now ≡ graph.now.units }
    requires unit { unit < graph.now.units }
    ensures sound { IsGraph graph.now }
    ensures within { IsTrue result → filler < graph.now.units }
    ensures outside { IsTrue result → slice_index plan.now filler ≢ slice_index plan.now unit }
    ensures beside { IsTrue result → (m : ℕ) × IsIn graph.now (stays_behind plan.now unit) m × IsTrue (adjacent graph.now filler m) }
{
    let home = plan[unit as usize];
    if filler >= graph.units() || plan[filler as usize] == home {
        return false;
    }
    for other in graph.neighbours(filler) {
        if *other != unit && plan[*other as usize] == home {
            return true;
        }
    }
    false
}

// Decides for the bare plan from what is decided for the plan with the filler. `filler` has the
// unit, and its district in the bare plan.
fn decide_without(
    graph: &Graph,
    plan: &mut [u32],
    unit: u32,
    table: &FaceTable,
    filler: (u32, u32),
    filled: Option<bool>,
) -> Option<bool>
    requires made { table.now.graph ≡ graph.now }
    requires width { length plan.old ≡ graph.now.units }
    requires unit { unit < graph.now.units }
    requires sound { IsGraph graph.now }
    requires filler { (filler.0 < graph.now.units) × (filler.0 ≢ unit) }
    requires inside { slice_index plan.old filler.0 ≡ slice_index plan.old unit }
    requires outside { filler.1 ≢ slice_index plan.old unit }
    requires beside { (m : ℕ) × IsIn graph.now (stays_behind (slice_set plan.old filler.0 filler.1) unit) m × IsTrue (adjacent graph.now filler.0 m) }
    requires filled { MatchOption filled ⊤ (λ may. IsTrue may ↔ MayLeave graph.now plan.old unit) }
    ensures plan { plan.new ≡ plan.old }
    ensures observed { MatchOption result ⊤ (λ may. IsTrue may ↔ MayLeave graph.now (slice_set plan.old filler.0 filler.1) unit) }
{
    match filled {
        None => None,
        Some(false) => Some(false),
        Some(true) => {
            if links_without(graph, plan, unit, table, filler) {
                Some(true)
            } else {
                None
            }
        }
    }
}

// Returns true if the mates of a filler are linked in the district without `unit`. The filler may
// then be moved out of the district.
fn links_without(
    graph: &Graph,
    plan: &mut [u32],
    unit: u32,
    table: &FaceTable,
    filler: (u32, u32),
) -> bool
    requires made { table.now.graph ≡ graph.now }
    requires width { length plan.old ≡ graph.now.units }
    requires unit { unit < graph.now.units }
    requires filler { (filler.0 < graph.now.units) × (filler.0 ≢ unit) }
    requires inside { slice_index plan.old filler.0 ≡ slice_index plan.old unit }
    requires outside { filler.1 ≢ slice_index plan.old unit }
    ensures plan { plan.new ≡ plan.old }
    ensures may { IsTrue result → MayLeave graph.now plan.old unit → MayLeave graph.now (slice_set plan.old filler.0 filler.1) unit }
{
    if graph.neighbours(filler.0).len() > MOST_LINKED {
        return false;
    }
    let home = plan[unit as usize];
    plan[unit as usize] = filler.1;
    let linked = table.links_mates(graph.member(plan, filler.0));
    plan[unit as usize] = home;
    linked
}
