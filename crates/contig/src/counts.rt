//! Counts of the edges, units and faces in each district, updated as units move.

ghost use Rattle.std.specs.Prelude.{◌≡◌, ◌≢◌, ℕ, ◌+◌, ◌-◌, ◌<◌, ◌≤◌, ◌↔◌, ◌^◌, cond, [], length, replicate, slice_index, slice_set, count_by, IsTrue, IfOk, All};
ghost use Rattle.std.specs.List.{slice_index_or};
ghost use Rattle.audit_model.specs.District.{in_district};
ghost use Rattle.contig.specs.Corners.{IsOnRow, is_ending, is_filled, is_starting, corners_at, spares_at, units_of};
ghost use Rattle.contig.specs.Counts.{AreCounts, AreSpareCounts, HasNoHole, is_before};
ghost use Rattle.contig.specs.Faces.{AreFaces, count_mates, own_rings};
ghost use Rattle.contig.specs.Order.{IsOnGraph, is_joined};
ghost use Rattle.audit_model.specs.Below.{count_below};
ghost use Rattle.audit_model.specs.Limits.{most_edges};

use crate::corner::Corner;
use crate::sector::Sector;
use crate::table::FaceTable;
use audit_model::memory::Memory;
use dual_graph::graph::Graph;
use dual_graph::member::Member;
use std::alloc::Global;
use std::marker::Model;

/// For each district: the number of its inner edges, the sum of its units and inner rings, and the
/// number of its active spares.
#[derive(Drop)]
pub struct FaceCounts {
    edges: Vec<u64>,
    filled: Vec<u64>,
    spared: Vec<u64>,
}

impl Model for FaceCounts {
    ghost use Rattle.std.specs.Prelude.{◌≡◌, length};
    ghost use Rattle.contig.specs.Counts.{Counted};

    ghost Value = { Counted };

    ghost view = { λ c. record { edges = c.edges.items; filled = c.filled.items; spared = c.spared.items } };

    ghost invariant = { λ c. (length c.filled.items ≡ length c.edges.items) × (length c.spared.items ≡ length c.edges.items) };
}

impl FaceCounts {
    fn zeros(alloc: Global, districts: u32) -> Result<FaceCounts, Memory>
        ensures edges { IfOk result (λ c. length c.edges ≡ districts) }
        ensures filled { IfOk result (λ c. length c.filled ≡ districts) }
        ensures spared { IfOk result (λ c. length c.spared ≡ districts) }
    {
        Ok(FaceCounts {
            edges: vec![in alloc; 0; districts as usize]?,
            filled: vec![in alloc; 0; districts as usize]?,
            spared: vec![in alloc; 0; districts as usize]?,
        })
    }

    /// Counts the districts of a plan. Fails if there is no memory.
    pub fn new(
        alloc: Global,
        graph: &Graph,
        table: &FaceTable,
        districts: u32,
        plan: &[u32],
    ) -> Result<FaceCounts, Memory>
        requires made { table.now.graph ≡ graph.now }
        requires plan { length plan.now ≡ graph.now.units }
        requires in_range { (u : ℕ) → u < graph.now.units → slice_index plan.now u < districts }
        ensures { IfOk result (λ c. AreCounts graph.now table.now.faces districts plan.now c) }
    {
        let mut counts = FaceCounts::zeros(alloc, districts)?;
        counts.reset(graph, table, plan);
        Ok(counts)
    }

    fn clear(&mut self)
        ensures edges { self.new.edges ≡ replicate (length self.old.edges) 0 }
        ensures filled { self.new.filled ≡ replicate (length self.old.edges) 0 }
        ensures spared { self.new.spared ≡ replicate (length self.old.edges) 0 }
    {
        self.edges.fill(0);
        self.filled.fill(0);
        self.spared.fill(0);
    }

    /// Adds a unit to a district, with `mates` inner edges and `corners` inner faces.
    #[inline]
    fn raise(&mut self, district: u32, mates: u64, corners: u64)
        requires district { district < length self.old.edges }
        requires edges { slice_index self.old.edges district + mates ≤ most_edges }
        requires filled { slice_index self.old.filled district + 1 + corners ≤ 4100000 }
        ensures edges { self.new.edges ≡ slice_set self.old.edges district (slice_index self.old.edges district + mates) }
        ensures filled { self.new.filled ≡ slice_set self.old.filled district (slice_index self.old.filled district + 1 + corners) }
        ensures spared { self.new.spared ≡ self.old.spared }
    {
        self.edges[district as usize] += mates;
        self.filled[district as usize] += 1 + corners;
    }

    /// Removes a unit from a district, with `mates` inner edges and `corners` inner faces.
    #[inline]
    fn lower(&mut self, district: u32, mates: u64, corners: u64)
        requires district { district < length self.old.edges }
        requires edges { mates ≤ slice_index self.old.edges district }
        requires filled { 1 + corners ≤ slice_index self.old.filled district }
        ensures edges { self.new.edges ≡ slice_set self.old.edges district (slice_index self.old.edges district - mates) }
        ensures filled { self.new.filled ≡ slice_set self.old.filled district (slice_index self.old.filled district - (1 + corners)) }
        ensures spared { self.new.spared ≡ self.old.spared }
    {
        self.edges[district as usize] -= mates;
        let before = self.filled[district as usize];
        self.filled[district as usize] = before - (1 + corners);
    }

    /// Updates a district's number of active spares, if some end and others begin.
    #[inline]
    fn shift(&mut self, district: u32, ending: u64, starting: u64)
        requires district { district < length self.old.edges }
        requires ending { ending ≤ slice_index self.old.spared district }
        requires starting { slice_index self.old.spared district - ending + starting ≤ 4000000 }
        ensures edges { self.new.edges ≡ self.old.edges }
        ensures filled { self.new.filled ≡ self.old.filled }
        ensures spared { self.new.spared ≡ slice_set self.old.spared district (slice_index self.old.spared district - ending + starting) }
    {
        let before = self.spared[district as usize];
        self.spared[district as usize] = before - ending + starting;
    }

    /// Recounts the districts for a plan. Allocates nothing.
    ///
    /// Each edge and each face is counted once, at its greatest unit.
    pub fn reset(&mut self, graph: &Graph, table: &FaceTable, plan: &[u32])
        requires made { table.now.graph ≡ graph.now }
        requires plan { length plan.now ≡ graph.now.units }
        requires in_range { (u : ℕ) → u < graph.now.units → slice_index plan.now u < length self.old.edges }
        ensures { AreCounts graph.now table.now.faces (length self.old.edges) plan.now self.new }
    {
        // This call only tells the proof, before the loop, that the faces are the graph's.
        let _units = table.units();
        self.clear();
        for unit in 0..graph.units() {
            let member = Member { graph, plan, unit };
            let district = plan[unit as usize];
            let mates = mates_in(member, district, unit);
            let corners = corners_in(member, table, district, unit);
            self.raise(district, mates, corners);
            let (starting, ending) = spares_in(member, table, district, unit);
            self.shift(district, ending, starting);
        }
    }

    /// Updates the counts for a unit that is about to move to another district. `mates` has the
    /// number of the unit's neighbors in its own district, and then in the other one.
    ///
    /// It costs one pass over the faces at the unit, and allocates nothing.
    #[inline(always)]
    pub fn follow(&mut self, table: &FaceTable, leaving: Member, district: u32, mates: (u64, u64))
        requires made { table.now.graph ≡ leaving.graph.now }
        requires home { slice_index leaving.plan.now leaving.unit < length self.old.edges }
        requires district { district < length self.old.edges }
        requires elsewhere { slice_index leaving.plan.now leaving.unit ≢ district }
        requires home_mates { mates.0 ≡ count_mates leaving.graph.now (in_district leaving.plan.now (slice_index leaving.plan.now leaving.unit)) leaving.unit }
        requires other_mates { mates.1 ≡ count_mates leaving.graph.now (in_district leaving.plan.now district) leaving.unit }
        requires counts { AreCounts leaving.graph.now table.now.faces (length self.old.edges) leaving.plan.now self.old }
        ensures { AreCounts leaving.entry.graph.now table.now.faces (length self.old.edges) (slice_set leaving.entry.plan.now leaving.entry.unit district) self.new }
    {
        let home = leaving.plan[leaving.unit as usize];
        let corners = corners_of(leaving, table, home, district);
        self.lower(home, mates.0, corners.0);
        self.raise(district, mates.1, corners.1);
        self.follow_spares(table, leaving, district);
    }

    /// Updates the numbers of active spares for a unit that is about to move to another district.
    #[inline]
    fn follow_spares(&mut self, table: &FaceTable, leaving: Member, district: u32)
        requires made { table.now.graph ≡ leaving.graph.now }
        requires home { slice_index leaving.plan.now leaving.unit < length self.old.edges }
        requires district { district < length self.old.edges }
        requires elsewhere { slice_index leaving.plan.now leaving.unit ≢ district }
        requires spared { AreSpareCounts table.now.faces (in_district leaving.plan.now) (length self.old.edges) self.old.spared }
        ensures edges { self.new.edges ≡ self.old.edges }
        ensures filled { self.new.filled ≡ self.old.filled }
        ensures spared { AreSpareCounts table.now.faces (in_district (slice_set leaving.entry.plan.now leaving.entry.unit district)) (length self.old.edges) self.new.spared }
    {
        if table.spares_at(leaving.unit).is_empty() {
            return;
        }
        self.move_spares(table, leaving, district);
    }

    /// Does the work of `follow_spares`. Few units have a spare, so the code is kept out of line.
    #[inline(never)]
    fn move_spares(&mut self, table: &FaceTable, leaving: Member, district: u32)
        requires made { table.now.graph ≡ leaving.graph.now }
        requires home { slice_index leaving.plan.now leaving.unit < length self.old.edges }
        requires district { district < length self.old.edges }
        requires elsewhere { slice_index leaving.plan.now leaving.unit ≢ district }
        requires spared { AreSpareCounts table.now.faces (in_district leaving.plan.now) (length self.old.edges) self.old.spared }
        ensures edges { self.new.edges ≡ self.old.edges }
        ensures filled { self.new.filled ≡ self.old.filled }
        ensures spared { AreSpareCounts table.now.faces (in_district (slice_set leaving.entry.plan.now leaving.entry.unit district)) (length self.old.edges) self.new.spared }
    {
        let home = leaving.plan[leaving.unit as usize];
        let end = leaving.graph.units();
        let gone = spares_in(leaving, table, home, end);
        let come = spares_in(leaving, table, district, end);
        self.shift(home, gone.0, gone.1);
        self.shift(district, come.1, come.0);
    }

    /// Returns true if a district's counts show that it has no hole.
    #[inline]
    pub fn has_no_hole(&self, district: u32) -> bool
        requires { district < length self.now.edges }
        ensures { IsTrue result ↔ HasNoHole self.now district }
    {
        let edges = self.edges[district as usize];
        let filled = self.filled[district as usize];
        edges < filled || edges - filled < self.spared[district as usize]
    }

    /// Returns the number of missing faces of a district. It is 0 if the district has no hole, and if
    /// there is no such district.
    #[inline]
    pub fn missing(&self, district: u32) -> u64
        ensures none { district < length self.now.edges → (result ≡ 0 ↔ HasNoHole self.now district) }
        ensures exact { district < length self.now.edges → slice_index self.now.edges district ≤ most_edges →
            result ≡ slice_index self.now.edges district + 1 - (slice_index self.now.filled district + slice_index self.now.spared district) }
    {
        let place = district as usize;
        if place >= self.edges.len() || self.has_no_hole(district) {
            return 0;
        }
        self.edges[place]
            .saturating_sub(self.filled[place])
            .saturating_sub(self.spared[place])
            .saturating_add(1)
    }

    /// Returns false only if a district has no missing faces. Spares are not looked at, which makes
    /// this test cheap.
    #[inline]
    pub fn may_miss(&self, district: u32) -> bool {
        let place = district as usize;
        place >= self.edges.len() || self.edges[place] >= self.filled[place]
    }
}

/// Counts the neighbors of a unit that are in a district and are below `end`.
#[inline]
pub(crate) fn mates_in(member: Member, district: u32, end: u32) -> u64
    ensures { result ≡ count_mates member.entry.graph.now (is_before member.entry.plan.now end district) member.entry.unit }
{
    let plan = member.plan;
    let mut count = 0;
    for other in member.graph.neighbours(member.unit) {
        count = with_one(count, is_before(plan, *other, district, end));
    }
    count
}

/// Returns true if a unit is in a district and below `end`.
#[inline]
fn is_before(plan: &[u32], unit: u32, district: u32, end: u32) -> bool
    requires { unit < length plan.now }
    ensures { result ≡ is_before plan.now end district unit }
{
    plan[unit as usize] == district && unit < end
}

/// Counts the faces at a unit whose other units are all in a district and below `end`.
#[inline]
fn corners_in(member: Member, table: &FaceTable, district: u32, end: u32) -> u64
    requires { table.now.graph ≡ member.graph.now }
    ensures { result ≡ count_by (is_filled (is_before member.entry.plan.now end district)) (corners_at member.entry.unit (own_rings table.now.faces)) }
{
    let plan = member.plan;
    let row = member.graph.neighbours(member.unit);
    let mut count = 0;
    for corner in table.at(member.unit) {
        let one = row[corner.one as usize];
        let other = row[corner.other as usize];
        let inside = are_before(
            plan,
            (one, other, corner.far, corner.further),
            district,
            end,
        );
        count = with_one(count, inside);
    }
    count
}

/// Counts the spares at a unit that end if the unit leaves the set of the units of a district below
/// `end`. Then counts those that begin.
#[inline]
pub(crate) fn spares_in(member: Member, table: &FaceTable, district: u32, end: u32) -> (u64, u64)
    requires { table.now.graph ≡ member.graph.now }
    ensures ending { result.0 ≡ count_by (is_ending (is_before member.entry.plan.now end district) member.entry.unit) (spares_at member.entry.unit table.now.faces) }
    ensures starting { result.1 ≡ count_by (is_starting (is_before member.entry.plan.now end district) member.entry.unit) (spares_at member.entry.unit table.now.faces) }
    ensures faces { AreFaces table.now.graph table.now.faces }
    ensures few { length table.now.faces ≤ 4000000 }
{
    let mut ending = 0;
    let mut starting = 0;
    for corner in table.spares_at(member.unit) {
        let change = is_changing(member, *corner, district, end);
        ending = with_one(ending, change.0);
        starting = with_one(starting, change.1);
    }
    (ending, starting)
}

/// Tests if a spare ends if the unit leaves the set of the units of a district below `end`, and if
/// it begins.
#[inline]
fn is_changing(member: Member, corner: Corner, district: u32, end: u32) -> (bool, bool)
    requires { IsOnRow member.graph.now (slice_index_or member.graph.now.neighbours member.unit []) corner }
    ensures ending { result.0 ≡ is_ending (is_before member.entry.plan.now end district) member.entry.unit (units_of (slice_index_or member.entry.graph.now.neighbours member.entry.unit []) corner) }
    ensures starting { result.1 ≡ is_starting (is_before member.entry.plan.now end district) member.entry.unit (units_of (slice_index_or member.entry.graph.now.neighbours member.entry.unit []) corner) }
{
    let plan = member.plan;
    let row = member.graph.neighbours(member.unit);
    let one = is_before(plan, row[corner.one as usize], district, end);
    let other = is_before(plan, row[corner.other as usize], district, end);
    let far = is_before(plan, corner.far, district, end);
    let further = is_before(plan, corner.further, district, end);
    let guards = corner.further == member.unit;
    (
        one & (other & (far & (!guards & !further))),
        one & (other & (far & guards)),
    )
}

/// Returns true if four units are in a district and below `end`. Stops at the first that is not.
#[inline]
fn are_before(plan: &[u32], units: (u32, u32, u32, u32), district: u32, end: u32) -> bool
    requires neighbors { (units.0 < length plan.now) × (units.1 < length plan.now) }
    requires opposite { (units.2 < length plan.now) × (units.3 < length plan.now) }
    ensures { result ≡ is_filled (is_before plan.now end district) units }
{
    is_before(plan, units.0, district, end)
        && is_before(plan, units.1, district, end)
        && is_before(plan, units.2, district, end)
        && is_before(plan, units.3, district, end)
}

/// Counts the faces at a unit whose other units are all in the district `one`. Then counts those
/// whose other units are all in the district `other`.
#[inline]
fn corners_of(member: Member, table: &FaceTable, one: u32, other: u32) -> (u64, u64)
    requires { table.now.graph ≡ member.graph.now }
    ensures one { result.0 ≡ count_by (is_filled (in_district member.entry.plan.now one)) (corners_at member.entry.unit (own_rings table.now.faces)) }
    ensures other { result.1 ≡ count_by (is_filled (in_district member.entry.plan.now other)) (corners_at member.entry.unit (own_rings table.now.faces)) }
    ensures faces { AreFaces table.now.graph table.now.faces }
    ensures few { length table.now.faces ≤ 4000000 }
{
    let sectors = table.sectors_at(member.unit);
    if sectors.is_empty() {
        return scan_corners(member, table, one, other);
    }
    count_joined(member, sectors, one, other)
}

/// Counts the sectors whose face and neighbors are all in one district, and those for another
/// district. The loop has no branch that depends on the plan.
#[inline(always)]
fn count_joined(member: Member, sectors: &[Sector], one: u32, other: u32) -> (u64, u64)
    requires some { 0 < length sectors.now }
    requires within { All (IsOnGraph member.graph.now) sectors.now }
    ensures one { result.0 ≡ count_below (length sectors.now) (is_joined (in_district member.entry.plan.now one) sectors.now) }
    ensures other { result.1 ≡ count_below (length sectors.now) (is_joined (in_district member.entry.plan.now other) sectors.now) }
{
    let plan = member.plan;
    let last = sectors[sectors.len() - 1];
    let mut before = plan[last.near as usize];
    let mut in_one = 0;
    let mut in_other = 0;
    for sector in sectors {
        let here = plan[sector.near as usize];
        let whole = sector.faced & (here == before) & (plan[sector.far as usize] == here);
        in_one = with_one(in_one, whole & (here == one));
        in_other = with_one(in_other, whole & (here == other));
        before = here;
    }
    (in_one, in_other)
}

/// Does the work of `corners_of` for a unit whose neighbors are in no order, corner by corner. Such
/// units are few on most maps, so the code is kept out of line.
#[inline(never)]
pub(crate) fn scan_corners(member: Member, table: &FaceTable, one: u32, other: u32) -> (u64, u64)
    requires { table.now.graph ≡ member.graph.now }
    ensures one { result.0 ≡ count_by (is_filled (in_district member.entry.plan.now one)) (corners_at member.entry.unit (own_rings table.now.faces)) }
    ensures other { result.1 ≡ count_by (is_filled (in_district member.entry.plan.now other)) (corners_at member.entry.unit (own_rings table.now.faces)) }
{
    let mut in_one = 0;
    let mut in_other = 0;
    for corner in table.at(member.unit) {
        let inside = are_inside(member, *corner, one, other);
        in_one = with_one(in_one, inside.0);
        in_other = with_one(in_other, inside.1);
    }
    (in_one, in_other)
}

/// Tests if the other units of a corner are all in the district `one`, and if they are all in the
/// district `other`.
///
/// The units are first compared with one another. One comparison per district is then enough.
#[inline]
pub(crate) fn are_inside(member: Member, corner: Corner, one: u32, other: u32) -> (bool, bool)
    requires { IsOnRow member.graph.now (slice_index_or member.graph.now.neighbours member.unit []) corner }
    ensures one { result.0 ≡ is_filled (in_district member.entry.plan.now one) (units_of (slice_index_or member.entry.graph.now.neighbours member.entry.unit []) corner) }
    ensures other { result.1 ≡ is_filled (in_district member.entry.plan.now other) (units_of (slice_index_or member.entry.graph.now.neighbours member.entry.unit []) corner) }
{
    let plan = member.plan;
    let row = member.graph.neighbours(member.unit);
    let district = plan[row[corner.one as usize] as usize];
    let whole = (plan[row[corner.other as usize] as usize] == district)
        & (plan[corner.far as usize] == district)
        & (plan[corner.further as usize] == district);
    (whole & (district == one), whole & (district == other))
}

/// Returns a number, with one added if `counts` is true. It compiles without a branch.
#[inline]
pub(crate) fn with_one(count: u64, counts: bool) -> u64
    requires few { count < 2 ^ 63 }
    ensures { result ≡ count + cond counts 1 0 }
{
    if counts { count + 1 } else { count }
}

/// Returns true if a district would have fewer missing faces with a unit of another district.
/// Nothing is proved of the result, which only guides the search for fillers.
pub(crate) fn fills_alone(table: &FaceTable, joining: Member, district: u32) -> bool
    requires { table.now.graph ≡ joining.graph.now }
{
    let mates = mates_in(joining, district, u32::MAX);
    let (corners, _) = corners_of(joining, table, district, district);
    let (starting, ending) = spares_in(joining, table, district, u32::MAX);
    corners.saturating_add(starting) >= mates.saturating_add(ending)
}
