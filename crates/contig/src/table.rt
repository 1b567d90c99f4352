//! The faces of a graph, stored by unit.

ghost use Rattle.std.specs.Prelude.{◌≡◌, ◌+◌, ◌<◌, ◌≤◌, ◌↔◌, ℕ, [], length, map, slice_index, IsTrue, IsFalse, IfOk, All};
ghost use Rattle.std.specs.List.{slice_index_or};
ghost use Rattle.contig.specs.Corners.{IsOnRow, units_of, corners_at, spares_at};
ghost use Rattle.audit_model.specs.Local.{MayLeave};
ghost use Rattle.audit_model.specs.Path.{IsConnected};
ghost use Rattle.audit_model.specs.District.{in_district};
ghost use Rattle.contig.specs.Counts.{filled_of};
ghost use Rattle.contig.specs.Faces.{AreClear, AreCycles, AreFaces, AreLinked, count_inner_edges, count_inner_faces, own_rings, share_face};
ghost use Rattle.contig.specs.Order.{AreSectors, IsOnGraph};

use crate::corner::{Corner, CornerLists};
use crate::face::Candidate;
use crate::links::{are_linked, are_linked_in_order, has_active};
use crate::list::{FaceList, list_faces};
use crate::long::{LongFaces, LongRing, list_long};
use crate::order::all_sectors;
use crate::rows::rows_of;
use crate::sector::{Sector, SectorLists};
use crate::spare::spares_of;
use audit_model::memory::Memory;
use dual_graph::graph::Graph;
use dual_graph::member::Member;
use std::alloc::Global;
use std::marker::Model;
use std::snapshot::Snapshot;

/// The maximum number of faces. A graph with more faces gets none.
const MOST: usize = 4000000;

/// The faces of a graph, stored as corners by unit, and as sectors where a unit's neighbors lie in
/// their order. The spares are stored as corners by unit, and the long faces in a list.
#[derive(Drop)]
pub struct FaceTable {
    graph: Snapshot<Graph>,
    list: Snapshot<FaceList>,
    long: LongFaces,
    rows: CornerLists,
    sectors: SectorLists,
    spares: CornerLists,
}

impl Model for FaceTable {
    ghost use Rattle.contig.specs.Table.{Faced, IsFaceTable};

    ghost Value = { Faced };

    ghost view = { λ t. record { graph = t.graph.value; faces = t.list.value; long = t.long } };

    ghost invariant = { λ t. IsFaceTable (record { graph = t.graph.value; faces = t.list.value; long = t.long }) t.rows t.sectors t.spares };
}

impl FaceTable {
    /// Stores the faces and the long faces of a graph that `list_faces` and `list_long` keep of these
    /// candidates. Fails if there is no memory.
    pub fn of(
        alloc: Global,
        graph: &Graph,
        candidates: Vec<Candidate>,
        long: &[LongRing],
    ) -> Result<FaceTable, Memory>
        ensures { IfOk result (λ t. t.graph ≡ graph.now) }
    {
        keep_pages(alloc, graph);
        let (list, long) = some_faces(alloc, graph, candidates, long)?;
        let rows = rows_of(alloc, graph, list.faces())?;
        let sectors = all_sectors(alloc, graph, &rows)?;
        let spares = spares_of(alloc, graph, list.faces())?;
        Ok(FaceTable {
            graph: Snapshot::of(graph),
            list: Snapshot::of(&list),
            long,
            rows,
            sectors,
            spares,
        })
    }

    /// Returns the number of units.
    #[inline]
    pub fn units(&self) -> usize
        ensures units { result ≡ self.now.graph.units }
        ensures faces { AreFaces self.now.graph self.now.faces }
        ensures few { length self.now.faces ≤ 4000000 }
    {
        self.rows.units()
    }

    /// Returns true if some face has a spare. Nothing is proved of the result, which only guides the
    /// search for fillers.
    pub(crate) fn has_spares(&self) -> bool {
        self.spares.units() > 0
    }

    /// Returns true if there are long faces.
    #[inline]
    pub fn has_long_faces(&self) -> bool {
        !self.long.rings().is_empty()
    }

    /// Returns the number of long faces that have all units in the unit's district, or 0 if one of
    /// these has the unit. Nothing is proved of the result, which only guides the choice of fillers.
    #[inline(never)]
    pub(crate) fn long_faces_around(&self, leaving: Member) -> u64
        requires made { self.now.graph ≡ leaving.graph.now }
    {
        self.long.count_around(leaving).unwrap_or(0)
    }

    /// Returns true if at least `missing` long faces have all units in the unit's district and none
    /// of these has the unit.
    ///
    /// Few graphs have long faces, so the code is kept out of line.
    #[inline(never)]
    pub fn closes_holes(&self, leaving: Member, missing: u64) -> bool
        requires made { self.now.graph ≡ leaving.graph.now }
        ensures closed { let plan = leaving.entry.plan.now in let u = leaving.entry.unit in
            IsTrue result → (missing ≤ count_inner_faces (in_district plan (slice_index plan u)) self.now.long)
            × ((x y : ℕ) → IsFalse (share_face self.now.long (in_district plan (slice_index plan u)) u x y)) }
        ensures faces { AreFaces self.now.graph self.now.faces }
        ensures cycles { AreCycles self.now.graph self.now.long }
        ensures clear { AreClear self.now.faces self.now.long }
    {
        match self.long.count_around(leaving) {
            Some(around) => missing <= around,
            None => false,
        }
    }

    /// Returns the corners at a unit.
    #[inline]
    pub fn at(&self, unit: u32) -> &[Corner]
        requires { unit < self.now.graph.units }
        ensures faces { AreFaces self.now.graph self.now.faces }
        ensures few { length self.now.faces ≤ 4000000 }
        ensures placed { All (IsOnRow self.now.graph (slice_index_or self.now.graph.neighbours unit [])) result.now }
        ensures seen { map (units_of (slice_index_or self.now.graph.neighbours unit [])) result.now ≡ corners_at unit (own_rings self.now.faces) }
    {
        self.rows.at(unit)
    }

    /// Returns the corners of the spares at a unit.
    #[inline]
    pub fn spares_at(&self, unit: u32) -> &[Corner]
        requires { unit < self.now.graph.units }
        ensures faces { AreFaces self.now.graph self.now.faces }
        ensures few { length self.now.faces ≤ 4000000 }
        ensures placed { All (IsOnRow self.now.graph (slice_index_or self.now.graph.neighbours unit [])) result.now }
        ensures seen { map (units_of (slice_index_or self.now.graph.neighbours unit [])) result.now ≡ spares_at unit self.now.faces }
    {
        // Reading a field makes the type's invariant known to the prover.
        let _ = &self.rows;
        if unit as usize >= self.spares.units() {
            return &[];
        }
        self.spares.at(unit)
    }

    /// Returns the neighbors of a unit in the order of the faces round it. The list is empty if they
    /// have no such order.
    #[inline]
    pub fn sectors_at(&self, unit: u32) -> &[Sector]
        requires { unit < self.now.graph.units }
        ensures faces { AreFaces self.now.graph self.now.faces }
        ensures few { length self.now.faces ≤ 4000000 }
        ensures within { All (IsOnGraph self.now.graph) result.now }
        ensures order { 0 < length result.now → AreSectors self.now.graph (own_rings self.now.faces) unit result.now }
    {
        // Reading a field makes the type's invariant known to the prover.
        let _ = &self.rows;
        self.sectors.at(unit)
    }

    /// Does the work of `links_mates`: by the order of the faces where there is one and no spare is
    /// needed, and otherwise by merging neighbors corner by corner.
    #[inline(always)]
    fn are_mates_linked(&self, leaving: Member) -> bool
        requires made { self.now.graph ≡ leaving.graph.now }
        requires few { length (slice_index_or leaving.graph.now.neighbours leaving.unit []) ≤ 32 }
        ensures linked { IsTrue result ↔ AreLinked leaving.entry.graph.now self.now.faces leaving.entry.plan.now leaving.entry.unit }
        ensures faces { AreFaces self.now.graph self.now.faces }
    {
        let sectors = self.sectors_at(leaving.unit);
        if sectors.is_empty() {
            return self.merge_mates(leaving);
        }
        if are_linked_in_order(leaving, sectors) {
            return true;
        }
        let spares = self.spares_at(leaving.unit);
        if !has_active(leaving, spares) {
            return false;
        }
        self.merge_mates(leaving)
    }

    /// Does the work of `links_mates` by merging neighbors corner by corner, and spare by spare.
    fn merge_mates(&self, leaving: Member) -> bool
        requires made { self.now.graph ≡ leaving.graph.now }
        requires few { length (slice_index_or leaving.graph.now.neighbours leaving.unit []) ≤ 32 }
        ensures linked { IsTrue result ↔ AreLinked leaving.entry.graph.now self.now.faces leaving.entry.plan.now leaving.entry.unit }
        ensures faces { AreFaces self.now.graph self.now.faces }
    {
        let spares = self.spares_at(leaving.unit);
        are_linked(leaving, self.at(leaving.unit), spares)
    }

    /// Returns true if the mates of a unit are linked.
    ///
    /// If the district is connected, the unit may then leave. If the mates are not linked and the
    /// connected district has no hole, the unit may not leave.
    #[inline(always)]
    pub fn links_mates(&self, leaving: Member) -> bool
        requires made { self.now.graph ≡ leaving.graph.now }
        requires few { length (slice_index_or leaving.graph.now.neighbours leaving.unit []) ≤ 32 }
        ensures linked { IsTrue result ↔ AreLinked leaving.entry.graph.now self.now.faces leaving.entry.plan.now leaving.entry.unit }
        ensures may { let g = leaving.entry.graph.now in let plan = leaving.entry.plan.now in let u = leaving.entry.unit in
            IsTrue result → IsConnected g (in_district plan (slice_index plan u)) → MayLeave g plan u }
        ensures may_not { let g = leaving.entry.graph.now in let plan = leaving.entry.plan.now in let u = leaving.entry.unit in
            IsFalse result → IsConnected g (in_district plan (slice_index plan u)) → count_inner_edges g (in_district plan (slice_index plan u)) + 1 ≤ filled_of g self.now.faces (in_district plan (slice_index plan u)) → MayLeave g plan u → ⊥ }
    {
        self.are_mates_linked(leaving)
    }
}

/// Asks for more room than the largest table takes, and gives it back untouched.
///
/// The allocator of the C library then keeps the memory of freed tables for the next ones, and does
/// not return its pages to the system and ask for them again, which takes a tenth of a start. It
/// keeps twice as much as was given back at once.
fn keep_pages(alloc: Global, graph: &Graph) {
    let places = graph.arcs_before(graph.units());
    let room: Result<Vec<[Corner; 3]>, _> = Vec::with_capacity(alloc, places);
    drop(room);
}

/// Lists the faces and the long faces of a graph among these candidates. Returns empty lists if there
/// are too many faces.
fn some_faces(
    alloc: Global,
    graph: &Graph,
    candidates: Vec<Candidate>,
    long: &[LongRing],
) -> Result<(FaceList, LongFaces), Memory>
    ensures faces { IfOk result (λ f. AreFaces graph.now f.0) }
    ensures few { IfOk result (λ f. length f.0 ≤ 4000000) }
    ensures cycles { IfOk result (λ f. AreCycles graph.now f.1) }
    ensures clear { IfOk result (λ f. AreClear f.0 f.1) }
{
    let long = list_long(alloc, graph, long)?;
    let list = list_faces(alloc, graph, candidates, &long)?;
    if list.faces().len() > MOST {
        return Ok((FaceList::new(alloc), LongFaces::none(alloc)));
    }
    Ok((list, long))
}
