//! Long faces: rings of more than five units, in a list of their own.
//!
//! Few graphs have long faces, and those that have any have few. Each look at them is a scan of
//! the whole list.

ghost use Rattle.std.specs.Prelude.{◌≡◌, ◌≢◌, ◌<◌, ◌≤◌, ◌++◌, ⊤, ℕ, [], ◌∷◌, length, slice_index, IsTrue, IsFalse, IfOk, All, MatchOption};
ghost use Rattle.std.specs.Bool.{OnTrue};
ghost use Rattle.std.specs.List.{list_all};
ghost use Rattle.audit_model.specs.Apart.{AllApart};
ghost use Rattle.audit_model.specs.District.{in_district};
ghost use Rattle.audit_model.specs.Graph.{IsGraph, adjacent, has};
ghost use Rattle.contig.specs.Cycles.{next_place};
ghost use Rattle.contig.specs.Faces.{AreCycles, IsCycle, OwnsSide, count_inner_faces, has_side, is_pair, share_face};
ghost use Rattle.contig.specs.Long.{units_of_all, units_on};

use audit_model::memory::Memory;
use dual_graph::graph::Graph;
use dual_graph::member::Member;
use std::alloc::Global;
use std::marker::Model;

/// The maximum number of units on a long ring.
pub const ROOM: usize = 12;

/// The maximum number of long faces. A walk may scan all of them at a step.
const MOST: usize = 256;

/// A ring of at most `ROOM` units, or a candidate for one.
#[derive(Clone, Copy)]
pub struct LongRing {
    count: usize,
    units: [u32; 12],
}

impl LongRing {
    /// Returns a candidate without units.
    pub fn new() -> LongRing
        ensures { units_on result ≡ [] }
    {
        LongRing {
            count: 0,
            units: [0; 12],
        }
    }

    /// Appends a unit. Returns false if there is no room.
    pub fn push(&mut self, unit: u32) -> bool
        ensures added { OnTrue result (units_on self.new ≡ units_on self.old ++ unit ∷ []) }
    {
        if self.count >= ROOM {
            return false;
        }
        self.units[self.count] = unit;
        self.count += 1;
        true
    }

    /// Returns a candidate of these units, or `None` if there are more than `ROOM`.
    pub fn from_units(units: &[u32]) -> Option<LongRing>
        ensures { MatchOption result ⊤ (λ r. units_on r ≡ units.now) }
    {
        let mut ring = LongRing::new();
        for unit in units {
            if !ring.push(*unit) {
                return None;
            }
        }
        Some(ring)
    }

    /// Returns the units in order.
    #[inline]
    pub fn as_slice(&self) -> &[u32]
        ensures { result.now ≡ units_on self.now }
    {
        let count = if self.count < ROOM { self.count } else { ROOM };
        &self.units[..count]
    }
}

/// A list of long faces. The own side of each belongs to no ring that was added before it. The last
/// face that was added comes first.
#[derive(Drop)]
pub struct LongFaces {
    rings: Vec<LongRing>,
}

impl Model for LongFaces {
    ghost use Rattle.std.specs.Prelude.{ℕ, List};
    ghost use Rattle.contig.specs.Long.{units_of_all};

    ghost Value = { List (List ℕ) };

    ghost view = { λ l. units_of_all l.rings.items };
}

impl LongFaces {
    /// Creates an empty list.
    pub fn none(alloc: Global) -> LongFaces
        ensures { result ≡ [] }
    {
        LongFaces {
            rings: Vec::new(alloc),
        }
    }

    /// Returns the long faces, the last one first.
    #[inline]
    pub fn rings(&self) -> &[LongRing]
        ensures { units_of_all result.now ≡ self.now }
    {
        &self.rings
    }

    /// Returns the number of long faces with all units in the district of a unit. Returns `None` if
    /// one of them has the unit.
    pub fn count_around(&self, leaving: Member) -> Option<u64>
        requires { AreCycles leaving.graph.now self.now }
        ensures { let plan = leaving.entry.plan.now in let u = leaving.entry.unit in
            MatchOption result ⊤ (λ n. (n ≡ count_inner_faces (in_district plan (slice_index plan u)) self.now)
            × ((x y : ℕ) → IsFalse (share_face self.now (in_district plan (slice_index plan u)) u x y))) }
    {
        let home = leaving.plan[leaving.unit as usize];
        let rings = self.rings();
        let mut count = 0u64;
        for place in 0..rings.len() {
            let ring = rings[place].as_slice();
            if lies_inside(ring, leaving.plan, home) {
                if has_unit(ring, leaving.unit) {
                    return None;
                }
                count += 1;
            }
        }
        Some(count)
    }
}

/// Lists the candidates that are cycles and whose own side belongs to no ring that was listed
/// before, in their order. Lists at most `MOST` of them. Fails if there is no memory.
///
/// A candidate should have six or more units. Three to five are accepted too, but are better
/// listed as faces.
pub fn list_long(alloc: Global, graph: &Graph, candidates: &[LongRing]) -> Result<LongFaces, Memory>
    ensures { IfOk result (λ l. AreCycles graph.now l) }
{
    let mut rings: Vec<LongRing> = Vec::new(alloc);
    for candidate in candidates {
        let ring = *candidate;
        if rings.len() < MOST && is_next(graph, &rings, &ring) {
            rings.insert(0, ring)?;
        }
    }
    Ok(LongFaces { rings })
}

/// Returns true if a candidate is a cycle whose own side belongs to none of the rings listed so far.
fn is_next(graph: &Graph, rings: &[LongRing], candidate: &LongRing) -> bool
    ensures cycle { IsTrue result → IsCycle graph.now (units_on candidate.now) }
    ensures owns { IsTrue result → OwnsSide (units_on candidate.now) (units_of_all rings.now) }
{
    let ring = candidate.as_slice();
    is_cycle(graph, ring) && owns_side(ring, rings)
}

/// Returns true if the units of a ring are three or more distinct units of the graph, each adjacent
/// to the next and the last to the first.
fn is_cycle(graph: &Graph, ring: &[u32]) -> bool
    ensures { IsTrue result → IsCycle graph.now ring.now }
{
    if ring.len() < 3 {
        return false;
    }
    if !are_units(graph, ring) {
        return false;
    }
    if !are_distinct(ring) {
        return false;
    }
    goes_round(graph, ring)
}

/// Returns true if all units of a ring are units of the graph.
fn are_units(graph: &Graph, ring: &[u32]) -> bool
    ensures sound { IsGraph graph.now }
    ensures below { IsTrue result → (i : ℕ) → i < length ring.now → slice_index ring.now i < graph.now.units }
{
    let units = graph.units();
    for place in 0..ring.len() {
        if ring[place] >= units {
            return false;
        }
    }
    true
}

/// Returns true if the units of a ring are distinct.
fn are_distinct(ring: &[u32]) -> bool
    ensures { IsTrue result → AllApart ring.now }
{
    for place in 0..ring.len() {
        if has_unit(&ring[place + 1..], ring[place]) {
            return false;
        }
    }
    true
}

/// Returns true if a unit is one of these.
fn has_unit(units: &[u32], unit: u32) -> bool
    ensures { result ≡ has units.now unit }
{
    units.contains(&unit)
}

/// Returns true if each unit of a ring is adjacent to the next, and the last to the first.
fn goes_round(graph: &Graph, ring: &[u32]) -> bool
    requires { (i : ℕ) → i < length ring.now → slice_index ring.now i < graph.now.units }
    ensures { IsTrue result → (i : ℕ) → i < length ring.now → IsTrue (adjacent graph.now (slice_index ring.now i) (slice_index ring.now (next_place (length ring.now) i))) }
{
    for place in 0..ring.len() {
        if !graph.adjacent(ring[place], ring[place_after(ring.len(), place)]) {
            return false;
        }
    }
    true
}

/// Returns the place after a place on a ring of `count` units.
pub(crate) fn place_after(count: usize, place: usize) -> usize
    requires { place < count }
    ensures value { result ≡ next_place count place }
    ensures within { result < count }
{
    if place + 1 < count { place + 1 } else { 0 }
}

/// Returns true if the own side of a ring belongs to none of these rings.
fn owns_side(ring: &[u32], rings: &[LongRing]) -> bool
    requires { 3 ≤ length ring.now }
    ensures { IsTrue result → OwnsSide ring.now (units_of_all rings.now) }
{
    for place in 0..rings.len() {
        if has_side(rings[place].as_slice(), ring[0], ring[1]) {
            return false;
        }
    }
    true
}

/// Returns true if two units are next to each other on a ring.
fn has_side(ring: &[u32], x: u32, y: u32) -> bool
    ensures { IsFalse result → IsFalse (has_side ring.now x y) }
{
    for place in 0..ring.len() {
        if is_pair((ring[place], ring[place_after(ring.len(), place)]), x, y) {
            return true;
        }
    }
    false
}

/// Returns true if a pair has these two units.
fn is_pair(pair: (u32, u32), x: u32, y: u32) -> bool
    ensures { result ≡ is_pair pair.0 pair.1 x y }
{
    let (a, b) = pair;
    (a == x && b == y) || (a == y && b == x)
}

/// Returns true if all units of a ring are in a district.
fn lies_inside(ring: &[u32], plan: &[u32], district: u32) -> bool
    requires { (i : ℕ) → i < length ring.now → slice_index ring.now i < length plan.now }
    ensures { result ≡ list_all (in_district plan.now district) ring.now }
{
    for place in 0..ring.len() {
        if plan[ring[place] as usize] != district {
            return false;
        }
    }
    true
}
