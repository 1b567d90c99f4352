//! Lists of faces.

ghost use Rattle.std.specs.Prelude.{◌≡◌, ◌+◌, ◌<◌, ◌≤◌, ℕ, List, [], ◌∷◌, length, slice_set, take, IsTrue, IfOk};
ghost use Rattle.std.specs.Bool.{OnTrue, OnFalse};
ghost use Rattle.std.specs.List.{list_any};
ghost use Rattle.audit_model.specs.Below.{sum_below};
ghost use Rattle.audit_model.specs.Graph.{adjacent};
ghost use Rattle.audit_model.specs.Length.{degree};
ghost use Rattle.contig.specs.Faces.{AreClear, AreCycles, AreFaces, IsCycle, IsRing, has_side};
ghost use Rattle.contig.specs.Listed.{listed, side, own_side, arc_index, is_marked, AreListed};
ghost use Rattle.contig.specs.Long.{units_of_all};
ghost use Rattle.contig.specs.Rings.{ring_of, fit_by, face_of, spare_by};

use crate::face::{Candidate, Face, first_two};
use crate::long::{LongFaces, LongRing, place_after};
use crate::rows::place_of;
use audit_model::memory::Memory;
use dual_graph::graph::Graph;
use std::alloc::Global;
use std::marker::Model;

/// A list of faces, some with a spare. The own side of each face belongs to no ring and to no spare
/// ring that was added before it. Proofs see the list in reverse: the last face comes first.
#[derive(Drop)]
pub struct FaceList {
    faces: Vec<Candidate>,
}

impl Model for FaceList {
    ghost use Rattle.std.specs.Prelude.{List};
    ghost use Rattle.contig.specs.Faces.{SparedFace};
    ghost use Rattle.contig.specs.Listed.{listed};

    ghost Value = { List SparedFace };

    ghost view = { λ l. listed l.faces.items };
}

impl FaceList {
    /// Creates an empty list.
    pub fn new(alloc: Global) -> FaceList
        ensures { result ≡ [] }
    {
        FaceList {
            faces: Vec::new(alloc),
        }
    }

    /// Returns the faces in the order in which they were added.
    pub fn faces(&self) -> &[Candidate]
        ensures { listed result.now ≡ self.now }
    {
        &self.faces
    }
}

/// Lists the candidates that are rings and whose own side belongs to no long face, and to no ring
/// and no spare ring listed before, in their order. Drops each spare ring that is no other ring of
/// the graph. Fails if there is no memory.
///
/// The list takes the memory of the candidates.
pub fn list_faces(
    alloc: Global,
    graph: &Graph,
    candidates: Vec<Candidate>,
    long: &LongFaces,
) -> Result<FaceList, Memory>
    requires cycles { AreCycles graph.now long.now }
    ensures faces { IfOk result (λ l. AreFaces graph.now l) }
    ensures clear { IfOk result (λ l. AreClear l long.now) }
{
    let mut faces = candidates;
    let mut marks: Vec<bool> = vec![in alloc; false; graph.arcs_before(graph.units())]?;
    mark_long(graph, &mut marks, long.rings());
    let mut end = 0usize;
    for place in 0..faces.len() {
        let candidate = faces[place];
        if add_face(graph, &mut faces, end, &mut marks, candidate) {
            end += 1;
        }
    }
    faces.truncate(end);
    Ok(FaceList { faces })
}

/// Puts a candidate at `end` if it is a ring and its own side is not marked, and marks the sides of
/// its ring and of its spare ring. Returns true if it did. The faces up to `end` are those listed so
/// far.
fn add_face(
    graph: &Graph,
    faces: &mut Vec<Candidate>,
    end: usize,
    marks: &mut Vec<bool>,
    candidate: Candidate,
) -> bool
    requires room { end < length faces.old.items }
    requires width { length marks.old.items ≡ sum_below graph.now.units (degree graph.now) }
    ensures width { length faces.new.items ≡ length faces.old.items }
    ensures listed { OnTrue result ((long : List (List ℕ)) → AreListed graph.now long (listed (take end faces.old.items)) marks.old.items → AreListed graph.now long (listed (take (end + 1) faces.new.items)) marks.new.items) }
    ensures added { OnTrue result (listed (take (end + 1) faces.new.items) ≡ fit_by graph.now candidate.ring candidate.spare ∷ listed (take end faces.old.items)) }
    ensures unchanged { OnFalse result ((faces.new.items ≡ faces.old.items) × (marks.new.items ≡ marks.old.items)) }
{
    if !candidate.ring.is_ring(graph) || has_own(graph, marks, candidate.ring) {
        return false;
    }
    let face = candidate.fit(graph);
    replace(faces, end, face);
    mark_face(graph, marks, face);
    true
}

/// Replaces the face at a place.
fn replace(faces: &mut Vec<Candidate>, place: usize, face: Candidate)
    requires { place < length faces.old.items }
    ensures { faces.new.items ≡ slice_set faces.old.items place face }
{
    faces[place] = face;
}

/// Returns the pair of two units, smaller unit first.
fn side_of(x: u32, y: u32) -> (u32, u32)
    ensures { result ≡ side x y }
{
    if x < y { (x, y) } else { (y, x) }
}

/// Returns the index of the side of two adjacent units.
fn index_of(graph: &Graph, x: u32, y: u32) -> usize
    requires units { (x < graph.now.units) × (y < graph.now.units) }
    requires near { IsTrue (adjacent graph.now x y) }
    requires few { sum_below graph.now.units (degree graph.now) ≤ 18446744073709551615 }
    ensures value { result ≡ arc_index graph.now (side x y).0 (side x y).1 }
    ensures within { result < sum_below graph.now.units (degree graph.now) }
{
    let (low, high) = side_of(x, y);
    graph.arcs_before(low) + place_of(graph.neighbours(low), high)
}

/// Returns true if the own side of a ring is marked.
fn has_own(graph: &Graph, marks: &[bool], face: Face) -> bool
    requires ring { IsRing graph.now (ring_of face) }
    requires width { length marks.now ≡ sum_below graph.now.units (degree graph.now) }
    ensures { result ≡ is_marked graph.now marks.now (own_side face) }
{
    let (x, y) = first_two(face);
    marks[index_of(graph, x, y)]
}

/// Marks the side of two adjacent units.
fn mark(graph: &Graph, marks: &mut Vec<bool>, x: u32, y: u32)
    requires units { (x < graph.now.units) × (y < graph.now.units) }
    requires near { IsTrue (adjacent graph.now x y) }
    requires width { length marks.old.items ≡ sum_below graph.now.units (degree graph.now) }
    ensures width { length marks.new.items ≡ length marks.old.items }
    ensures kept { (q : ℕ × ℕ) → IsTrue (is_marked graph.now marks.old.items q) → IsTrue (is_marked graph.now marks.new.items q) }
    ensures there { IsTrue (is_marked graph.now marks.new.items (side x y)) }
{
    marks[index_of(graph, x, y)] = true;
}

/// Marks the sides of all long rings.
fn mark_long(graph: &Graph, marks: &mut Vec<bool>, rings: &[LongRing])
    requires cycles { AreCycles graph.now (units_of_all rings.now) }
    requires width { length marks.old.items ≡ sum_below graph.now.units (degree graph.now) }
    ensures width { length marks.new.items ≡ length marks.old.items }
    ensures there { (x y : ℕ) → IsTrue (list_any (λ ring. has_side ring x y) (units_of_all rings.now)) → IsTrue (is_marked graph.now marks.new.items (side x y)) }
{
    for place in 0..rings.len() {
        mark_around(graph, marks, rings[place].as_slice());
    }
}

/// Marks the sides of a long ring.
fn mark_around(graph: &Graph, marks: &mut Vec<bool>, ring: &[u32])
    requires ring { IsCycle graph.now ring.now }
    requires width { length marks.old.items ≡ sum_below graph.now.units (degree graph.now) }
    ensures width { length marks.new.items ≡ length marks.old.items }
    ensures kept { (q : ℕ × ℕ) → IsTrue (is_marked graph.now marks.old.items q) → IsTrue (is_marked graph.now marks.new.items q) }
    ensures there { (x y : ℕ) → IsTrue (has_side ring.now x y) → IsTrue (is_marked graph.now marks.new.items (side x y)) }
{
    for place in 0..ring.len() {
        let next = place_after(ring.len(), place);
        mark(graph, marks, ring[place], ring[next]);
    }
}

/// Marks the sides of a face's ring and of its spare ring.
fn mark_face(graph: &Graph, marks: &mut Vec<bool>, face: Candidate)
    requires ring { IsRing graph.now (ring_of face.ring) }
    requires spare { IsRing graph.now (ring_of (spare_by face.ring face.spare)) }
    requires width { length marks.old.items ≡ sum_below graph.now.units (degree graph.now) }
    ensures width { length marks.new.items ≡ length marks.old.items }
    ensures kept { (q : ℕ × ℕ) → IsTrue (is_marked graph.now marks.old.items q) → IsTrue (is_marked graph.now marks.new.items q) }
    ensures ring { (x y : ℕ) → IsTrue (has_side (ring_of face.ring) x y) → IsTrue (is_marked graph.now marks.new.items (side x y)) }
    ensures spare { (x y : ℕ) → IsTrue (has_side (ring_of (spare_by face.ring face.spare)) x y) → IsTrue (is_marked graph.now marks.new.items (side x y)) }
{
    mark_sides(graph, marks, face.ring);
    if face.spare.is_some() {
        mark_sides(graph, marks, face.spare_ring());
    }
}

/// Marks the sides of a ring.
fn mark_sides(graph: &Graph, marks: &mut Vec<bool>, face: Face)
    requires ring { IsRing graph.now (ring_of face) }
    requires width { length marks.old.items ≡ sum_below graph.now.units (degree graph.now) }
    ensures width { length marks.new.items ≡ length marks.old.items }
    ensures kept { (q : ℕ × ℕ) → IsTrue (is_marked graph.now marks.old.items q) → IsTrue (is_marked graph.now marks.new.items q) }
    ensures there { (x y : ℕ) → IsTrue (has_side (ring_of face) x y) → IsTrue (is_marked graph.now marks.new.items (side x y)) }
{
    match face {
        Face::Triangle(a, b, c) => mark_triangle(graph, marks, (a, b, c)),
        Face::Square(a, b, c, d) => mark_square(graph, marks, (a, b, c, d)),
        Face::Pentagon(a, b, c, d, e) => mark_pentagon(graph, marks, (a, b, c, d, e)),
    }
}

/// Marks the sides of a triangle.
fn mark_triangle(graph: &Graph, marks: &mut Vec<bool>, ring: (u32, u32, u32))
    requires ring { IsRing graph.now (ring.0 ∷ ring.1 ∷ ring.2 ∷ []) }
    requires width { length marks.old.items ≡ sum_below graph.now.units (degree graph.now) }
    ensures width { length marks.new.items ≡ length marks.old.items }
    ensures kept { (q : ℕ × ℕ) → IsTrue (is_marked graph.now marks.old.items q) → IsTrue (is_marked graph.now marks.new.items q) }
    ensures there { (x y : ℕ) → IsTrue (has_side (ring.0 ∷ ring.1 ∷ ring.2 ∷ []) x y) → IsTrue (is_marked graph.now marks.new.items (side x y)) }
{
    let (a, b, c) = ring;
    mark(graph, marks, a, b);
    mark(graph, marks, b, c);
    mark(graph, marks, c, a);
}

/// Marks the sides of a square.
fn mark_square(graph: &Graph, marks: &mut Vec<bool>, ring: (u32, u32, u32, u32))
    requires ring { IsRing graph.now (ring.0 ∷ ring.1 ∷ ring.2 ∷ ring.3 ∷ []) }
    requires width { length marks.old.items ≡ sum_below graph.now.units (degree graph.now) }
    ensures width { length marks.new.items ≡ length marks.old.items }
    ensures kept { (q : ℕ × ℕ) → IsTrue (is_marked graph.now marks.old.items q) → IsTrue (is_marked graph.now marks.new.items q) }
    ensures there { (x y : ℕ) → IsTrue (has_side (ring.0 ∷ ring.1 ∷ ring.2 ∷ ring.3 ∷ []) x y) → IsTrue (is_marked graph.now marks.new.items (side x y)) }
{
    let (a, b, c, d) = ring;
    mark(graph, marks, a, b);
    mark(graph, marks, b, c);
    mark(graph, marks, c, d);
    mark(graph, marks, d, a);
}

/// Marks the sides of a pentagon.
fn mark_pentagon(graph: &Graph, marks: &mut Vec<bool>, ring: (u32, u32, u32, u32, u32))
    requires ring { IsRing graph.now (ring.0 ∷ ring.1 ∷ ring.2 ∷ ring.3 ∷ ring.4 ∷ []) }
    requires width { length marks.old.items ≡ sum_below graph.now.units (degree graph.now) }
    ensures width { length marks.new.items ≡ length marks.old.items }
    ensures kept { (q : ℕ × ℕ) → IsTrue (is_marked graph.now marks.old.items q) → IsTrue (is_marked graph.now marks.new.items q) }
    ensures there { (x y : ℕ) → IsTrue (has_side (ring.0 ∷ ring.1 ∷ ring.2 ∷ ring.3 ∷ ring.4 ∷ []) x y) → IsTrue (is_marked graph.now marks.new.items (side x y)) }
{
    let (a, b, c, d, e) = ring;
    mark(graph, marks, a, b);
    mark(graph, marks, b, c);
    mark(graph, marks, c, d);
    mark(graph, marks, d, e);
    mark(graph, marks, e, a);
}
