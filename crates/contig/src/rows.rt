//! The corners at each unit.

ghost use Rattle.std.specs.Prelude.{◌≡◌, ◌==◌, ◌<◌, ℕ, List, [], ◌∷◌, length, slice_index, IsTrue, IfOk, OnOk};
ghost use Rattle.std.specs.List.{position_or_len, slice_index_or};
ghost use Rattle.audit_model.specs.Graph.{adjacent, has};
ghost use Rattle.contig.specs.Corners.{HasCorners, with_corner, with_face, corners_at};
ghost use Rattle.contig.specs.Faces.{IsRing, AreFaces, own_rings};
ghost use Rattle.contig.specs.Listed.{listed};
ghost use Rattle.contig.specs.Rings.{ring_of};

use crate::corner::{Corner, CornerLists};
use crate::face::{Candidate, Face};
use audit_model::memory::Memory;
use dual_graph::graph::Graph;
use std::alloc::Global;

/// Lists the corners at each unit. Fails if there is no memory.
pub fn rows_of(alloc: Global, graph: &Graph, faces: &[Candidate]) -> Result<CornerLists, Memory>
    requires faces { AreFaces graph.now (listed faces.now) }
    ensures { IfOk result (λ rows. HasCorners graph.now (λ w. corners_at w (own_rings (listed faces.now))) rows) }
{
    let mut rows = CornerLists::of(alloc, graph)?;
    for face in faces {
        add_face(graph, &mut rows, face.ring)?;
    }
    Ok(rows)
}

/// Returns the position of a neighbor in a list of neighbors.
pub(crate) fn place_of(row: &[u32], other: u32) -> usize
    requires { IsTrue (has row.now other) }
    ensures first { result ≡ position_or_len (λ m. m == other) row.now }
    ensures within { result < length row.now }
    ensures there { slice_index row.now result ≡ other }
{
    for place in 0..row.len() {
        if row[place] == other {
            return place;
        }
    }
    0
}

/// Adds a corner at `unit`. `one` and `other` are the unit's neighbors on the face, and `opposite`
/// are `far` and `further`.
#[inline]
pub(crate) fn add_corner(
    graph: &Graph,
    rows: &mut CornerLists,
    unit: u32,
    one: u32,
    other: u32,
    opposite: (u32, u32),
) -> Result<(), Memory>
    requires units { (unit < graph.now.units) × (opposite.0 < graph.now.units) × (opposite.1 < graph.now.units) }
    requires near { IsTrue (adjacent graph.now unit one) × IsTrue (adjacent graph.now unit other) }
    requires rows { length rows.old ≡ graph.now.units }
    ensures width { length rows.new ≡ graph.now.units }
    ensures added { OnOk result ((corners : ℕ → List (ℕ × ℕ × ℕ × ℕ)) → HasCorners graph.now corners rows.old →
        HasCorners graph.now (λ w. with_corner w (corners w) unit (one, other, opposite.0, opposite.1)) rows.new) }
{
    let row = graph.neighbours(unit);
    let corner = Corner {
        one: place_of(row, one) as u32,
        other: place_of(row, other) as u32,
        far: opposite.0,
        further: opposite.1,
    };
    rows.push(unit, corner)?;
    Ok(())
}

/// Adds the corners of a face.
fn add_face(graph: &Graph, rows: &mut CornerLists, face: Face) -> Result<(), Memory>
    requires ring { IsRing graph.now (ring_of face) }
    requires rows { length rows.old ≡ graph.now.units }
    ensures width { length rows.new ≡ graph.now.units }
    ensures added { OnOk result ((corners : ℕ → List (ℕ × ℕ × ℕ × ℕ)) → HasCorners graph.now corners rows.old →
        HasCorners graph.now (λ w. with_face w (corners w) (ring_of face)) rows.new) }
{
    match face {
        Face::Triangle(a, b, c) => add_triangle(graph, rows, (a, b, c)),
        Face::Square(a, b, c, d) => add_square(graph, rows, (a, b, c, d)),
        Face::Pentagon(a, b, c, d, e) => add_pentagon(graph, rows, (a, b, c, d, e)),
    }
}

/// Adds the corners of a triangle.
fn add_triangle(graph: &Graph, rows: &mut CornerLists, ring: (u32, u32, u32)) -> Result<(), Memory>
    requires ring { IsRing graph.now (ring.0 ∷ ring.1 ∷ ring.2 ∷ []) }
    requires rows { length rows.old ≡ graph.now.units }
    ensures width { length rows.new ≡ graph.now.units }
    ensures added { OnOk result ((corners : ℕ → List (ℕ × ℕ × ℕ × ℕ)) → HasCorners graph.now corners rows.old →
        HasCorners graph.now (λ w. with_face w (corners w) (ring.0 ∷ ring.1 ∷ ring.2 ∷ [])) rows.new) }
{
    let (a, b, c) = ring;
    add_corner(graph, rows, a, b, c, (c, c))?;
    add_corner(graph, rows, b, c, a, (a, a))?;
    add_corner(graph, rows, c, a, b, (b, b))?;
    Ok(())
}

/// Adds the corners of a square.
fn add_square(
    graph: &Graph,
    rows: &mut CornerLists,
    ring: (u32, u32, u32, u32),
) -> Result<(), Memory>
    requires ring { IsRing graph.now (ring.0 ∷ ring.1 ∷ ring.2 ∷ ring.3 ∷ []) }
    requires rows { length rows.old ≡ graph.now.units }
    ensures width { length rows.new ≡ graph.now.units }
    ensures added { OnOk result ((corners : ℕ → List (ℕ × ℕ × ℕ × ℕ)) → HasCorners graph.now corners rows.old →
        HasCorners graph.now (λ w. with_face w (corners w) (ring.0 ∷ ring.1 ∷ ring.2 ∷ ring.3 ∷ [])) rows.new) }
{
    let (a, b, c, d) = ring;
    add_corner(graph, rows, a, b, d, (c, c))?;
    add_corner(graph, rows, b, c, a, (d, d))?;
    add_corner(graph, rows, c, d, b, (a, a))?;
    add_corner(graph, rows, d, a, c, (b, b))?;
    Ok(())
}

/// Adds the corners of a pentagon.
fn add_pentagon(
    graph: &Graph,
    rows: &mut CornerLists,
    ring: (u32, u32, u32, u32, u32),
) -> Result<(), Memory>
    requires ring { IsRing graph.now (ring.0 ∷ ring.1 ∷ ring.2 ∷ ring.3 ∷ ring.4 ∷ []) }
    requires rows { length rows.old ≡ graph.now.units }
    ensures width { length rows.new ≡ graph.now.units }
    ensures added { OnOk result ((corners : ℕ → List (ℕ × ℕ × ℕ × ℕ)) → HasCorners graph.now corners rows.old →
        HasCorners graph.now (λ w. with_face w (corners w) (ring.0 ∷ ring.1 ∷ ring.2 ∷ ring.3 ∷ ring.4 ∷ [])) rows.new) }
{
    let (a, b, c, d, e) = ring;
    add_corner(graph, rows, a, b, e, (c, d))?;
    add_corner(graph, rows, b, c, a, (d, e))?;
    add_corner(graph, rows, c, d, b, (e, a))?;
    add_corner(graph, rows, d, e, c, (a, b))?;
    add_corner(graph, rows, e, a, d, (b, c))?;
    Ok(())
}
