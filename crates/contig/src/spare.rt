//! The spares at each unit.

ghost use Rattle.std.specs.Prelude.{◌≡◌, ℕ, List, [], ◌∷◌, length, IsFalse, IfOk, OnOk};
ghost use Rattle.contig.specs.Corners.{HasCorners, ShowsCorners, add_spare, spares_at};
ghost use Rattle.contig.specs.Faces.{WithSpare, IsRing, AreFaces, own_ring, spare_ring};
ghost use Rattle.contig.specs.Listed.{listed};
ghost use Rattle.contig.specs.Rings.{face_of};

use crate::corner::CornerLists;
use crate::face::{Candidate, Face};
use crate::rows::add_corner;
use audit_model::memory::Memory;
use dual_graph::graph::Graph;
use std::alloc::Global;

/// Lists the corners of the spares at each unit. There are no lists if no face has a spare. Fails if
/// there is no memory.
///
/// A spare of a triangle a, b, c has a corner at each of its units a, b and d, and one at c. In each
/// of them, `further` is c.
pub fn spares_of(alloc: Global, graph: &Graph, faces: &[Candidate]) -> Result<CornerLists, Memory>
    requires faces { AreFaces graph.now (listed faces.now) }
    ensures { IfOk result (λ spares. ShowsCorners graph.now (λ w. spares_at w (listed faces.now)) spares) }
{
    if !have_spare(faces) {
        return Ok(CornerLists::none(alloc));
    }
    let spares = all_spares(alloc, graph, faces)?;
    Ok(spares)
}

/// Returns false if no face has a spare.
fn have_spare(faces: &[Candidate]) -> bool
    ensures { IsFalse result → (u : ℕ) → spares_at u (listed faces.now) ≡ [] }
{
    for face in faces {
        if face.spare.is_some() {
            return true;
        }
    }
    false
}

/// Does the work of `spares_of`, with a list for each unit.
fn all_spares(alloc: Global, graph: &Graph, faces: &[Candidate]) -> Result<CornerLists, Memory>
    requires faces { AreFaces graph.now (listed faces.now) }
    ensures { IfOk result (λ spares. HasCorners graph.now (λ w. spares_at w (listed faces.now)) spares) }
{
    let mut spares = CornerLists::without_room(alloc, graph)?;
    for face in faces {
        add_spare(graph, &mut spares, *face)?;
    }
    Ok(spares)
}

/// Adds the corners of a face's spare, if it has one.
fn add_spare(graph: &Graph, spares: &mut CornerLists, face: Candidate) -> Result<(), Memory>
    requires ring { IsRing graph.now (own_ring (face_of face)) }
    requires spare { IsRing graph.now (spare_ring (face_of face)) }
    requires spares { length spares.old ≡ graph.now.units }
    ensures width { length spares.new ≡ graph.now.units }
    ensures added { OnOk result ((corners : ℕ → List (ℕ × ℕ × ℕ × ℕ)) → HasCorners graph.now corners spares.old →
        HasCorners graph.now (λ w. add_spare w (corners w) (face_of face)) spares.new) }
{
    match (face.ring, face.spare) {
        (Face::Triangle(a, b, c), Some(d)) => {
            add_four(graph, spares, (a, b, c), d)?;
            Ok(())
        }
        _ => Ok(()),
    }
}

/// Adds the corners of the spare of a triangle and a fourth unit.
fn add_four(
    graph: &Graph,
    spares: &mut CornerLists,
    ring: (u32, u32, u32),
    fourth: u32,
) -> Result<(), Memory>
    requires ring { IsRing graph.now (ring.0 ∷ ring.1 ∷ ring.2 ∷ []) }
    requires spare { IsRing graph.now (ring.0 ∷ ring.1 ∷ fourth ∷ []) }
    requires spares { length spares.old ≡ graph.now.units }
    ensures width { length spares.new ≡ graph.now.units }
    ensures added { OnOk result ((corners : ℕ → List (ℕ × ℕ × ℕ × ℕ)) → HasCorners graph.now corners spares.old →
        HasCorners graph.now (λ w. add_spare w (corners w) (WithSpare ring.0 ring.1 ring.2 fourth)) spares.new) }
{
    let (a, b, c) = ring;
    add_corner(graph, spares, a, b, fourth, (fourth, c))?;
    add_corner(graph, spares, b, fourth, a, (a, c))?;
    add_corner(graph, spares, fourth, a, b, (b, c))?;
    add_corner(graph, spares, c, a, b, (fourth, c))?;
    Ok(())
}
