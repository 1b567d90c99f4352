//! Candidates for faces: three to five units in order.

ghost use Rattle.std.specs.Prelude.{◌≡◌, ◌<◌, ◌==◌, ◌&&◌, length, not, Some};
ghost use Rattle.audit_model.specs.Graph.{IsGraph, adjacent};
ghost use Rattle.contig.specs.Listed.{first_pair};
ghost use Rattle.contig.specs.declared.face.Face.TheVariants.{Triangle};
ghost use Rattle.contig.specs.Rings.{goes_round, turned, differ, follow, ring_of, spare_by, face_of, fit_by};

use dual_graph::graph::Graph;

/// The maximum number of neighbors of a unit on a face or on a diagonal.
const DEGREE: usize = 32;

/// Three to five units in order. `is_ring` tests if they are a ring. The own side joins the first
/// two units.
#[derive(Clone, Copy)]
pub enum Face {
    Triangle(u32, u32, u32),
    Square(u32, u32, u32, u32),
    Pentagon(u32, u32, u32, u32, u32),
}

impl Face {
    /// Returns true if the units are distinct units of the graph, each adjacent to the next and the
    /// last to the first.
    pub fn is_ring(&self, graph: &Graph) -> bool
        ensures value { result ≡ goes_round graph.now self.now }
        ensures sound { IsGraph graph.now }
    {
        let n = graph.units();
        match *self {
            Face::Triangle(a, b, c) => {
                (a < n) & ((b < n) & (c < n)) && is_triangle(graph, a, b, c)
            }
            Face::Square(a, b, c, d) => {
                (a < n) & ((b < n) & ((c < n) & (d < n))) && is_square(graph, a, b, c, d)
            }
            Face::Pentagon(a, b, c, d, e) => {
                (a < n) & ((b < n) & ((c < n) & ((d < n) & (e < n))))
                    && differ(a, b, c, d, e) & follow(graph, a, b, c, d, e)
            }
        }
    }

    /// Rotates the ring to begin with its second unit.
    pub fn rotate(self) -> Face
        ensures { result ≡ turned self }
    {
        match self {
            Face::Triangle(a, b, c) => Face::Triangle(b, c, a),
            Face::Square(a, b, c, d) => Face::Square(b, c, d, a),
            Face::Pentagon(a, b, c, d, e) => Face::Pentagon(b, c, d, e, a),
        }
    }
}

/// A ring that may become a face, with the fourth unit of its spare, if it has one.
///
/// The spare ring of a triangle a, b, c is a triangle a, b, d with a fourth unit d. Both rings have
/// the own side a, b. Where a district has a, b and d, but not c, the spare ring counts in place of
/// the ring. A ring of four or five units has no spare.
#[derive(Clone, Copy)]
pub struct Candidate {
    pub ring: Face,
    pub spare: Option<u32>,
}

impl Candidate {
    /// Returns the spare ring, or the ring if there is no spare.
    pub fn spare_ring(&self) -> Face
        ensures { result ≡ spare_by self.now.ring self.now.spare }
    {
        match (self.ring, self.spare) {
            (Face::Triangle(a, b, _), Some(d)) => Face::Triangle(a, b, d),
            (ring, _) => ring,
        }
    }

    /// Returns the candidate with its spare only if the spare ring is another ring of the graph.
    pub(crate) fn fit(self, graph: &Graph) -> Candidate
        ensures ring { result.ring ≡ self.ring }
        ensures face { face_of result ≡ fit_by graph.now self.ring self.spare }
    {
        match (self.ring, self.spare) {
            (Face::Triangle(a, b, c), Some(d)) => fit_triangle(graph, (a, b, c), d),
            (ring, _) => Candidate { ring, spare: None },
        }
    }
}

/// Returns the triangle with this fourth unit only if the spare ring is another ring of the graph.
fn fit_triangle(graph: &Graph, ring: (u32, u32, u32), spare: u32) -> Candidate
    ensures ring { result.ring ≡ Triangle ring.0 ring.1 ring.2 }
    ensures face { face_of result ≡ fit_by graph.now (Triangle ring.0 ring.1 ring.2) (Some spare) }
{
    let (a, b, c) = ring;
    let ring = Face::Triangle(a, b, c);
    if c != spare && Face::Triangle(a, b, spare).is_ring(graph) {
        return Candidate {
            ring,
            spare: Some(spare),
        };
    }
    Candidate { ring, spare: None }
}

/// Returns the number of units.
pub fn length_of(ring: Face) -> usize
    ensures { result ≡ length (ring_of ring) }
{
    match ring {
        Face::Triangle(_, _, _) => 3,
        Face::Square(_, _, _, _) => 4,
        Face::Pentagon(_, _, _, _, _) => 5,
    }
}

/// Returns the two units of the own side.
pub fn first_two(ring: Face) -> (u32, u32)
    ensures { result ≡ first_pair ring }
{
    match ring {
        Face::Triangle(a, b, _) => (a, b),
        Face::Square(a, b, _, _) => (a, b),
        Face::Pentagon(a, b, _, _, _) => (a, b),
    }
}

/// Returns true if a unit has at most `DEGREE` neighbors.
pub fn has_few_neighbors(graph: &Graph, unit: u32) -> bool
    requires { unit < graph.now.units }
{
    graph.neighbours(unit).len() <= DEGREE
}

/// Returns true if three units are distinct, and each is adjacent to the next and the last to the
/// first. This function and the next ones make all of their tests, which leaves no branch.
fn is_triangle(graph: &Graph, a: u32, b: u32, c: u32) -> bool
    requires { (a < graph.now.units) × (b < graph.now.units) × (c < graph.now.units) }
    ensures { result ≡ (not (a == b) && (not (a == c) && (not (b == c) && (adjacent graph.now a b && (adjacent graph.now b c && adjacent graph.now c a))))) }
{
    (a != b)
        & ((a != c)
            & ((b != c) & (graph.adjacent(a, b) & (graph.adjacent(b, c) & graph.adjacent(c, a)))))
}

/// Returns true if four units are distinct, and each is adjacent to the next and the last to the
/// first.
fn is_square(graph: &Graph, a: u32, b: u32, c: u32, d: u32) -> bool
    requires one { (a < graph.now.units) × (b < graph.now.units) }
    requires other { (c < graph.now.units) × (d < graph.now.units) }
    ensures { result ≡ (not (a == b) && (not (a == c) && (not (a == d) && (not (b == c) && (not (b == d) && (not (c == d)
        && (adjacent graph.now a b && (adjacent graph.now b c && (adjacent graph.now c d && adjacent graph.now d a))))))))) }
{
    let sides = graph.adjacent(a, b)
        & (graph.adjacent(b, c) & (graph.adjacent(c, d) & graph.adjacent(d, a)));
    (a != b) & ((a != c) & ((a != d) & ((b != c) & ((b != d) & ((c != d) & sides)))))
}

fn differ(a: u32, b: u32, c: u32, d: u32, e: u32) -> bool
    ensures { result ≡ differ a b c d e }
{
    (a != b)
        & ((a != c)
            & ((a != d)
                & ((a != e)
                    & ((b != c) & ((b != d) & ((b != e) & ((c != d) & ((c != e) & (d != e)))))))))
}

/// Returns true if each of five units is adjacent to the next, and the last to the first.
fn follow(graph: &Graph, a: u32, b: u32, c: u32, d: u32, e: u32) -> bool
    requires three { (a < graph.now.units) × (b < graph.now.units) × (c < graph.now.units) }
    requires two { (d < graph.now.units) × (e < graph.now.units) }
    ensures { result ≡ follow graph.now a b c d e }
{
    graph.adjacent(a, b)
        & (graph.adjacent(b, c)
            & (graph.adjacent(c, d) & (graph.adjacent(d, e) & graph.adjacent(e, a))))
}
