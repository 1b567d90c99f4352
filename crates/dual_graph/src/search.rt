//! A breadth-first search of a set of units.

ghost use Rattle.std.specs.Prelude.{◌≡◌, ◌<◌, ◌↔◌, ◌&&◌, ℕ, [], not, IsTrue};
ghost use Rattle.std.specs.List.{slice_index_or};
ghost use Rattle.audit_model.specs.First.{first_below};
ghost use Rattle.audit_model.specs.Graph.{has, IsGraph, IsIn};
ghost use Rattle.audit_model.specs.Path.{HasPath, IsConnected};
ghost use Rattle.dual_graph.specs.Marked.{IsMarked};
ghost use Rattle.audit_model.specs.Search.{AddsFrom};
ghost use Rattle.dual_graph.specs.DisconnectedPair.{disconnected_pair_of};

use crate::graph::Graph;
use crate::inside::Inside;
use crate::marks::Marks;

/// A graph and the set of its units that a search may visit.
#[derive(Drop)]
pub(crate) struct Within<'a, I: Inside> {
    pub(crate) graph: &'a Graph,
    pub(crate) set: &'a I,
    ghost sized: { I.units set.now ≡ graph.now.units },
}

/// Marks the neighbors of a unit that are in the set.
fn mark_neighbours<I: Inside>(within: &Within<I>, unit: u32, marks: &mut Marks)
    requires unit { unit < within.now.graph.now.units }
    requires units { marks.old.units ≡ within.now.graph.now.units }
    requires marked { IsMarked marks.old }
    ensures units { marks.new.units ≡ within.now.graph.now.units }
    ensures marked { IsMarked marks.new }
    ensures added { AddsFrom within.now.graph.now (I.inside within.now.set.now) (slice_index_or within.now.graph.now.neighbours unit []) marks.old.items marks.new.items }
{
    for other in within.graph.neighbours(unit) {
        let neighbour = *other;
        if within.set.holds(neighbour) {
            marks.mark(neighbour);
        }
    }
}

/// Marks exactly the units to which a path within the set leads from `start`.
fn reach<I: Inside>(within: &Within<I>, start: u32, marks: &mut Marks)
    requires start { IsIn within.now.graph.now (I.inside within.now.set.now) start }
    requires units { marks.old.units ≡ within.now.graph.now.units }
    ensures units { marks.new.units ≡ within.now.graph.now.units }
    ensures found { (v : ℕ) → IsTrue (has marks.new.items v) ↔ HasPath within.now.graph.now (I.inside within.now.set.now) start v }
{
    marks.clear();
    marks.mark(start);
    let mut next = 0;
    while next < marks.count() {
        let unit = marks.at(next);
        mark_neighbours(within, unit, marks);
        next += 1;
    }
}

/// Returns the least unit of the set.
fn first_unit<I: Inside>(within: &Within<I>) -> Option<u32>
    ensures first { result ≡ first_below within.now.graph.now.units (I.inside within.now.set.now) }
    ensures sound { IsGraph within.now.graph.now }
{
    for unit in 0..within.graph.units() {
        if within.set.holds(unit) {
            return Some(unit);
        }
    }
    None
}

/// Returns the least unit of the set that is not marked.
fn first_unmarked<I: Inside>(within: &Within<I>, marks: &Marks) -> Option<u32>
    requires units { marks.now.units ≡ within.now.graph.now.units }
    ensures { result ≡ first_below within.now.graph.now.units (λ u. I.inside within.now.set.now u && not (has marks.now.items u)) }
{
    for unit in 0..within.graph.units() {
        if within.set.holds(unit) && !marks.has(unit) {
            return Some(unit);
        }
    }
    None
}

/// Returns two units that no path within the set connects, or `None` if the set is connected.
///
/// The first is the least unit of the set, and the second the least unit that no such path connects
/// to the first. For an empty set, which does not count as connected, the result is `(0, 0)`.
pub fn find_disconnected_pair<I: Inside>(
    graph: &Graph,
    set: &I,
    marks: &mut Marks,
) -> Option<(u32, u32)>
    requires set { I.units set.now ≡ graph.now.units }
    requires units { marks.old.units ≡ graph.now.units }
    ensures units { marks.new.units ≡ graph.now.units }
    ensures find_disconnected_pair { result ≡ disconnected_pair_of graph.now (I.inside set.now) }
{
    let within = Within { graph, set };
    match first_unit(&within) {
        None => Some((0, 0)),
        Some(one) => {
            reach(&within, one, marks);
            let other = first_unmarked(&within, marks)?;
            Some((one, other))
        }
    }
}

/// Returns true if the set is nonempty and connected.
pub fn is_whole<I: Inside>(graph: &Graph, set: &I, marks: &mut Marks) -> bool
    requires set { I.units set.now ≡ graph.now.units }
    requires units { marks.old.units ≡ graph.now.units }
    ensures units { marks.new.units ≡ graph.now.units }
    ensures whole { IsTrue result ↔ IsConnected graph.now (I.inside set.now) }
{
    find_disconnected_pair(graph, set, marks).is_none()
}
