//! Diagonals: pairs of adjacent units that meet only at a corner of four units. Nothing is proved
//! of them: they only guide the search for fillers.

ghost use Rattle.std.specs.Prelude.{◌≡◌, ◌<◌, length, All};

use crate::face::has_few_neighbors;
use audit_model::memory::Memory;
use dual_graph::graph::Graph;
use std::alloc::Global;

/// A flag for each entry of the units' lists of neighbors: true if the unit and the neighbor are a
/// diagonal.
///
/// A *diagonal* is an edge whose ends have exactly two common neighbors, if these are adjacent and
/// have no further common neighbor. Maps have diagonals where units that meet at a corner count as
/// neighbors.
#[derive(Drop)]
pub struct Diagonals {
    flags: Vec<bool>,
}

impl Diagonals {
    /// Creates an empty list.
    pub fn none(alloc: Global) -> Diagonals {
        Diagonals {
            flags: Vec::new(alloc),
        }
    }

    /// Finds the diagonals of a graph. Fails if there is no memory.
    pub fn of(alloc: Global, graph: &Graph) -> Result<Diagonals, Memory> {
        let mut seen: Vec<u32> = vec![in alloc; 0; graph.units() as usize]?;
        let mut diagonals = Diagonals {
            flags: vec![in alloc; false; graph.arcs_before(graph.units())]?,
        };
        for unit in 0..graph.units() {
            diagonals.mark_at(graph, &mut seen, unit);
        }
        Ok(diagonals)
    }

    /// Returns true if the flag of an entry is set.
    #[inline]
    pub fn has(&self, index: usize) -> bool {
        index < self.flags.len() && self.flags[index]
    }

    /// Sets the flag of a neighbor in a unit's list.
    fn mark(&mut self, graph: &Graph, unit: u32, other: u32)
        requires { unit < graph.now.units }
    {
        let row = graph.neighbours(unit);
        let begin = graph.arcs_before(unit);
        for place in 0..row.len() {
            let index = begin.wrapping_add(place);
            if row[place] == other && index < self.flags.len() {
                self.flags[index] = true;
            }
        }
    }

    /// Marks the diagonals from a unit to greater ones. In `seen`, the unit's neighbors get its
    /// stamp, so that common neighbors are counted without a search.
    fn mark_at(&mut self, graph: &Graph, seen: &mut [u32], unit: u32)
        requires unit { unit < graph.now.units }
        requires seen { length seen.old ≡ graph.now.units }
        ensures seen { length seen.new ≡ length seen.old }
    {
        if !has_few_neighbors(graph, unit) {
            return;
        }
        let stamp = unit.wrapping_add(1);
        set_stamp(graph, seen, unit, stamp);
        for other in graph.neighbours(unit) {
            if *other > unit && is_diagonal(graph, seen, stamp, *other) {
                self.mark(graph, unit, *other);
                self.mark(graph, *other, unit);
            }
        }
    }
}

/// Stamps the neighbors of a unit.
fn set_stamp(graph: &Graph, seen: &mut [u32], unit: u32, stamp: u32)
    requires unit { unit < graph.now.units }
    requires seen { length seen.old ≡ graph.now.units }
    ensures { length seen.new ≡ length seen.old }
{
    for other in graph.neighbours(unit) {
        seen[*other as usize] = stamp;
    }
}

/// Returns true if a unit and the unit whose neighbors have this stamp are a diagonal. The two must
/// be adjacent.
fn is_diagonal(graph: &Graph, seen: &[u32], stamp: u32, unit: u32) -> bool
    requires unit { unit < graph.now.units }
    requires seen { length seen.now ≡ graph.now.units }
{
    let row = graph.neighbours(unit);
    if !has_few_neighbors(graph, unit) || count_stamped(row, seen, stamp) != 2 {
        return false;
    }
    let mut first = unit;
    let mut last = unit;
    for other in row {
        if seen[*other as usize] == stamp {
            first = last;
            last = *other;
        }
    }
    have_two_common(graph, first, last)
}

/// Counts the units that have this stamp. The loop has no branch that depends on the stamps.
#[inline]
fn count_stamped(row: &[u32], seen: &[u32], stamp: u32) -> u32
    requires { All (λ v. v < length seen.now) row.now }
{
    let mut count = 0u32;
    for other in row {
        count = count.wrapping_add(u32::from(seen[*other as usize] == stamp));
    }
    count
}

/// Returns true if two units are adjacent and have exactly two common neighbors.
fn have_two_common(graph: &Graph, one: u32, other: u32) -> bool {
    if one >= graph.units() || other >= graph.units() {
        return false;
    }
    if !has_few_neighbors(graph, one) || !has_few_neighbors(graph, other) {
        return false;
    }
    let mut near = false;
    let mut common = 0u32;
    for unit in graph.neighbours(one) {
        near = near || *unit == other;
        common = common.wrapping_add(u32::from(graph.adjacent(other, *unit)));
    }
    near && common == 2
}
