//! The edges of the graph, from the adjacency lists of the nodes.

ghost use Rattle.std.specs.Prelude.{◌≡◌, ◌<◌, ◌≤◌, ◌⊎◌, ◌↔◌, ℕ, IsTrue, None, Some, length, option_map, IfOk, MatchResult};
ghost use Rattle.dual_json.specs.Values.{value_data};
ghost use Rattle.audit_model.specs.declared.fault.GraphFault.TheVariants as fault;
ghost use Rattle.audit_model.specs.Graph.{IsGraph, adjacent};
ghost use Rattle.dual_json.specs.Edges.{edge, first_in, first_entry_in, is_unknown, edges_fault, edges_in, graph_in, AddsEdges, AreListed, PushesEdge};
ghost use Rattle.dual_graph.specs.Pairs.{ArePairs, Joins};
ghost use Rattle.dual_json.specs.Places.{repeated_label};
ghost use Rattle.dual_json.specs.Shape.{views, lists_in};
ghost use Rattle.audit_model.specs.Limits.{most_units, most_edges};

use crate::index::Index;
use crate::shape::entries_of;
use crate::value::Value;
use audit_model::fault::GraphFault;
use audit_model::memory::Memory;
use dual_graph::graph::Graph;
use dual_graph::pairs::put_in_order;
use std::alloc::Global;

/// Builds the graph. Two distinct nodes are adjacent if at least one of them lists the other; an
/// entry in which a node lists itself is ignored.
///
/// # Errors
///
/// - `UnknownNeighbour`: an entry has an id that no node has. The first such entry is given.
/// - `TooManyEdges`: there are more than 400,000 edges. Their number is given.
/// - `Memory`: out of memory.
pub fn graph_of<'v>(
    alloc: Global,
    units: u32,
    adjacency: &[Value<'v>],
    index: &Index<'v>,
) -> Result<Graph, GraphFault>
    requires few { units ≤ most_units }
    requires lists { length adjacency.now ≡ units }
    requires ids { length index.now ≡ units }
    requires different { repeated_label index.now ≡ None }
    ensures { MatchResult result
        (λ g. (edges_fault index.now (lists_in adjacency.now) ≡ None) × (g ≡ graph_in index.now (lists_in adjacency.now)) × IsGraph g × (edges_in index.now (lists_in adjacency.now) ≤ most_edges))
        (λ f. (f ≡ fault.Memory) ⊎ (edges_fault index.now (lists_in adjacency.now) ≡ Some f)) }
{
    let mut pairs = pairs_of(alloc, adjacency, index)?;
    put_in_order(&mut pairs);
    let edges = pairs.len() as u64;
    if edges > 400000 {
        return Err(GraphFault::TooManyEdges(edges));
    }
    graph_from(alloc, units, &pairs)
}

/// Returns an edge as a pair, with its smaller unit first.
fn edge_of(unit: u32, other: u32) -> (u32, u32)
    ensures { result ≡ edge unit other }
{
    if unit < other {
        (unit, other)
    } else {
        (other, unit)
    }
}

/// Appends the edge of two nodes, unless they are the same node.
fn push_edge(pairs: &mut Vec<(u32, u32)>, node: u32, other: u32) -> Result<(), Memory>
    ensures { IfOk result (λ _. PushesEdge node other pairs.old.items pairs.new.items) }
{
    if other == node {
        return Ok(());
    }
    pairs.push(edge_of(node, other))?;
    Ok(())
}

/// Appends the edges to the nodes that one node lists. If an entry has an id that no node has,
/// returns `UnknownNeighbour` with the first such entry.
fn add_edges<'v>(
    pairs: &mut Vec<(u32, u32)>,
    index: &Index<'v>,
    entries: &[Value<'v>],
    node: u32,
) -> Result<(), GraphFault>
    ensures { MatchResult result
        (λ _. (first_in (is_unknown index.now) (views entries.now) ≡ None) × AddsEdges index.now (views entries.now) (length entries.now) node pairs.old.items pairs.new.items)
        (λ f. (f ≡ fault.Memory) ⊎ (option_map (fault.UnknownNeighbour node) (first_in (is_unknown index.now) (views entries.now)) ≡ Some f)) }
{
    for place in 0..entries.len() {
        let Some(other) = index.node_of(&entries[place]) else {
            return Err(GraphFault::UnknownNeighbour {
                node,
                place: place as u64,
            });
        };
        push_edge(pairs, node, other)?;
    }
    Ok(())
}

/// Lists the edges that all nodes list, unsorted and with duplicates.
fn pairs_of<'v>(
    alloc: Global,
    adjacency: &[Value<'v>],
    index: &Index<'v>,
) -> Result<Vec<(u32, u32)>, GraphFault>
    requires { length adjacency.now ≤ most_units }
    ensures { MatchResult result
        (λ pairs. (first_entry_in (is_unknown index.now) fault.UnknownNeighbour (lists_in adjacency.now) ≡ None)
        × AreListed index.now (lists_in adjacency.now) (length (lists_in adjacency.now)) pairs.items)
        (λ f. (f ≡ fault.Memory) ⊎ (first_entry_in (is_unknown index.now) fault.UnknownNeighbour (lists_in adjacency.now) ≡ Some f)) }
{
    let mut pairs = Vec::new(alloc);
    for node in 0..adjacency.len() {
        add_edges(&mut pairs, index, entries_of(adjacency, node), node as u32)?;
    }
    Ok(pairs)
}

/// Builds the graph from sorted edges without duplicates.
fn graph_from(alloc: Global, units: u32, pairs: &[(u32, u32)]) -> Result<Graph, GraphFault>
    requires few { (units ≤ most_units) × (length pairs.now ≤ most_edges) }
    requires pairs { ArePairs units pairs.now }
    ensures { MatchResult result (λ g. IsGraph g × (g.units ≡ units) × ((u v : ℕ) → IsTrue (adjacent g u v) ↔ Joins pairs.now u v)) (λ f. f ≡ fault.Memory) }
{
    match Graph::from_pairs(alloc, units, pairs) {
        Ok(graph) => Ok(graph),
        Err(_) => Err(GraphFault::Memory),
    }
}
