//! The lengths of edges, from the adjacency entries.
//!
//! Each of the two nodes of an edge may list the edge, even more than once. All these entries must
//! give the same length.

ghost use Rattle.std.specs.Prelude.{◌≡◌, ◌<◌, ◌≤◌, ◌⊎◌, ◌++◌, None, Some, length, option_map, IfOk, OnOk, MatchResult};
ghost use Rattle.audit_model.specs.declared.fault.GraphFault.TheVariants as fault;
ghost use Rattle.audit_model.specs.Limits.{most_units};
ghost use Rattle.dual_json.specs.Edges.{entries_at, first_in};
ghost use Rattle.dual_json.specs.Lengths.{all_lengths, fault_if_named, is_labelled, is_unequal, length_between, length_in, length_of_pair, length_or_zero, lengths_fault, lengths_if_named, listed_length, row_lengths, unequal_fault};
ghost use Rattle.dual_json.specs.Names.{label_from};
ghost use Rattle.dual_json.specs.Shape.{lists_in, views};
ghost use Rattle.dual_json.specs.Values.{value_data};

use crate::index::Index;
use crate::names::{NodeName, name_at};
use crate::required::{Required, check_entries};
use crate::shape::entries_of;
use crate::value::Value;
use audit_model::fault::GraphFault;
use audit_model::lists::UnitList;
use audit_model::memory::Memory;
use dual_graph::graph::Graph;
use std::alloc::Global;

/// The adjacency lists of the nodes, the map from ids to nodes, and the key of the attribute of
/// lengths. An empty key means that the arguments name no such attribute.
#[derive(Clone, Copy)]
pub struct Listed<'a, 'v> {
    pub adjacency: &'a [Value<'v>],
    pub index: &'a Index<'v>,
    pub key: &'a str,
    pub ghost as_many: { length index.now ≡ length adjacency.now },
    pub ghost few: { length adjacency.now ≤ most_units },
}

/// Returns the length in an entry: the value at the key, if it is an integer from 0 to 2^32 - 1.
pub fn length_at(entry: &Value<'_>, key: &str) -> Option<u32>
    ensures { result ≡ length_in key.now (value_data entry.now) }
{
    let Some(value) = entry.get(key) else {
        return None;
    };
    match value.as_u64() {
        Some(length) => {
            if length <= 4294967295 {
                Some(length as u32)
            } else {
                None
            }
        }
        None => None,
    }
}

/// Returns the length in an entry, or 0 if there is none.
fn length_or_zero(entry: &Value<'_>, key: &str) -> u32
    ensures { result ≡ length_or_zero key.now (value_data entry.now) }
{
    length_at(entry, key).unwrap_or(0)
}

/// Returns true if this is the entry's id.
fn is_named(entry: &Value<'_>, name: NodeName<'_>) -> bool
    ensures { result ≡ is_labelled (label_from name.entry) (value_data entry.now) }
{
    match name_at(entry, "id") {
        Some(id) => id == name,
        None => false,
    }
}

/// Returns the length in the first entry with this id.
fn listed_length(entries: &[Value<'_>], name: NodeName<'_>, key: &str) -> Option<u32>
    ensures { result ≡ listed_length key.now (label_from name.entry) (views entries.now) }
{
    for place in 0..entries.len() {
        if is_named(&entries[place], name) {
            return Some(length_or_zero(&entries[place], key));
        }
    }
    None
}

/// Returns the length of the edge between two nodes, in whichever order they are given.
fn length_between(listed: Listed<'_, '_>, node: u32, other: u32) -> u32
    requires node { node < length listed.index.now }
    requires other { other < length listed.index.now }
    ensures { result ≡ length_between listed.entry.key.now listed.entry.index.now (lists_in listed.entry.adjacency.now) node other }
{
    if node < other {
        length_of_pair(listed, node, other)
    } else {
        length_of_pair(listed, other, node)
    }
}

/// Returns the length in the first entry of `low` with the id of `high`. If there is none, returns
/// the length in the first entry of `high` with the id of `low`.
fn length_of_pair(listed: Listed<'_, '_>, low: u32, high: u32) -> u32
    requires low { low < length listed.index.now }
    requires high { high < length listed.index.now }
    ensures { result ≡ length_of_pair listed.entry.key.now listed.entry.index.now (lists_in listed.entry.adjacency.now) low high }
{
    let entries = entries_of(listed.adjacency, low as usize);
    match listed_length(entries, listed.index.name(high), listed.key) {
        Some(length) => length,
        None => {
            let others = entries_of(listed.adjacency, high as usize);
            listed_length(others, listed.index.name(low), listed.key).unwrap_or(0)
        }
    }
}

/// Returns true if the length in an entry differs from the length of the edge.
fn is_unequal<'v>(listed: Listed<'_, 'v>, node: u32, entry: &Value<'v>) -> bool
    requires { node < length listed.index.now }
    ensures { result ≡ is_unequal listed.entry.key.now listed.entry.index.now (lists_in listed.entry.adjacency.now) node (value_data entry.now) }
{
    match listed.index.node_of(entry) {
        Some(other) => { length_or_zero(entry, listed.key) != length_between(listed, node, other) }
        None => false,
    }
}

/// Returns the index of a node's first entry whose length differs from the length of its edge.
fn first_unequal<'v>(listed: Listed<'_, 'v>, node: u32, entries: &[Value<'v>]) -> Option<usize>
    requires { node < length listed.index.now }
    ensures { result ≡ first_in (is_unequal listed.entry.key.now listed.entry.index.now (lists_in listed.entry.adjacency.now) node) (views entries.now) }
{
    for place in 0..entries.len() {
        if is_unequal(listed, node, &entries[place]) {
            return Some(place);
        }
    }
    None
}

/// Checks that all entries of an edge have one length. Otherwise returns `UnequalLengths` with the
/// first entry that differs.
fn check_equal(listed: Listed<'_, '_>) -> Result<(), GraphFault>
    ensures { MatchResult result (λ _. unequal_fault listed.entry.key.now listed.entry.index.now (lists_in listed.entry.adjacency.now) ≡ None)
        (λ f. unequal_fault listed.entry.key.now listed.entry.index.now (lists_in listed.entry.adjacency.now) ≡ Some f) }
{
    for node in 0..listed.adjacency.len() {
        let entries = entries_of(listed.adjacency, node);
        if let Some(place) = first_unequal(listed, node as u32, entries) {
            return Err(GraphFault::UnequalLengths {
                node: node as u32,
                place: place as u64,
            });
        }
    }
    Ok(())
}

/// Appends the lengths of the edges from a node to its neighbors, in rising order of the neighbors.
fn push_row(
    lengths: &mut UnitList,
    graph: &Graph,
    listed: Listed<'_, '_>,
    node: u32,
) -> Result<(), Memory>
    requires node { node < graph.now.units }
    requires units { graph.now.units ≡ length listed.index.now }
    ensures { OnOk result (lengths.new ≡ lengths.old ++ row_lengths listed.entry.key.now listed.entry.index.now (lists_in listed.entry.adjacency.now) graph.now node) }
{
    for other in graph.neighbours(node) {
        lengths.push(length_between(listed, node, *other))?;
    }
    Ok(())
}

/// Reads the lengths of the edges, once from each unit: by rising unit, then by rising neighbor.
fn lengths_from(alloc: Global, graph: &Graph, listed: Listed<'_, '_>) -> Result<UnitList, Memory>
    requires { graph.now.units ≡ length listed.index.now }
    ensures { IfOk result (λ lengths. lengths ≡ all_lengths listed.entry.key.now listed.entry.index.now (lists_in listed.entry.adjacency.now) graph.now) }
{
    let mut lengths = UnitList::new(alloc);
    for node in 0..graph.units() {
        push_row(&mut lengths, graph, listed, node)?;
    }
    Ok(lengths)
}

/// Reads the lengths of the edges, once from each unit, or returns an empty list if the key is
/// empty.
///
/// # Errors
///
/// The first of these faults, in this order, at the first entry that has it:
///
/// - `MissingLength`: the entry has no value at the key.
/// - `BadLength`: the value is no integer from 0 to 2^32 - 1.
/// - `UnequalLengths`: another entry of the edge has another length.
///
/// `Memory` comes if there was no memory.
pub fn lengths_of(
    alloc: Global,
    graph: &Graph,
    listed: Listed<'_, '_>,
) -> Result<UnitList, GraphFault>
    requires { graph.now.units ≡ length listed.index.now }
    ensures { MatchResult result
        (λ lengths. (fault_if_named listed.entry.key.now listed.entry.index.now (lists_in listed.entry.adjacency.now) ≡ None)
        × (lengths ≡ lengths_if_named listed.entry.key.now listed.entry.index.now (lists_in listed.entry.adjacency.now) graph.now))
        (λ f. (f ≡ fault.Memory) ⊎ (fault_if_named listed.entry.key.now listed.entry.index.now (lists_in listed.entry.adjacency.now) ≡ Some f)) }
{
    if listed.key.is_empty() {
        return Ok(UnitList::new(alloc));
    }
    check_entries(listed.adjacency, Required::Value(listed.key))?;
    check_entries(listed.adjacency, Required::Length(listed.key))?;
    check_equal(listed)?;
    match lengths_from(alloc, graph, listed) {
        Ok(lengths) => Ok(lengths),
        Err(_) => Err(GraphFault::Memory),
    }
}
