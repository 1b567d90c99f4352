//! The parts of the JSON's root object.

ghost use Rattle.std.specs.Prelude.{◌≡◌, ◌<◌, ◌≤◌, true, false, None, Some, [], length, map, codes, is_some, option_map, option_and_then, unwrap_or, MatchOption, MatchResult};
ghost use Rattle.std.specs.List.{list_all, slice_index_or};
ghost use Rattle.serde_json.specs.Find.{get, as_bool};
ghost use Rattle.dual_json.specs.Values.{value_data};
ghost use Rattle.audit_statement.specs.Reading.{bad_part, document, is_no_flag, list_at as list_in, list_of};
ghost use Rattle.dual_json.specs.Shape.{views, lists_in, document_of_parts, frame_fault};
ghost use Rattle.audit_model.specs.Limits.{most_units};

use crate::value::Value;
use audit_model::fault::{GraphFault, Part};

/// The parts of the root object: its nodes, the adjacency list of each, and its `directed` flag.
#[derive(Clone, Copy)]
pub struct RootParts<'v, 't> {
    pub nodes: &'v [Value<'t>],
    pub adjacency: &'v [Value<'t>],
    pub directed: bool,
}

/// Returns the parts of the root, or the first part that has the wrong shape.
pub fn parts_of<'v, 't>(root: &'v Value<'t>) -> Result<RootParts<'v, 't>, Part>
    ensures { MatchResult result (λ parts. (bad_part (value_data root.now) ≡ None) × (document (value_data root.now) ≡ document_of_parts parts))
        (λ part. bad_part (value_data root.now) ≡ Some part) }
{
    if !root.is_object() {
        return Err(Part::Root);
    }
    let Some(nodes) = list_at(root, "nodes") else {
        return Err(Part::Nodes);
    };
    let Some(adjacency) = list_at(root, "adjacency") else {
        return Err(Part::Adjacency);
    };
    if !are_lists(adjacency) {
        return Err(Part::Adjacency);
    }
    let Some(directed) = flag_at(root, "directed") else {
        return Err(Part::Directed);
    };
    if flag_at(root, "multigraph").is_none() {
        return Err(Part::Multigraph);
    }
    Ok(RootParts {
        nodes,
        adjacency,
        directed,
    })
}

/// Checks that the graph is undirected, that there is one adjacency list for each node, and that
/// there are at most 100,000 nodes. Returns the first fault of these.
pub fn check_frame(parts: &RootParts<'_, '_>) -> Result<(), GraphFault>
    ensures { MatchResult result (λ _. (frame_fault parts.now.directed (length parts.now.nodes.now) (length parts.now.adjacency.now) ≡ None)
        × (length parts.now.nodes.now ≡ length parts.now.adjacency.now) × (length parts.now.nodes.now ≤ most_units))
        (λ f. frame_fault parts.now.directed (length parts.now.nodes.now) (length parts.now.adjacency.now) ≡ Some f) }
{
    let nodes = parts.nodes.len() as u64;
    let adjacency = parts.adjacency.len() as u64;
    if parts.directed {
        return Err(GraphFault::Directed);
    }
    if nodes != adjacency {
        return Err(GraphFault::LengthsDiffer { nodes, adjacency });
    }
    if nodes > 100000 {
        return Err(GraphFault::TooManyUnits(nodes));
    }
    Ok(())
}

/// Returns the entries of a node's adjacency list.
pub fn entries_of<'v, 't>(adjacency: &'v [Value<'t>], node: usize) -> &'v [Value<'t>]
    requires { node < length adjacency.now }
    ensures { views result.now ≡ slice_index_or (lists_in adjacency.now) node [] }
{
    match adjacency[node].as_array() {
        Some(list) => list.as_slice(),
        None => &adjacency[..0],
    }
}

/// Returns the items of the array at a key. Returns `None` if there is no array.
fn list_at<'v, 't>(root: &'v Value<'t>, key: &str) -> Option<&'v [Value<'t>]>
    ensures { option_map (λ s. views s.now) result ≡ list_in key.now (value_data root.now) }
{
    match root.get(key) {
        Some(value) => match value.as_array() {
            Some(list) => Some(list.as_slice()),
            None => None,
        },
        None => None,
    }
}

fn are_lists(values: &[Value<'_>]) -> bool
    ensures { result ≡ list_all (λ d. is_some (list_of d)) (views values.now) }
{
    for value in values {
        if !value.is_array() {
            return false;
        }
    }
    true
}

/// Returns the Boolean at a key, or false if there is no such key. Returns `None` if the value is
/// not a Boolean.
fn flag_at(root: &Value<'_>, key: &str) -> Option<bool>
    ensures { MatchOption result (is_no_flag key.now (value_data root.now) ≡ true)
        (λ flag. (is_no_flag key.now (value_data root.now) ≡ false) × (unwrap_or (option_and_then as_bool (get key.now (value_data root.now))) false ≡ flag)) }
{
    match root.get(key) {
        Some(value) => value.as_bool(),
        None => Some(false),
    }
}
