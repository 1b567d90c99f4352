//! The grid that the command `make` writes as JSON in networkx's adjacency format, and the same
//! grid as parsed data.
#![tactic(auto)]

ghost use Rattle.std.specs.Prelude.{◌≡◌, ◌≤◌, false, IfOk};
ghost use Rattle.serde_json.specs.View.{view};
ghost use Rattle.serde_json.specs.Written.{compact_text, has_float};
ghost use Rattle.audit_statement.specs.Grid.{grid};
ghost use Rattle.grid_maker.specs.Tree.{root_tree};

mod adjacency;
pub mod laws;
pub mod made;
mod nodes;
mod square;

use crate::adjacency::adjacency_of;
use crate::nodes::nodes_of;
use crate::square::Square;
use audit_model::buffers::Bytes;
use audit_model::memory::Memory;
pub use laws::grids_are_short;
pub use made::read_made;
use serde_json::{Value, json};
use std::alloc::Global;

/// Writes the grid of a size as JSON. The grid has `10 * size` rows and columns, and `key`
/// determines its votes. Fails if there is no memory.
pub fn make(alloc: Global, size: u32, key: [u8; 32]) -> Result<Bytes, Memory>
    requires { (1 ≤ size) × (size ≤ 30) }
    ensures { IfOk result (λ bytes. bytes.items ≡ grid size key) }
{
    let square = Square { size };
    let adjacency = adjacency_of(alloc, square)?;
    let nodes = nodes_of(alloc, square, key)?;
    let root = root_of(alloc, adjacency, nodes)?;
    serialize(alloc, &root)
}

/// Builds the root object from the adjacency lists and the nodes.
fn root_of(alloc: Global, adjacency: Value, nodes: Value) -> Result<Value, Memory>
    ensures { IfOk result (λ root. view root ≡ root_tree (view adjacency) (view nodes)) }
{
    Ok(json!(in alloc; {
        "adjacency": adjacency,
        "directed": false,
        "graph": [],
        "multigraph": false,
        "nodes": nodes
    })?)
}

/// Serializes a JSON value without spaces.
fn serialize(alloc: Global, value: &Value) -> Result<Bytes, Memory>
    requires { has_float (view value.now) ≡ false }
    ensures { IfOk result (λ bytes. bytes.items ≡ compact_text (view value.now)) }
{
    let text = value.to_vec(alloc)?;
    let mut bytes = Bytes::with_room(alloc, text.len())?;
    bytes.append(&text)?;
    Ok(bytes)
}
