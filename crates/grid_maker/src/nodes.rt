//! The nodes of the grid, with population, votes and district.

ghost use Rattle.std.specs.Prelude.{◌≡◌, ◌*◌, ◌<◌, ◌≤◌, IfOk};
ghost use Rattle.serde_json.specs.View.{view};
ghost use Rattle.audit_statement.specs.Grid.{grid_side};
ghost use Rattle.grid_maker.specs.Tree.{unit_tree, nodes_tree};

use crate::square::Square;
use audit_model::memory::Memory;
use chacha_draws::Draws;
use serde_json::{Value, json};
use std::alloc::Global;

/// The stream from which the votes are drawn. No trajectory uses it: the streams of trajectories
/// have far smaller numbers.
pub(crate) const VOTES_STREAM: u64 = 4_294_967_296;

/// Builds the nodes of all units, as JSON. Fails if there is no memory.
pub fn nodes_of(alloc: Global, square: Square, key: [u8; 32]) -> Result<Value, Memory>
    ensures { IfOk result (λ value. view value ≡ nodes_tree square.size key) }
{
    let mut draws = Draws::new(key, VOTES_STREAM);
    let side = 10 * square.size;
    let mut list = Vec::new(alloc);
    for unit in 0..side * side {
        let first = draws.next() % 101;
        list.push(node_of(alloc, square, unit, first)?)?;
    }
    Ok(Value::Array(list))
}

/// Builds the node of a unit with 100 people. `first` of them vote for the first party, and the
/// others for the second.
fn node_of(alloc: Global, square: Square, unit: u32, first: u64) -> Result<Value, Memory>
    requires { first ≤ 100 }
    ensures { IfOk result (λ value. view value ≡ unit_tree square.size unit first) }
{
    let row = unit / (10 * square.size);
    Ok(json!(in alloc; {
        "a": first,
        "b": 100 - first,
        "district": row / square.size,
        "id": unit,
        "pop": 100u32
    })?)
}
