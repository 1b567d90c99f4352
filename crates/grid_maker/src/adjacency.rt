//! The adjacency lists of the grid. Units are numbered row by row.

ghost use Rattle.std.specs.Prelude.{◌≡◌, ◌+◌, ◌*◌, ◌<◌, ◌≤◌, ◌^◌, ◌++◌, map, option_to_list, IfOk, OnOk};
ghost use Rattle.serde_json.specs.View.{view};
ghost use Rattle.audit_statement.specs.Grid.{grid_side};
ghost use Rattle.grid_maker.specs.Beside.{above as unit_above, left as unit_left, right as unit_right, below as unit_below};
ghost use Rattle.grid_maker.specs.Tree.{entry_tree, neighbours_tree, adjacency_tree};

use crate::square::Square;
use audit_model::memory::Memory;
use serde_json::{Value, json};
use std::alloc::Global;

/// Returns the unit to the right of a unit in the same row, or `None` at the row's end.
pub(crate) fn find_right(square: Square, unit: u32) -> Option<u32>
    requires { unit < grid_side square.size * grid_side square.size }
    ensures { result ≡ unit_right (grid_side square.size) unit }
{
    let side = 10 * square.size;
    if unit % side + 1 < side {
        Some(unit + 1)
    } else {
        None
    }
}

/// Returns the unit below a unit, or `None` in the last row.
pub(crate) fn find_below(square: Square, unit: u32) -> Option<u32>
    requires { unit < grid_side square.size * grid_side square.size }
    ensures { result ≡ unit_below (grid_side square.size) unit }
{
    let side = 10 * square.size;
    let other = unit + side;
    if other < side * side {
        Some(other)
    } else {
        None
    }
}

/// Builds the adjacency lists of all units, as JSON. Fails if there is no memory.
pub fn adjacency_of(alloc: Global, square: Square) -> Result<Value, Memory>
    ensures { IfOk result (λ value. view value ≡ adjacency_tree square.size) }
{
    let side = 10 * square.size;
    let mut list = Vec::new(alloc);
    for unit in 0..side * side {
        list.push(neighbours_of(alloc, square, unit)?)?;
    }
    Ok(Value::Array(list))
}

/// Returns the unit above a unit, or `None` in the first row.
fn find_above(side: u32, unit: u32) -> Option<u32>
    ensures { result ≡ unit_above side unit }
{
    unit.checked_sub(side)
}

/// Returns the unit to the left of a unit in the same row, or `None` at the row's start.
fn find_left(square: Square, unit: u32) -> Option<u32>
    ensures { result ≡ unit_left (grid_side square.size) unit }
{
    let side = 10 * square.size;
    if unit % side > 0 {
        Some(unit - 1)
    } else {
        None
    }
}

/// Appends the adjacency entry of a neighbor, if there is a neighbor.
fn push_entry(alloc: Global, list: &mut Vec<Value>, neighbour: Option<u32>) -> Result<(), Memory>
    ensures { OnOk result (map view list.new.items ≡ map view list.old.items ++ map entry_tree (option_to_list neighbour)) }
{
    if let Some(unit) = neighbour {
        list.push(json!(in alloc; {"id": unit})?)?;
    }
    Ok(())
}

/// Builds the adjacency list of a unit, in rising order of the neighbors.
fn neighbours_of(alloc: Global, square: Square, unit: u32) -> Result<Value, Memory>
    requires { unit < grid_side square.size * grid_side square.size }
    ensures { IfOk result (λ value. view value ≡ neighbours_tree square.size unit) }
{
    let mut list = Vec::new(alloc);
    push_entry(alloc, &mut list, find_above(10 * square.size, unit))?;
    push_entry(alloc, &mut list, find_left(square, unit))?;
    push_entry(alloc, &mut list, find_right(square, unit))?;
    push_entry(alloc, &mut list, find_below(square, unit))?;
    Ok(Value::Array(list))
}
