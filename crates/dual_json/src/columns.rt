//! Columns of nodes: numbers, flags of frozen units, and the group.
//!
//! A column has the values of all nodes for one attribute. The checks below run before a column is read, so that faults
//! come in the order that the definitions fix.

ghost use Rattle.std.specs.Prelude.{◌≡◌, ◌≤◌, None, Some, cond, is_none, nat_le, nat_lt, option_and_then, option_map, length, IfOk, MatchResult};
ghost use Rattle.serde_json.specs.Find.{get};
ghost use Rattle.dual_json.specs.Values.{value_data};
ghost use Rattle.dual_json.specs.Columns.{count_in, flag_from, flag_in, flags_in, frozen_in, missing_in_frozen, bad_in_frozen, missing_in_group, bad_in_group, missing_in, bad_in, missing, bad, numbers_in, AreOfGroup};
ghost use Rattle.dual_json.specs.Shape.{views};
ghost use Rattle.audit_model.specs.Limits.{most_people, most_units};

use crate::value::Value;
use audit_model::fault::{Column, GraphFault};
use audit_model::lists::{NumList, UnitList};
use audit_model::memory::Memory;
use audit_model::outcome::Counts;
use audit_model::rules::Group;
use audit_model::setting::Columns;
use audit_model::text::Text;
use std::alloc::Global;

/// Checks that each node has all columns. Otherwise returns `Missing` with the least node that does
/// not, and the first column that this node does not have.
pub fn check_columns(nodes: &[Value<'_>], columns: &Columns) -> Result<(), GraphFault>
    requires { length nodes.now ≤ most_units }
    ensures { MatchResult result (λ _. missing columns.now (views nodes.now) ≡ None) (λ f. missing columns.now (views nodes.now) ≡ Some f) }
{
    for node in 0..nodes.len() {
        if let Some(column) = missing_column(&nodes[node], columns) {
            return Err(GraphFault::Missing {
                node: node as u32,
                column,
            });
        }
    }
    Ok(())
}

/// Checks that each node has valid numbers and flags. Otherwise returns `BadNumber` with the least node
/// that does not, and the node's first invalid column.
pub fn check_numbers(nodes: &[Value<'_>], columns: &Columns) -> Result<(), GraphFault>
    requires { length nodes.now ≤ most_units }
    ensures { MatchResult result (λ _. bad columns.now (views nodes.now) ≡ None) (λ f. bad columns.now (views nodes.now) ≡ Some f) }
{
    for node in 0..nodes.len() {
        if let Some(column) = bad_number(&nodes[node], columns) {
            return Err(GraphFault::BadNumber {
                node: node as u32,
                column,
            });
        }
    }
    Ok(())
}

/// Reads the columns of population and votes. The lengths of edges stay empty; they are read later.
pub fn counts_of(alloc: Global, nodes: &[Value<'_>], columns: &Columns) -> Result<Counts, Memory>
    ensures population { IfOk result (λ counts. counts.population ≡ numbers_in columns.now.population (views nodes.now)) }
    ensures first { IfOk result (λ counts. counts.first ≡ numbers_in columns.now.first (views nodes.now)) }
    ensures second { IfOk result (λ counts. counts.second ≡ numbers_in columns.now.second (views nodes.now)) }
{
    Ok(Counts {
        population: numbers_of(alloc, nodes, &columns.population)?,
        first: numbers_of(alloc, nodes, &columns.first)?,
        second: numbers_of(alloc, nodes, &columns.second)?,
        lengths: UnitList::new(alloc),
    })
}

/// Reads the two columns of the group, or returns empty lists if no group is named.
pub fn group_of(alloc: Global, nodes: &[Value<'_>], columns: &Columns) -> Result<Group, Memory>
    ensures { IfOk result (AreOfGroup columns.now (views nodes.now)) }
{
    if columns.group.as_str().is_empty() {
        return Ok(Group {
            members: NumList::new(alloc),
            whole: NumList::new(alloc),
        });
    }
    Ok(Group {
        members: numbers_of(alloc, nodes, &columns.group)?,
        whole: numbers_of(alloc, nodes, &columns.whole)?,
    })
}

/// Reads the flag of each unit, 1 if it is frozen, or returns an empty list if no column of frozen
/// units is named.
pub fn frozen_of(alloc: Global, nodes: &[Value<'_>], columns: &Columns) -> Result<UnitList, Memory>
    ensures { IfOk result (λ frozen. frozen ≡ frozen_in columns.now (views nodes.now)) }
{
    if columns.frozen.as_str().is_empty() {
        return Ok(UnitList::new(alloc));
    }
    flags_of(alloc, nodes, &columns.frozen)
}

/// Returns true if the node does not have the column.
fn is_missing(node: &Value<'_>, key: &Text) -> bool
    ensures { result ≡ is_none (get key.now (value_data node.now)) }
{
    node.get(key.as_str()).is_none()
}

/// Returns the column of frozen units if the arguments name it and the node does not have it.
fn missing_of_frozen(node: &Value<'_>, columns: &Columns) -> Option<Column>
    ensures { result ≡ missing_in_frozen columns.now (value_data node.now) }
{
    if columns.frozen.as_str().is_empty() {
        None
    } else if is_missing(node, &columns.frozen) {
        Some(Column::Frozen)
    } else {
        None
    }
}

/// Returns the first column that the node does not have, among those of the group and of frozen
/// units.
fn missing_of_group(node: &Value<'_>, columns: &Columns) -> Option<Column>
    ensures { result ≡ missing_in_group columns.now (value_data node.now) }
{
    if columns.group.as_str().is_empty() {
        missing_of_frozen(node, columns)
    } else if is_missing(node, &columns.group) {
        Some(Column::Group)
    } else if is_missing(node, &columns.whole) {
        Some(Column::Whole)
    } else {
        missing_of_frozen(node, columns)
    }
}

/// Returns the first column that the node does not have.
fn missing_column(node: &Value<'_>, columns: &Columns) -> Option<Column>
    ensures { result ≡ missing_in columns.now (value_data node.now) }
{
    if is_missing(node, &columns.population) {
        Some(Column::Population)
    } else if is_missing(node, &columns.first) {
        Some(Column::First)
    } else if is_missing(node, &columns.second) {
        Some(Column::Second)
    } else if is_missing(node, &columns.district) {
        Some(Column::District)
    } else {
        missing_of_group(node, columns)
    }
}

/// Returns the number in a column, if it is an integer from 0 to 10^9.
fn count_at(node: &Value<'_>, key: &Text) -> Option<u64>
    ensures { result ≡ count_in key.now (value_data node.now) }
{
    let Some(value) = node.get(key.as_str()) else {
        return None;
    };
    match value.as_u64() {
        Some(count) => {
            if count <= 1000000000 {
                Some(count)
            } else {
                None
            }
        }
        None => None,
    }
}

fn one_if(flag: bool) -> u32
    ensures { result ≡ cond flag 1 0 }
{
    if flag { 1 } else { 0 }
}

/// Returns the flag that a number stands for: 0 for 0, and 1 for 1 to 10^9. Other values are no
/// flags.
fn flag_of_number(number: Option<u64>) -> Option<u32>
    ensures { result ≡ option_map (λ n. cond (nat_lt 0 n) 1 0) (option_and_then (λ n. cond (nat_le n most_people) (Some n) None) number) }
{
    match number {
        Some(count) => {
            if count <= 1000000000 {
                Some(one_if(count > 0))
            } else {
                None
            }
        }
        None => None,
    }
}

/// Returns the flag that a value stands for, if it is a Boolean or an integer from 0 to 10^9.
fn flag_of_value(value: &Value<'_>) -> Option<u32>
    ensures { result ≡ flag_from (value_data value.now) }
{
    match value.as_bool() {
        Some(flag) => Some(one_if(flag)),
        None => flag_of_number(value.as_u64()),
    }
}

/// Returns the flag in a column, if its value is a Boolean or an integer from 0 to 10^9.
fn flag_at(node: &Value<'_>, key: &Text) -> Option<u32>
    ensures { result ≡ flag_in key.now (value_data node.now) }
{
    let Some(value) = node.get(key.as_str()) else {
        return None;
    };
    flag_of_value(value)
}

/// Returns the column of frozen units if the arguments name it and the node has no valid flag in
/// it.
fn bad_of_frozen(node: &Value<'_>, columns: &Columns) -> Option<Column>
    ensures { result ≡ bad_in_frozen columns.now (value_data node.now) }
{
    if columns.frozen.as_str().is_empty() {
        None
    } else if flag_at(node, &columns.frozen).is_none() {
        Some(Column::Frozen)
    } else {
        None
    }
}

/// Returns the first column in which the node has no valid value, among those of the group and of
/// frozen units.
fn bad_of_group(node: &Value<'_>, columns: &Columns) -> Option<Column>
    ensures { result ≡ bad_in_group columns.now (value_data node.now) }
{
    if columns.group.as_str().is_empty() {
        bad_of_frozen(node, columns)
    } else if count_at(node, &columns.group).is_none() {
        Some(Column::Group)
    } else if count_at(node, &columns.whole).is_none() {
        Some(Column::Whole)
    } else {
        bad_of_frozen(node, columns)
    }
}

/// Returns the first column in which the node has no valid number or flag.
fn bad_number(node: &Value<'_>, columns: &Columns) -> Option<Column>
    ensures { result ≡ bad_in columns.now (value_data node.now) }
{
    if count_at(node, &columns.population).is_none() {
        Some(Column::Population)
    } else if count_at(node, &columns.first).is_none() {
        Some(Column::First)
    } else if count_at(node, &columns.second).is_none() {
        Some(Column::Second)
    } else {
        bad_of_group(node, columns)
    }
}

/// Reads one column of numbers. The default 0 is never used: `check_numbers` ran before.
fn numbers_of(alloc: Global, nodes: &[Value<'_>], key: &Text) -> Result<NumList, Memory>
    ensures { IfOk result (λ numbers. numbers ≡ numbers_in key.now (views nodes.now)) }
{
    let mut numbers = NumList::new(alloc);
    for node in 0..nodes.len() {
        let number = count_at(&nodes[node], key).unwrap_or(0);
        numbers.push(number)?;
    }
    Ok(numbers)
}

/// Reads one column of flags. The default 0 is never used: `check_numbers` ran before.
fn flags_of(alloc: Global, nodes: &[Value<'_>], key: &Text) -> Result<UnitList, Memory>
    ensures { IfOk result (λ flags. flags ≡ flags_in key.now (views nodes.now)) }
{
    let mut flags = UnitList::new(alloc);
    for node in 0..nodes.len() {
        let flag = flag_at(&nodes[node], key).unwrap_or(0);
        flags.push(flag)?;
    }
    Ok(flags)
}
