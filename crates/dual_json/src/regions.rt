//! The regions of the units.

ghost use Rattle.std.specs.Prelude.{◌≡◌, ◌<◌, ◌≤◌, ◌⊎◌, true, false, None, Some, Ok, Err, nat_lt, length, All, IfOk, MatchResult};
ghost use Rattle.dual_json.specs.Values.{value_data};
ghost use Rattle.audit_model.specs.declared.fault.RegionFault.TheVariants as fault;
ghost use Rattle.audit_model.specs.declared.setting.Columns.{Columns};
ghost use Rattle.audit_model.specs.Limits.{AreRegions, most_units, most_regions};
ghost use Rattle.audit_model.specs.Parsed.{Parsed};
ghost use Rattle.audit_statement.specs.Reading.{reading};
ghost use Rattle.audit_statement.specs.Regions.{region_fault, region_reading, regions};
ghost use Rattle.dual_json.specs.Districts.{different_count};
ghost use Rattle.dual_json.specs.Numbered.{first_without, AreNumbered, IsGraphText};
ghost use Rattle.dual_json.specs.Places.{labels_from};
ghost use Rattle.dual_json.specs.Shape.{views, document_of_parts};

use crate::districts::{different, start_of};
use crate::names::{NodeName, Unnamed, names_at};
use crate::read::value_of;
use crate::shape::{RootParts, parts_of};
use crate::value::Value;
use audit_model::fault::RegionFault;
use audit_model::lists::UnitList;
use audit_model::text::Text;
use json::Scratch;
use std::alloc::Global;

/// Reads the region of each unit by parsing the text of a graph again. The text must have been
/// accepted by [`crate::read_graph`].
///
/// A region, such as a county, has the units with one label in the given column. Regions are
/// numbered from 0 in the order of their labels: integers by value, then texts by their bytes.
///
/// # Errors
///
/// - `Missing`: the least node without the column.
/// - `BadLabel`: the least node whose label is neither a text nor an integer.
/// - `TooMany`: there are more than 5,000 distinct labels. It gives their number.
/// - `Memory`: there was no memory to parse the text again, or for the numbers of the regions.
pub fn read_regions(alloc: Global, bytes: &[u8], column: &Text) -> Result<UnitList, RegionFault>
    requires graph { IsGraphText bytes.now }
    ensures read { MatchResult result (λ numbers. region_reading bytes.now column.now ≡ Ok numbers)
        (λ f. (f ≡ fault.Memory) ⊎ (region_reading bytes.now column.now ≡ Err f)) }
    ensures within { IfOk result (λ numbers. (columns : Columns) (parsed : Parsed) → reading bytes.now columns ≡ Ok parsed → AreRegions parsed.graph.units numbers) }
{
    let mut scratch = Scratch::new(alloc);
    regions_beside(alloc, bytes, column, &mut scratch)
}

/// Does the work of [`read_regions`]. The buffer receives texts whose escapes are decoded.
fn regions_beside<'t>(
    alloc: Global,
    bytes: &'t [u8],
    column: &Text,
    scratch: &'t mut Scratch,
) -> Result<UnitList, RegionFault>
    requires graph { IsGraphText bytes.now }
    ensures read { MatchResult result (λ numbers. region_reading bytes.now column.now ≡ Ok numbers)
        (λ f. (f ≡ fault.Memory) ⊎ (region_reading bytes.now column.now ≡ Err f)) }
    ensures within { IfOk result (λ numbers. (columns : Columns) (parsed : Parsed) → reading bytes.now columns ≡ Ok parsed → AreRegions parsed.graph.units numbers) }
{
    match value_of(alloc, bytes, scratch) {
        Ok(root) => match parts_of(&root) {
            Ok(parts) => {
                let numbers = regions_in(alloc, &parts, column);
                drop(root);
                numbers
            }
            Err(_) => unreachable!(),
        },
        Err(_) => Err(RegionFault::Memory),
    }
}

/// Returns the least node without the column.
fn first_missing(nodes: &[Value<'_>], column: &Text) -> Option<u32>
    requires { length nodes.now ≤ most_units }
    ensures { result ≡ first_without column.now (views nodes.now) }
{
    for node in 0..nodes.len() {
        if nodes[node].get(column.as_str()).is_none() {
            return Some(node as u32);
        }
    }
    None
}

/// Returns for each label its index among the distinct labels in rising order. Returns `TooMany` if
/// there are more than 5,000.
fn numbers_of(alloc: Global, names: &[NodeName<'_>]) -> Result<UnitList, RegionFault>
    requires { length names.now ≤ most_units }
    ensures { MatchResult result
        (λ numbers. (nat_lt most_regions (different_count (labels_from names.now)) ≡ false) × AreNumbered (labels_from names.now) numbers)
        (λ f. (f ≡ fault.Memory) ⊎ ((f ≡ fault.TooMany (different_count (labels_from names.now))) × (nat_lt most_regions (different_count (labels_from names.now)) ≡ true))) }
{
    let Ok(found) = different(alloc, names) else {
        return Err(RegionFault::Memory);
    };
    let Ok(numbers) = start_of(alloc, names, &found) else {
        return Err(RegionFault::Memory);
    };
    let count = found.len() as u64;
    if count > 5000 {
        return Err(RegionFault::TooMany(count));
    }
    Ok(numbers)
}

/// Reads the region of each node.
fn regions_in(
    alloc: Global,
    parts: &RootParts<'_, '_>,
    column: &Text,
) -> Result<UnitList, RegionFault>
    requires { length parts.now.nodes.now ≤ most_units }
    ensures read { MatchResult result
        (λ numbers. (region_fault (document_of_parts parts.now) column.now ≡ None) × (regions (document_of_parts parts.now) column.now ≡ numbers))
        (λ f. (f ≡ fault.Memory) ⊎ (region_fault (document_of_parts parts.now) column.now ≡ Some f)) }
    ensures within { IfOk result (λ numbers. AreRegions (length parts.now.nodes.now) numbers) }
{
    if let Some(node) = first_missing(parts.nodes, column) {
        return Err(RegionFault::Missing(node));
    }
    match names_at(alloc, parts.nodes, column.as_str()) {
        Ok(names) => numbers_of(alloc, &names),
        Err(Unnamed::At(node)) => Err(RegionFault::BadLabel(node)),
        Err(Unnamed::Memory) => Err(RegionFault::Memory),
    }
}
