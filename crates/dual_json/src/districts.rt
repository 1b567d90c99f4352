//! The districts of the start plan, from the labels of the nodes.

ghost use Rattle.std.specs.Prelude.{◌≡◌, ◌<◌, ◌≤◌, None, Some, length, MatchResult};
ghost use Rattle.audit_model.specs.declared.fault.GraphFault.TheVariants.{Memory};
ghost use Rattle.dual_json.specs.Districts.{district_count_fault, AreDifferent, AreDistricts};
ghost use Rattle.dual_json.specs.Places.{labels_from, nth};
ghost use Rattle.audit_model.specs.Limits.{most_units};

use crate::names::NodeName;
use audit_model::fault::GraphFault;
use audit_model::lists::{LabelList, UnitList};
use std::alloc::Global;

/// Returns the distinct labels in rising order. The only error is `Memory`.
pub fn different<'v>(alloc: Global, names: &[NodeName<'v>]) -> Result<Vec<NodeName<'v>>, GraphFault>
    ensures { MatchResult result (λ found. AreDifferent names.now found.items) (λ f. f ≡ Memory) }
{
    let mut found = Vec::from_slice(alloc, names)?;
    found.sort_unstable();
    found.dedup();
    Ok(found)
}

/// Checks that there are 2 to 200 districts. Returns `DistrictCount` otherwise.
pub fn check_count(count: usize) -> Result<(), GraphFault>
    ensures { MatchResult result (λ _. district_count_fault count ≡ None) (λ f. district_count_fault count ≡ Some f) }
{
    if count < 2 || count > 200 {
        return Err(GraphFault::DistrictCount(count as u64));
    }
    Ok(())
}

/// Returns for each node the index of its label in `found`, the sorted distinct labels. The only
/// error is `Memory`.
pub fn start_of<'v>(
    alloc: Global,
    names: &[NodeName<'v>],
    found: &[NodeName<'v>],
) -> Result<UnitList, GraphFault>
    requires few { length found.now ≤ most_units }
    requires different { AreDifferent names.now found.now }
    ensures { MatchResult result (λ start. AreDistricts (labels_from names.now) (labels_from found.now) start) (λ f. f ≡ Memory) }
{
    let mut start = UnitList::new(alloc);
    for i in 0..names.len() {
        start.push(place_of(names, found, i))?;
    }
    Ok(start)
}

/// Returns the index of one node's label in `found`, the sorted distinct labels.
fn place_of<'v>(names: &[NodeName<'v>], found: &[NodeName<'v>], node: usize) -> u32
    requires few { length found.now ≤ most_units }
    requires different { AreDifferent names.now found.now }
    requires node { node < length names.now }
    ensures inside { result < length found.now }
    ensures place { nth (labels_from found.now) result ≡ nth (labels_from names.now) node }
{
    match found.binary_search(&names[node]) {
        Ok(place) => place as u32,
        Err(_) => unreachable!(),
    }
}

/// Copies borrowed labels to labels that own their texts. The only error is `Memory`.
pub fn labels_of(alloc: Global, names: &[NodeName<'_>]) -> Result<LabelList, GraphFault>
    ensures { MatchResult result (λ labels. labels ≡ labels_from names.now) (λ f. f ≡ Memory) }
{
    let mut labels = LabelList::new(alloc);
    for name in names {
        let label = name.to_label(alloc)?;
        labels.push(label)?;
    }
    Ok(labels)
}
