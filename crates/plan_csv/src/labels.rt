//! Plans from the columns of labels of a table.

ghost use Rattle.std.specs.Prelude.{◌≡◌, ◌≤◌, ◌<◌, ◌||◌, ◌⊎◌, ℕ, nat_lt, true, false, [], length, map, slice_index, IfOk, MatchResult};
ghost use Rattle.csv.specs.Records.{fields_of};
ghost use Rattle.audit_model.specs.Below.{map_below};
ghost use Rattle.audit_model.specs.declared.fault.TableFault.TheVariants as fault;
ghost use Rattle.dual_json.specs.Districts.{AreDifferent, AreDistricts};
ghost use Rattle.dual_json.specs.Places.{labels_from};
ghost use Rattle.audit_statement.specs.Table as table;
ghost use Rattle.plan_csv.specs.Fit.{IsPlanOf};
ghost use Rattle.plan_csv.specs.Stages.{assigned_by, AreLabelsOf, IsAssigned};
ghost use Rattle.audit_model.specs.Limits.{most_districts};

use crate::rows::field;
use audit_model::fault::TableFault;
use audit_model::lists::UnitList;
use audit_model::memory::Memory;
use audit_model::plans::Assigned;
use audit_model::text::Text;
use csv::StringRecord;
use dual_json::districts::{different, labels_of, start_of};
use dual_json::names::NodeName;
use std::alloc::Global;

/// Returns true if a plan may not have this number of districts.
pub fn is_miscounted(districts: usize) -> bool
    ensures { result ≡ (nat_lt districts 2 || nat_lt most_districts districts) }
{
    districts < 2 || districts > 200
}

/// Makes the plan with the index `plan`, or returns `DistrictCount`. `entries[records[unit]]` is
/// the record of a unit.
pub fn plan_of(
    alloc: Global,
    header: &StringRecord,
    entries: &[StringRecord],
    records: &[usize],
    plan: usize,
) -> Result<Assigned, TableFault>
    requires few { plan < 4096 }
    requires under { (u : ℕ) → u < length records.now → slice_index records.now u < length entries.now }
    ensures read { MatchResult result
        (λ a. (table.is_miscounted [] [] (map fields_of entries.now) plan ≡ false) × (a ≡ assigned_by (fields_of header.now) (map fields_of entries.now) records.now plan))
        (λ f. (f ≡ fault.Memory) ⊎ ((f ≡ fault.DistrictCount plan (table.label_count [] [] (map fields_of entries.now) plan))
        × (table.is_miscounted [] [] (map fields_of entries.now) plan ≡ true))) }
    ensures fit { IfOk result (λ a. IsPlanOf (length records.now) a) }
{
    let names = names_of(alloc, entries, plan)?;
    let Ok(found) = different(alloc, &names) else {
        return Err(TableFault::Memory);
    };
    let districts = found.len();
    if is_miscounted(districts) {
        return Err(TableFault::DistrictCount {
            plan: plan as u32,
            count: districts as u64,
        });
    }
    Ok(make_assigned(alloc, field(header, plan + 1), &names, &found, records)?)
}

/// Returns the label of each record in a plan's column.
fn names_of<'e>(
    alloc: Global,
    entries: &'e [StringRecord],
    plan: usize,
) -> Result<Vec<NodeName<'e>>, Memory>
    requires { plan < 4096 }
    ensures { IfOk result (λ names. AreLabelsOf (map fields_of entries.now) plan (labels_from names.items)) }
{
    let mut names = Vec::with_capacity(alloc, entries.len())?;
    for entry in 0..entries.len() {
        names.push(NodeName::Word(field(&entries[entry], plan + 1)))?;
    }
    Ok(names)
}

fn text_of(alloc: Global, text: &str) -> Result<Text, Memory>
    ensures { IfOk result (λ copy. copy ≡ text.now) }
{
    let mut copy = Text::new(alloc);
    copy.push_str(text)?;
    Ok(copy)
}

/// Returns the district of each unit: that of its record.
fn unit_districts(alloc: Global, districts: &[u32], records: &[usize]) -> Result<UnitList, Memory>
    requires { (u : ℕ) → u < length records.now → slice_index records.now u < length districts.now }
    ensures { IfOk result (λ start. start ≡ map_below (length records.now) (λ u. slice_index districts.now (slice_index records.now u))) }
{
    let mut start = UnitList::with_room(alloc, records.len())?;
    for unit in 0..records.len() {
        start.push(districts[records[unit]])?;
    }
    Ok(start)
}

/// Makes a plan from its name, the label of each record (`names`), the distinct labels (`found`)
/// and the index of each unit's record.
fn make_assigned(
    alloc: Global,
    name: &str,
    names: &[NodeName<'_>],
    found: &[NodeName<'_>],
    records: &[usize],
) -> Result<Assigned, Memory>
    requires different { AreDifferent names.now found.now }
    requires few { length found.now ≤ most_districts }
    requires under { (u : ℕ) → u < length records.now → slice_index records.now u < length names.now }
    ensures { IfOk result (λ plan. IsAssigned name.now (labels_from names.now) (labels_from found.now) records.now plan) }
{
    let Ok(districts) = start_of(alloc, names, found) else {
        return Err(Memory);
    };
    let Ok(labels) = labels_of(alloc, found) else {
        return Err(Memory);
    };
    Ok(Assigned {
        name: text_of(alloc, name)?,
        start: unit_districts(alloc, districts.as_slice(), records)?,
        labels,
    })
}
