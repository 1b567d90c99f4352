//! The record of each unit, by the ids in the first field of the records.

ghost use Rattle.std.specs.Prelude.{◌≡◌, ◌≤◌, ◌<◌, ◌^◌, ◌⊎◌, ℕ, List, [], None, Some, length, map, string_bytes, IfOk, MatchResult};
ghost use Rattle.std.specs.List.{slice_index_or};
ghost use Rattle.csv.specs.Records.{fields_of};
ghost use Rattle.audit_model.specs.declared.fault.TableFault.TheVariants as fault;
ghost use Rattle.audit_model.specs.declared.setting.Label.{Label};
ghost use Rattle.audit_statement.specs.Table as table;
ghost use Rattle.plan_csv.specs.Stages.{unit_repeated, refused_units, unnamed, AreRecords, IsUnitIndex, AreUnits, AreFirstRecords, AreThere};
ghost use Rattle.audit_model.specs.Limits.{most_units};

use crate::rows::field;
use audit_model::fault::TableFault;
use audit_model::memory::Memory;
use audit_model::setting::Label;
use csv::StringRecord;
use itoa::Buffer;
use std::alloc::Global;
use std::collections::BTreeMap;

/// Returns an id as text. Fails only if out of memory.
pub fn id_text(alloc: Global, id: &Label) -> Result<String, Memory>
    ensures { IfOk result (λ text. string_bytes text ≡ table.id_text id.now) }
{
    match id {
        Label::Whole(number) => {
            let mut buffer = Buffer::new();
            Ok(String::from_str(alloc, buffer.format(*number))?)
        }
        Label::Word(text) => Ok(String::from_str(alloc, text.as_str())?),
    }
}

/// Maps each id's text to its unit, or returns the first unit whose text an earlier unit has too.
pub fn index_of(alloc: Global, ids: &[Label]) -> Result<BTreeMap<String, u32>, TableFault>
    requires { length ids.now ≤ most_units }
    ensures { MatchResult result (λ index. (table.shared_id ids.now [] [] ≡ None) × IsUnitIndex string_bytes ids.now index.entries)
        (λ f. (f ≡ fault.Memory) ⊎ (table.shared_id ids.now [] [] ≡ Some f)) }
{
    let mut index = BTreeMap::new(alloc);
    for unit in 0..ids.len() {
        let text = id_text(alloc, &ids[unit])?;
        let other = unit as u32;
        if let Some(one) = index.get(text.as_str()) {
            return Err(TableFault::SharedId { one: *one, other });
        }
        index.insert(text, other)?;
    }
    Ok(index)
}

/// Returns the unit that each record names, or the first record with an unknown id.
pub fn units_of(
    alloc: Global,
    index: &BTreeMap<String, u32>,
    entries: &[StringRecord],
) -> Result<Vec<u32>, TableFault>
    requires { length entries.now < 2 ^ 63 }
    ensures { (ids : List Label) → IsUnitIndex string_bytes ids index.now.entries
        → MatchResult result (λ units. (table.unknown_id ids [] (map fields_of entries.now) ≡ None) × AreUnits ids (map fields_of entries.now) units.items)
        (λ f. (f ≡ fault.Memory) ⊎ (table.unknown_id ids [] (map fields_of entries.now) ≡ Some f)) }
{
    let mut units = Vec::new(alloc);
    for entry in 0..entries.len() {
        let Some(unit) = index.get(field(&entries[entry], 0)) else {
            return Err(TableFault::UnknownId(entry as u64 + 1));
        };
        units.push(*unit)?;
    }
    Ok(units)
}

/// Returns for each of `count` units the index of the record that names it, or `None` if no record
/// does. Fails at the first record that repeats a unit.
pub fn places_of(
    alloc: Global,
    units: &[u32],
    count: usize,
) -> Result<Vec<Option<usize>>, TableFault>
    requires few { count ≤ most_units }
    requires small { length units.now < 2 ^ 63 }
    requires within { (k : ℕ) → k < length units.now → slice_index_or units.now k 0 < count }
    ensures { MatchResult result (λ places. (unit_repeated units.now ≡ None) × AreFirstRecords units.now count places.items)
        (λ f. (f ≡ fault.Memory) ⊎ (unit_repeated units.now ≡ Some f)) }
{
    let mut places = blanks(alloc, count)?;
    for entry in 0..units.len() {
        let unit = units[entry] as usize;
        if places[unit].is_some() {
            return Err(TableFault::Twice(entry as u64 + 1));
        }
        places[unit] = Some(entry);
    }
    Ok(places)
}

/// Returns the index of each unit's record, or the first unit that no record names.
pub fn records_of(alloc: Global, places: &[Option<usize>]) -> Result<Vec<usize>, TableFault>
    requires { length places.now ≤ most_units }
    ensures { MatchResult result (λ records. (unnamed places.now ≡ None) × AreThere places.now records.items)
        (λ f. (f ≡ fault.Memory) ⊎ (unnamed places.now ≡ Some f)) }
{
    let mut records = Vec::new(alloc);
    for unit in 0..places.len() {
        let Some(record) = places[unit] else {
            return Err(TableFault::MissingUnit(unit as u32));
        };
        records.push(record)?;
    }
    Ok(records)
}

/// Returns the index of each unit's record, or the first fault of the ids and of the records'
/// units.
pub fn records_from(
    alloc: Global,
    entries: &[StringRecord],
    ids: &[Label],
) -> Result<Vec<usize>, TableFault>
    requires few { length ids.now ≤ most_units }
    requires small { length entries.now < 2 ^ 63 }
    ensures { MatchResult result (λ records. (refused_units ids.now (map fields_of entries.now) ≡ None) × AreRecords ids.now (map fields_of entries.now) records.items)
        (λ f. (f ≡ fault.Memory) ⊎ (refused_units ids.now (map fields_of entries.now) ≡ Some f)) }
{
    let index = index_of(alloc, ids)?;
    let units = units_of(alloc, &index, entries)?;
    let places = places_of(alloc, units.as_slice(), ids.len())?;
    records_of(alloc, places.as_slice())
}

fn blanks(alloc: Global, count: usize) -> Result<Vec<Option<usize>>, Memory>
    ensures { IfOk result (λ places. (length places.items ≡ count) × ((u : ℕ) → slice_index_or places.items u None ≡ None)) }
{
    let mut places = Vec::with_capacity(alloc, count)?;
    for _ in 0..count {
        places.push(None)?;
    }
    Ok(places)
}
