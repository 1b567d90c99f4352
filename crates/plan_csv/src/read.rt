//! Reading a whole table.

ghost use Rattle.std.specs.Prelude.{◌≡◌, ◌≤◌, ◌<◌, ◌^◌, ◌⊎◌, ℕ, [], None, Some, Ok, Err, length, map, slice_index, All, IfOk, MatchResult};
ghost use Rattle.csv.specs.Records.{fields_of};
ghost use Rattle.audit_model.specs.Below.{map_below};
ghost use Rattle.audit_model.specs.declared.fault.TableFault.TheVariants as fault;
ghost use Rattle.audit_statement.specs.Table as table;
ghost use Rattle.plan_csv.specs.Fit.{IsPlanOf};
ghost use Rattle.plan_csv.specs.Stages.{assigned_by, later};
ghost use Rattle.audit_model.specs.Limits.{most_units};

use crate::header::plans_of;
use crate::labels::plan_of;
use crate::rows::{columns_of, records_of, texts_of};
use crate::units::records_from;
use audit_model::fault::TableFault;
use audit_model::lists::LabelList;
use audit_model::plans::AssignedList;
use csv::StringRecord;
use std::alloc::Global;

/// Reads the plans of a table over units with these ids.
///
/// The first record is a title and the plans' names. Each further record is a unit's id and its
/// label in each plan.
///
/// # Errors
///
/// The faults are tested in this order. Each test covers the whole table before the next one
/// begins, and reports the first occurrence.
///
/// - `Unreadable`: a record with another number of fields than the first, or a field that is not
///   UTF-8.
/// - `NoHeader`: there is no record, or the first has fewer than two fields.
/// - `TooManyPlans`: more than 4096 plans. It gives their number.
/// - `BadName`: a plan name that is not 1 to 100 printable ASCII characters.
/// - `SharedId`: two units whose ids are equal as text. It gives the first unit whose id repeats an
///   earlier one, and the earlier unit.
/// - `UnknownId`: a record whose first field is no unit's id.
/// - `Twice`: a record whose unit an earlier record names.
/// - `MissingUnit`: a unit that no record names.
/// - `DistrictCount`: a plan with fewer than 2 or more than 200 distinct labels.
///
/// `Memory`: out of memory, at any point.
pub fn read_plans(alloc: Global, bytes: &[u8], ids: &LabelList) -> Result<AssignedList, TableFault>
    requires { length ids.now ≤ most_units }
    ensures read { MatchResult result (λ plans. table.table_reading bytes.now ids.now ≡ Ok plans)
        (λ f. (f ≡ fault.Memory) ⊎ (table.table_reading bytes.now ids.now ≡ Err f)) }
    ensures fit { IfOk result (λ plans. All (IsPlanOf (length ids.now)) plans) }
{
    let rows = records_of(alloc, bytes)?;
    let columns = columns_of(rows.as_slice());
    let texts = texts_of(alloc, rows, columns)?;
    match texts.as_slice() {
        [header, entries @ ..] => plans_from(alloc, header, entries, ids),
        [] => Err(TableFault::NoHeader),
    }
}

/// Makes the plans of the columns after the first. `entries[records[unit]]` is the record of a
/// unit.
fn read_columns(
    alloc: Global,
    header: &StringRecord,
    entries: &[StringRecord],
    records: &[usize],
    plans: usize,
) -> Result<AssignedList, TableFault>
    requires few { plans ≤ 4096 }
    requires all { plans ≡ table.plan_count [] (fields_of header.now) [] }
    requires under { (u : ℕ) → u < length records.now → slice_index records.now u < length entries.now }
    ensures read { MatchResult result
        (λ list. (table.refused_count [] (fields_of header.now) (map fields_of entries.now) ≡ None)
        × (list ≡ map_below plans (assigned_by (fields_of header.now) (map fields_of entries.now) records.now)))
        (λ f. (f ≡ fault.Memory) ⊎ (table.refused_count [] (fields_of header.now) (map fields_of entries.now) ≡ Some f)) }
    ensures fit { IfOk result (λ list. All (IsPlanOf (length records.now)) list) }
{
    let mut list = AssignedList::new(alloc);
    for plan in 0..plans {
        match plan_of(alloc, header, entries, records, plan) {
            Err(fault) => return Err(fault),
            Ok(assigned) => list.push(assigned)?,
        }
    }
    Ok(list)
}

/// Makes the plans from records that have equally many fields.
fn plans_from(
    alloc: Global,
    header: &StringRecord,
    entries: &[StringRecord],
    ids: &LabelList,
) -> Result<AssignedList, TableFault>
    requires few { length ids.now ≤ most_units }
    requires small { length entries.now < 2 ^ 63 }
    ensures read { MatchResult result
        (λ list. (later ids.now (fields_of header.now) (map fields_of entries.now) ≡ None)
        × (list ≡ map_below (table.plan_count ids.now (fields_of header.now) (map fields_of entries.now)) (table.assigned ids.now (fields_of header.now) (map fields_of entries.now))))
        (λ f. (f ≡ fault.Memory) ⊎ (later ids.now (fields_of header.now) (map fields_of entries.now) ≡ Some f)) }
    ensures fit { IfOk result (λ list. All (IsPlanOf (length ids.now)) list) }
{
    let plans = plans_of(header)?;
    let records = records_from(alloc, entries, ids.as_slice())?;
    read_columns(alloc, header, entries, records.as_slice(), plans)
}
