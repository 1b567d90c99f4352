//! The records of a table as texts.

ghost use Rattle.std.specs.Prelude.{◌≡◌, ◌⊎◌, None, Some, [], IfOk, MatchResult, length, map};
ghost use Rattle.std.specs.List.{slice_index_or};
ghost use Rattle.csv.specs.Reading.{default_config, records, strip_bom};
ghost use Rattle.csv.specs.Records.{fields_of};
ghost use Rattle.audit_model.specs.declared.fault.TableFault.TheVariants as fault;
ghost use Rattle.plan_csv.specs.Stages.{unread};

use audit_model::fault::TableFault;
use audit_model::memory::Memory;
use csv::{ByteRecord, ReaderBuilder, StringRecord};
use std::alloc::Global;

/// Reads all records, the header among them. Fails only if out of memory.
pub fn records_of(alloc: Global, bytes: &[u8]) -> Result<Vec<ByteRecord>, Memory>
    ensures { IfOk result (λ rows. map fields_of rows.items ≡ records default_config (strip_bom bytes.now)) }
{
    // `flexible` accepts records of any width, so that `texts_of` can report the first odd one by
    // its number.
    let reader = ReaderBuilder::new()
        .has_headers(false)
        .flexible(true)
        .from_reader(alloc, bytes);
    let mut rows = Vec::new(alloc);
    for row in reader.into_byte_records() {
        let Ok(row) = row else {
            return Err(Memory);
        };
        rows.push(row)?;
    }
    Ok(rows)
}

/// Returns the number of fields of the first record, or 0 if there is no record.
pub fn columns_of(rows: &[ByteRecord]) -> usize
    ensures { result ≡ length (slice_index_or (map fields_of rows.now) 0 []) }
{
    if rows.is_empty() { 0 } else { rows[0].len() }
}

/// Converts the records to texts, or returns the number of the first one that is not UTF-8 or does
/// not have `columns` fields.
pub fn texts_of(
    alloc: Global,
    rows: Vec<ByteRecord>,
    columns: usize,
) -> Result<Vec<StringRecord>, TableFault>
    ensures { MatchResult result (λ texts. (map fields_of texts.items ≡ map fields_of rows.items) × (unread columns (map fields_of rows.items) ≡ None))
        (λ f. (f ≡ fault.Memory) ⊎ (unread columns (map fields_of rows.items) ≡ Some f)) }
{
    let mut texts = Vec::new(alloc);
    for row in rows {
        if row.len() != columns {
            return Err(TableFault::Unreadable(texts.len() as u64));
        }
        let Ok(text) = StringRecord::from_byte_record(row) else {
            return Err(TableFault::Unreadable(texts.len() as u64));
        };
        texts.push(text)?;
    }
    Ok(texts)
}

/// Returns a field of a record, or the empty text if there are fewer fields.
pub fn field(row: &StringRecord, place: usize) -> &str
    ensures { result.now ≡ slice_index_or (fields_of row.now) place [] }
{
    match row.get(place) {
        Some(text) => text,
        None => "",
    }
}
