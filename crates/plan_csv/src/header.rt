//! The table's header record: a title, then a name for each plan.

ghost use Rattle.std.specs.Prelude.{◌≡◌, ◌∷◌, ◌&&◌, nat_le, None, Some, [], MatchResult};
ghost use Rattle.std.specs.List.{list_all};
ghost use Rattle.csv.specs.Records.{fields_of};
ghost use Rattle.audit_model.specs.First.{first_some};
ghost use Rattle.audit_statement.specs.Table as table;

use crate::rows::field;
use audit_model::fault::TableFault;
use csv::StringRecord;

/// The maximum number of plans in a table.
pub const MOST_PLANS: usize = 4096;

/// Returns true if a text is 1 to 100 printable ASCII characters, spaces among them.
pub fn is_plan_name(name: &str) -> bool
    ensures { result ≡ table.is_plan_name name.now }
{
    let bytes = name.as_bytes();
    let seen = are_seen(bytes);
    1 <= bytes.len() && bytes.len() <= 100 && seen
}

/// Returns the number of plans that the header names, or its first fault.
pub fn plans_of(header: &StringRecord) -> Result<usize, TableFault>
    ensures { MatchResult result
        (λ plans. (plans ≡ table.plan_count [] (fields_of header.now) [])
        × (table.misses_header [] (fields_of header.now) [] ≡ None)
        × (table.too_many [] (fields_of header.now) [] ≡ None)
        × (table.bad_name [] (fields_of header.now) [] ≡ None))
        (λ f. first_some (table.misses_header [] (fields_of header.now) [] ∷ table.too_many [] (fields_of header.now) [] ∷ table.bad_name [] (fields_of header.now) [] ∷ []) ≡ Some f) }
{
    let columns = header.len();
    if columns < 2 {
        return Err(TableFault::NoHeader);
    }
    let plans = columns - 1;
    if plans > MOST_PLANS {
        return Err(TableFault::TooManyPlans(plans as u64));
    }
    for plan in 0..plans {
        if !is_plan_name(field(header, plan + 1)) {
            return Err(TableFault::BadName(plan as u32));
        }
    }
    Ok(plans)
}

/// Returns true if a byte is printable ASCII or a space.
fn is_seen(byte: u8) -> bool
    ensures { result ≡ (nat_le 32 byte && nat_le byte 126) }
{
    byte >= 32 && byte <= 126
}

fn are_seen(bytes: &[u8]) -> bool
    ensures { result ≡ list_all (λ c. nat_le 32 c && nat_le c 126) bytes.now }
{
    bytes.iter().all(|c| is_seen(*c))
}
