//! The diagnostics of refused tables of plans.

ghost use Rattle.std.specs.Prelude.{◌≡◌, map};
ghost use Rattle.report.specs.Pieces.{piece_text};
ghost use Rattle.audit_model.specs.declared.fault.TableFault.TheVariants.{DistrictCount};
ghost use Rattle.audit_statement.specs.Note as terms;

use crate::note::line::{Line, count_line, line_of, numbered_line, text_line, two_line};
use crate::piece::Piece::{Number, Text};
use audit_model::fault::TableFault;

/// Makes the diagnostic of a refused table.
pub(crate) fn table_line(fault: &TableFault) -> Line<'static>
    ensures { terms.as_line (map piece_text result) ≡ terms.as_line (terms.table_note fault.now) }
{
    match fault {
        TableFault::Unreadable(record) => numbered_line("record ", *record, " is unreadable"),
        TableFault::NoHeader => text_line("no header"),
        TableFault::TooManyPlans(n) => count_line(*n, " plans, more than 4096"),
        TableFault::BadName(plan) => {
            numbered_line("plan ", u64::from(*plan), " has no usable name")
        }
        TableFault::SharedId { one, other } => two_line("units ", *one, *other, " share an id"),
        TableFault::UnknownId(record) => numbered_line("record ", *record, " names no unit"),
        TableFault::Twice(record) => numbered_line("record ", *record, " repeats a unit"),
        TableFault::MissingUnit(unit) => numbered_line("unit ", u64::from(*unit), " is missing"),
        TableFault::DistrictCount { plan, count } => districts_line(*plan, *count),
        TableFault::Memory => text_line("memory"),
    }
}

// Returns the line about a plan with too few or too many districts.
fn districts_line(plan: u32, count: u64) -> Line<'static>
    ensures { terms.as_line (map piece_text result) ≡ terms.as_line (terms.table_note (DistrictCount plan count)) }
{
    line_of(&[
        Text("plan "),
        Number(u64::from(plan)),
        Text(" has "),
        Number(count),
        Text(" districts, not 2 to 200"),
    ])
}
