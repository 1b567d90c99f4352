//! The diagnostic of a call: one line that says why the call ended. Nothing here allocates, so that
//! out of memory can be reported.

ghost use Rattle.std.specs.Prelude.{◌≡◌, ◌∷◌, codes, decimal, map, []};
ghost use Rattle.report.specs.Pieces.{piece_text};
ghost use Rattle.report.specs.Ended.{ending_of, columns_kept};
ghost use Rattle.audit_statement.specs.DueText.{LetsText};
ghost use Rattle.audit_statement.specs.Endings.{AddsLine, WritesEnding};
ghost use Rattle.audit_statement.specs.Status.{line_of, status_of};
ghost use Rattle.audit_statement.specs.Note as terms;

mod arguments;
mod checkpoint;
mod graph;
mod line;
mod output;
mod plan;
mod table;

use crate::ended::Ended;
use crate::note::arguments::word_line;
use crate::note::checkpoint::{write_damaged, write_other_job};
use crate::note::graph::{graph_line, region_line};
use crate::note::line::{Line, counts_line};
use crate::note::output::{write_note, write_text};
use crate::note::plan::{plan_line, write_named};
use crate::note::table::table_line;
use crate::piece::Piece::Text;
use audit_io::sink::Sink;
pub use checkpoint::fault_name;
pub use output::add_line;

/// Writes the diagnostic and returns the exit status.
pub fn write_diagnostic<N: Sink>(why: &Ended, note: &mut N) -> u8
    requires { LetsText N.lets (N.state note.old) (line_of (columns_kept why.now) (ending_of why.now)) }
    ensures status { result ≡ status_of (ending_of why.now) }
    ensures observed { WritesEnding (columns_kept why.now) (N.state note.old) (N.state note.new) (ending_of why.now) }
{
    write_reason(why, note);
    status(why)
}

fn write_reason<N: Sink>(why: &Ended, note: &mut N)
    requires { LetsText N.lets (N.state note.old) (line_of (columns_kept why.now) (ending_of why.now)) }
    ensures { WritesEnding (columns_kept why.now) (N.state note.old) (N.state note.new) (ending_of why.now) }
{
    match why {
        Ended::Done => {}
        Ended::BadWords(fault) => write_fault(note, "words: ", word_line(fault)),
        Ended::TooManyBytes => write_text(note, "graph: more than 67108864 bytes"),
        Ended::BadGraph(fault, columns) => write_fault(note, "graph: ", graph_line(fault, columns)),
        Ended::BadRegions(fault, column) => {
            write_fault(note, "graph: ", region_line(fault, column))
        }
        Ended::BadPlan(fault) => write_fault(note, "plan: ", plan_line(fault)),
        Ended::BadTable(fault) => write_fault(note, "table: ", table_line(fault)),
        Ended::BadPlanNamed(name, fault) => write_named(note, name, fault),
        Ended::NoMemory => write_text(note, "memory"),
        Ended::ReadFault => write_text(note, "read fault"),
        Ended::WriteFault => write_text(note, "write fault"),
        Ended::LoadFault => write_text(note, "checkpoint load fault"),
        Ended::FolderTaken => write_text(note, "checkpoint: another run holds the folder"),
        Ended::Stopped { done, total } => write_stopped(note, *done, *total),
        Ended::Damaged(slots) => write_damaged(note, slots),
        Ended::OtherJob { found, wanted } => write_other_job(note, found, wanted),
        Ended::SaveFault => write_text(note, "checkpoint save fault"),
    }
}

fn write_stopped<N: Sink>(note: &mut N, done: u32, total: u32)
    requires { LetsText N.lets (N.state note.old) (terms.as_line (codes "stopped: " ∷ decimal done ∷ codes " of " ∷ decimal total ∷ codes " done" ∷ [])) }
    ensures { AddsLine (N.state note.old) (N.state note.new) (terms.as_line (codes "stopped: " ∷ decimal done ∷ codes " of " ∷ decimal total ∷ codes " done" ∷ [])) }
{
    write_fault(
        note,
        "stopped: ",
        counts_line(u64::from(done), " of ", u64::from(total), " done"),
    );
}

// Writes the subject of a fault and the line about it.
fn write_fault<N: Sink>(note: &mut N, subject: &str, line: Line)
    requires { LetsText N.lets (N.state note.old) (terms.as_line (subject.now ∷ map piece_text line)) }
    ensures { AddsLine (N.state note.old) (N.state note.new) (terms.as_line (subject.now ∷ map piece_text line.entry)) }
{
    write_note(note, &[Text(subject)], &line);
}

pub(crate) fn status(why: &Ended) -> u8
    ensures { result ≡ status_of (ending_of why.now) }
{
    match why {
        Ended::Done => 0,
        Ended::BadWords(_) => 1,
        Ended::TooManyBytes => 2,
        Ended::BadGraph(_, _) => 2,
        Ended::BadRegions(_, _) => 2,
        Ended::BadPlan(_) => 2,
        Ended::BadTable(_) => 2,
        Ended::BadPlanNamed(_, _) => 2,
        Ended::NoMemory => 3,
        Ended::ReadFault => 4,
        Ended::WriteFault => 5,
        Ended::LoadFault => 6,
        Ended::FolderTaken => 6,
        Ended::Stopped { .. } => 7,
        Ended::Damaged(_) => 8,
        Ended::OtherJob { .. } => 8,
        Ended::SaveFault => 9,
    }
}
