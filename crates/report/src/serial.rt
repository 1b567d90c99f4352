//! The lines of the serial test.

ghost use Rattle.std.specs.Prelude.{◌<◌, flat_map, length};
ghost use Rattle.report.specs.Lines.{AppendsText};
ghost use Rattle.report.specs.Outcomes.{IsSerialOf, AreRanks, IsRank};
ghost use Rattle.report.specs.Parts.{ask_at, place_line};
ghost use Rattle.audit_statement.specs.Report as definition;
ghost use Rattle.audit_model.specs.Stopping.{placed_asks};

use crate::asks::{ask_count, ask_words};
use crate::lines::{Word, push_line};
use crate::values::visits;
use audit_model::buffers::Bytes;
use audit_model::memory::Memory;
use outlier_tests::p_value;
use plan_core::job::Job;

/// Appends a line for each ask, if the serial test was requested. `serial` has the start plan's position in the run and
/// its rank for each ask.
pub fn push_serial_lines(
    job: &Job,
    serial: Option<(u32, [u64; 4])>,
    out: &mut Bytes,
) -> Result<(), Memory>
    requires { IsSerialOf job.now serial }
    ensures { AppendsText out.old out.new (definition.serial_lines job.now serial) result }
{
    match serial {
        None => Ok(()),
        Some(found) => {
            let ranks = found.1;
            push_ranks(job, found.0, &ranks, out)
        }
    }
}

fn push_ranks(job: &Job, place: u32, ranks: &[u64; 4], out: &mut Bytes) -> Result<(), Memory>
    requires { AreRanks job.now ranks.now }
    ensures { AppendsText out.old out.new (flat_map (definition.serial_line job.now place ranks.now) (placed_asks job.now)) result }
{
    for k in 0..ask_count(job) {
        push_serial_line(job, k, place, ranks[k], out)?;
    }
    Ok(())
}

/// Appends the line of the ask with the index `k`. `rank` is the rank of the start plan's value.
fn push_serial_line(
    job: &Job,
    k: usize,
    place: u32,
    rank: u64,
    out: &mut Bytes,
) -> Result<(), Memory>
    requires asked { k < length job.now.setting.asks }
    requires rank { IsRank job.now.setting.steps rank }
    ensures { AppendsText out.old out.new (place_line job.now place (ask_at job.now k) rank) result }
{
    let visits = visits(job);
    let words = ask_words(job, k);
    push_line(
        out,
        &[
            Word::Text("serial"),
            words.score,
            words.tail,
            Word::Text("start"),
            words.start,
            Word::Text("place"),
            Word::Number(u64::from(place)),
            Word::Text("rank"),
            Word::Number(rank),
            Word::Text("of"),
            Word::Number(visits),
            Word::Text("p"),
            Word::Billionths(p_value(rank, visits)),
        ],
    )
}
