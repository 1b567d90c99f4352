//! The lines of the parallel test.

ghost use Rattle.std.specs.Prelude.{◌≡◌, ◌+◌, ◌<◌, ◌≤◌, length, flat_map};
ghost use Rattle.report.specs.Lines.{AppendsText};
ghost use Rattle.report.specs.Outcomes.{AreEndsOf, AreOutcomesOf};
ghost use Rattle.report.specs.Parts.{ask_at, rank_line};
ghost use Rattle.audit_model.specs.Stopping.{placed_asks};
ghost use Rattle.audit_statement.specs.Report.{ends_line, ends_lines};

use crate::asks::{ask_count, ask_words, asks_of, start_value};
use crate::lines::{Word, push_line};
use crate::outcomes::ends_of;
use crate::values::ranked_count;
use audit_model::buffers::Bytes;
use audit_model::memory::Memory;
use audit_model::outcome::Outcome;
use outlier_tests::{p_value, rank};
use plan_core::job::Job;

/// Appends a line for each ask, if there are endpoint trajectories.
pub fn push_ends_lines(job: &Job, sorted: &[Outcome], out: &mut Bytes) -> Result<(), Memory>
    requires outcomes { AreOutcomesOf job.now sorted.now }
    requires all { job.now.setting.stop ≡ 0 }
    ensures { AppendsText out.old out.new (ends_lines job.now.setting.ends job.now sorted.now) result }
{
    if job.setting().ends == 0 {
        return Ok(());
    }
    push_ends(job, ends_of(job, sorted), out)
}

fn push_ends(job: &Job, ends: &[Outcome], out: &mut Bytes) -> Result<(), Memory>
    requires { AreEndsOf job.now ends.now }
    ensures { AppendsText out.old out.new (flat_map (ends_line job.now ends.now) (placed_asks job.now)) result }
{
    for place in 0..ask_count(job) {
        push_ends_line(job, ends, place, out)?;
    }
    Ok(())
}

/// Appends the line of the ask with the index `place`.
fn push_ends_line(job: &Job, ends: &[Outcome], place: usize, out: &mut Bytes) -> Result<(), Memory>
    requires asked { place < length job.now.setting.asks }
    requires few { place < 4 }
    requires ends { AreEndsOf job.now ends.now }
    ensures { AppendsText out.old out.new (ends_line job.now ends.now (place, ask_at job.now place)) result }
{
    let tail = asks_of(job)[place].tail;
    let start = start_value(job, place as u32);
    let start_rank = rank(tail, start, place as u32, ends);
    push_rank_line(job, place, start_rank, out)
}

/// Appends the line of the ask with the index `place`. `start_rank` is the rank of the start plan's value.
fn push_rank_line(job: &Job, place: usize, start_rank: u64, out: &mut Bytes) -> Result<(), Memory>
    requires asked { place < length job.now.setting.asks }
    requires rank { (1 ≤ start_rank) × (start_rank ≤ job.now.setting.ends + 1) }
    ensures { AppendsText out.old out.new (rank_line job.now (ask_at job.now place) start_rank) result }
{
    let values = ranked_count(job);
    let words = ask_words(job, place);
    push_line(
        out,
        &[
            Word::Text("ends"),
            words.score,
            words.tail,
            Word::Text("start"),
            words.start,
            Word::Text("rank"),
            Word::Number(start_rank),
            Word::Text("of"),
            Word::Number(values),
            Word::Text("p"),
            Word::Billionths(p_value(start_rank, values)),
        ],
    )
}
