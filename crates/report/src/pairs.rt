//! The lines of the pairs of walks.

ghost use Rattle.std.specs.Prelude.{◌≡◌, ◌+◌, ◌*◌, ◌-◌, ◌<◌, ◌≤◌, length, flat_map};
ghost use Rattle.std.specs.List.{All};
ghost use Rattle.audit_model.specs.Trajectory.{value_at};
ghost use Rattle.report.specs.Lines.{AppendsText};
ghost use Rattle.report.specs.Outcomes.{AreOutcomesOf, HasCounts, IsCount};
ghost use Rattle.report.specs.Parts.{ask_at, lines_of_pair};
ghost use Rattle.audit_statement.specs.Report.{by_twos, pair_count, pair_line, pair_lines};

use crate::asks::{ask_count, ask_words};
use crate::lines::{Word, push_line};
use crate::outcomes::walks_of;
use crate::values::visits;
use audit_model::buffers::Bytes;
use audit_model::memory::Memory;
use audit_model::outcome::Outcome;
use outlier_tests::pair_bound;
use plan_core::job::Job;

/// Appends a line for each pair of walks and each ask, if pairs are asked for.
pub fn push_pair_lines(job: &Job, sorted: &[Outcome], out: &mut Bytes) -> Result<(), Memory>
    requires { AreOutcomesOf job.now sorted.now }
    ensures { AppendsText out.old out.new (pair_lines job.now.setting.pairs job.now sorted.now) result }
{
    if !job.setting().pairs {
        return Ok(());
    }
    push_pairs(job, walks_of(job, sorted), out)
}

/// Appends a line for each two of these outcomes and each ask. An odd last outcome is in no pair.
fn push_pairs(job: &Job, walks: &[Outcome], out: &mut Bytes) -> Result<(), Memory>
    requires { All (HasCounts job.now) walks.now }
    ensures { AppendsText out.old out.new (flat_map (lines_of_pair job.now) (by_twos walks.now)) result }
{
    for pair in 0..walks.len() / 2 {
        push_pair(job, &walks[2 * pair], &walks[2 * pair + 1], out)?;
    }
    Ok(())
}

fn push_pair(job: &Job, first: &Outcome, second: &Outcome, out: &mut Bytes) -> Result<(), Memory>
    requires first { HasCounts job.now first.now }
    requires second { HasCounts job.now second.now }
    ensures { AppendsText out.old out.new (lines_of_pair job.now (first.now, second.now)) result }
{
    for place in 0..ask_count(job) {
        push_pair_line(job, first, second, place, out)?;
    }
    Ok(())
}

/// Appends the line of the ask with the index `place`.
fn push_pair_line(
    job: &Job,
    first: &Outcome,
    second: &Outcome,
    place: usize,
    out: &mut Bytes,
) -> Result<(), Memory>
    requires asked { place < length job.now.setting.asks }
    requires few { place < 4 }
    requires first { IsCount job.now.setting.steps (value_at first.now place) }
    requires second { IsCount job.now.setting.steps (value_at second.now place) }
    ensures { AppendsText out.old out.new (pair_line job.now (first.now, second.now) (place, ask_at job.now place)) result }
{
    let visits = visits(job);
    let count = count_of_pair(job, first, second, place);
    let words = ask_words(job, place);
    push_line(
        out,
        &[
            Word::Text("pair"),
            Word::Number(u64::from(first.id)),
            Word::Number(u64::from(second.id)),
            words.score,
            words.tail,
            Word::Text("start"),
            words.start,
            Word::Text("count"),
            Word::Number(count),
            Word::Text("of"),
            Word::Number(2 * visits - 1),
            Word::Text("bound"),
            Word::Billionths(pair_bound(count, visits)),
        ],
    )
}

/// Returns the number of plans in the tail of the ask with the index `place`. The start plan, which both walks visit,
/// counts once.
fn count_of_pair(job: &Job, first: &Outcome, second: &Outcome, place: usize) -> u64
    requires few { place < 4 }
    requires first { IsCount job.now.setting.steps (value_at first.now place) }
    requires second { IsCount job.now.setting.steps (value_at second.now place) }
    ensures value { result ≡ pair_count (first.now, second.now) place }
    ensures some { 1 ≤ result }
    ensures within { result < 2 * (job.now.setting.steps + 1) }
{
    let _limits = visits(job);
    first.values[place].unsigned_abs() + second.values[place].unsigned_abs() - 1
}
