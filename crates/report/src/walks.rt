//! The lines of the outlier walks.

ghost use Rattle.std.specs.Prelude.{◌≡◌, ◌<◌, length, Some, slice_get, flat_map};
ghost use Rattle.std.specs.List.{All};
ghost use Rattle.audit_model.specs.Trajectory.{value_at};
ghost use Rattle.report.specs.Lines.{AppendsText};
ghost use Rattle.report.specs.Outcomes.{AreOutcomesOf, HasCounts, IsCount};
ghost use Rattle.report.specs.Parts.{ask_at, lines_of};
ghost use Rattle.audit_statement.specs.Report.{moved_line, moved_lines, walk_line, walk_lines};

use crate::asks::{ask_count, ask_words};
use crate::lines::{Word, push_line};
use crate::outcomes::walks_of;
use crate::values::visits;
use audit_model::buffers::Bytes;
use audit_model::memory::Memory;
use audit_model::outcome::Outcome;
use outlier_tests::bound;
use plan_core::job::Job;

/// Appends a line for each outlier walk and each ask.
pub fn push_walk_lines(job: &Job, sorted: &[Outcome], out: &mut Bytes) -> Result<(), Memory>
    requires { AreOutcomesOf job.now sorted.now }
    ensures { AppendsText out.old out.new (walk_lines job.now sorted.now) result }
{
    push_walks(job, walks_of(job, sorted), out)
}

/// Appends a line with the number of moves of each outlier walk.
pub fn push_moved_lines(job: &Job, sorted: &[Outcome], out: &mut Bytes) -> Result<(), Memory>
    requires { AreOutcomesOf job.now sorted.now }
    ensures { AppendsText out.old out.new (moved_lines job.now sorted.now) result }
{
    push_moves(walks_of(job, sorted), out)
}

fn push_moves(walks: &[Outcome], out: &mut Bytes) -> Result<(), Memory>
    ensures { AppendsText out.old out.new (flat_map moved_line walks.now) result }
{
    for found in walks {
        push_moved_line(found, out)?;
    }
    Ok(())
}

fn push_moved_line(found: &Outcome, out: &mut Bytes) -> Result<(), Memory>
    ensures { AppendsText out.old out.new (moved_line found.now) result }
{
    push_line(
        out,
        &[
            Word::Text("walk"),
            Word::Number(u64::from(found.id)),
            Word::Text("moved"),
            Word::Number(found.moved),
        ],
    )
}

/// Appends a line for each of these outcomes and each ask.
fn push_walks(job: &Job, walks: &[Outcome], out: &mut Bytes) -> Result<(), Memory>
    requires { All (HasCounts job.now) walks.now }
    ensures { AppendsText out.old out.new (flat_map (lines_of job.now) walks.now) result }
{
    for found in walks {
        push_walk(job, found, out)?;
    }
    Ok(())
}

fn push_walk(job: &Job, found: &Outcome, out: &mut Bytes) -> Result<(), Memory>
    requires { HasCounts job.now found.now }
    ensures { AppendsText out.old out.new (lines_of job.now found.now) result }
{
    for place in 0..ask_count(job) {
        push_walk_line(job, found, place, out)?;
    }
    Ok(())
}

/// Appends the line of the ask with the index `place`.
fn push_walk_line(job: &Job, found: &Outcome, place: usize, out: &mut Bytes) -> Result<(), Memory>
    requires asked { place < length job.now.setting.asks }
    requires few { place < 4 }
    requires count { IsCount job.now.setting.steps (value_at found.now place) }
    ensures { AppendsText out.old out.new (walk_line job.now found.now (place, ask_at job.now place)) result }
{
    let count = found.values[place];
    let visits = visits(job);
    let words = ask_words(job, place);
    push_line(
        out,
        &[
            Word::Text("walk"),
            Word::Number(u64::from(found.id)),
            Word::Text("moved"),
            Word::Number(found.moved),
            words.score,
            words.tail,
            Word::Text("start"),
            words.start,
            Word::Text("count"),
            Word::Signed(count),
            Word::Text("of"),
            Word::Number(visits),
            Word::Text("bound"),
            Word::Billionths(bound(count.unsigned_abs(), visits)),
        ],
    )
}
