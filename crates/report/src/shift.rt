//! The histogram of seats over all visited plans.

ghost use Rattle.std.specs.Prelude.{◌≡◌, ◌<◌, ◌≤◌, true, length, slice_index, sum_by};
ghost use Rattle.report.specs.Lines.{AppendsText};
ghost use Rattle.report.specs.Outcomes.{AreOutcomesOf};
ghost use Rattle.audit_statement.specs.Report as definition;
ghost use Rattle.audit_model.specs.Limits.{most_trajectories};

use crate::lines::{Word, push_line};
use audit_model::buffers::Bytes;
use audit_model::memory::Memory;
use audit_model::outcome::Outcome;
use plan_core::job::Job;

/// Appends the line with each histogram count added over the outcomes, if a histogram was
/// requested.
pub fn push_shift_line(job: &Job, sorted: &[Outcome], out: &mut Bytes) -> Result<(), Memory>
    requires { AreOutcomesOf job.now sorted.now }
    ensures { AppendsText out.old out.new (definition.shift_line job.now.setting.shift sorted.now) result }
{
    if !job.setting().shift {
        return Ok(());
    }
    push_tally(sorted, out)
}

fn push_tally(sorted: &[Outcome], out: &mut Bytes) -> Result<(), Memory>
    requires { length sorted.now ≤ most_trajectories }
    ensures { AppendsText out.old out.new (definition.shift_line true sorted.now) result }
{
    push_line(
        out,
        &[
            Word::Text("shift"),
            Word::Number(bin_sum(sorted, 0)),
            Word::Number(bin_sum(sorted, 1)),
            Word::Number(bin_sum(sorted, 2)),
            Word::Number(bin_sum(sorted, 3)),
            Word::Number(bin_sum(sorted, 4)),
            Word::Number(bin_sum(sorted, 5)),
            Word::Number(bin_sum(sorted, 6)),
            Word::Number(bin_sum(sorted, 7)),
            Word::Number(bin_sum(sorted, 8)),
        ],
    )
}

fn bin_sum(sorted: &[Outcome], bin: usize) -> u64
    requires few { length sorted.now ≤ most_trajectories }
    requires bin { bin < 9 }
    ensures { result ≡ sum_by (λ o. slice_index o.bins bin) sorted.now }
{
    let mut sum = 0;
    for found in sorted {
        sum += u64::from(found.bins[bin]);
    }
    sum
}
