//! Numbers of a job that the lines of its report contain.

ghost use Rattle.std.specs.Prelude.{◌≡◌, ◌+◌, ◌≤◌};
ghost use Rattle.audit_model.specs.Job.{total_votes};
ghost use Rattle.audit_model.specs.JobOf.{IsJob};
ghost use Rattle.audit_model.specs.Score as definition;

use audit_model::setting::Score;
use plan_core::job::Job;
use scores::denominator;

/// Returns the denominator of a score of the job's plans.
#[tactic(auto, using(crate::proofs::Limits::votes))]
pub fn denominator_of(job: &Job, score: Score) -> u64
    ensures value { result ≡ definition.denominator score job.now.districts (total_votes job.now) }
    ensures sound { IsJob job.now }
{
    denominator(score, job.districts(), job.votes())
}

/// Returns the number of plans that an outlier walk visits.
pub fn visits(job: &Job) -> u64
    ensures value { result ≡ job.now.setting.steps + 1 }
    ensures few { result ≤ 1000000001 }
{
    u64::from(job.setting().steps) + 1
}

/// Returns the number of ranked values: the start plan's and those of the endpoints.
pub fn ranked_count(job: &Job) -> u64
    ensures value { result ≡ job.now.setting.ends + 1 }
    ensures few { result ≤ 100001 }
{
    u64::from(job.setting().ends) + 1
}
