//! Outcomes of a job by the kind of trajectory.

ghost use Rattle.std.specs.Prelude.{◌≡◌, nat_lt, nat_le, filter};
ghost use Rattle.std.specs.List.{All};
ghost use Rattle.report.specs.Outcomes.{AreEndsOf, AreOutcomesOf, HasCounts};

use audit_model::outcome::Outcome;
use plan_core::job::Job;

/// Returns the outcomes of the outlier walks.
pub fn walks_of<'a>(job: &Job, sorted: &'a [Outcome]) -> &'a [Outcome]
    requires { AreOutcomesOf job.now sorted.now }
    ensures all { result.now ≡ filter (λ o. nat_lt o.id job.now.setting.walks) sorted.now }
    ensures counts { All (HasCounts job.now) result.now }
{
    sorted.split_at(job.setting().walks as usize).0
}

/// Returns the outcomes of the endpoint trajectories.
pub fn ends_of<'a>(job: &Job, sorted: &'a [Outcome]) -> &'a [Outcome]
    requires outcomes { AreOutcomesOf job.now sorted.now }
    requires all { job.now.setting.stop ≡ 0 }
    ensures all { result.now ≡ filter (λ o. nat_le job.now.setting.walks o.id) sorted.now }
    ensures sound { AreEndsOf job.now result.now }
{
    sorted.split_at(job.setting().walks as usize).1
}
