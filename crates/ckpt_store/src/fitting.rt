//! The test whether outcomes are plausible for a job. An outcome is plausible if nothing in its
//! numbers shows that it is not the job's.

ghost use Rattle.std.specs.Prelude.{◌≡◌, ◌+◌, ◌≤◌, ◌&&◌, ◌||◌, not, nat_lt, nat_le, pos, int_le, drop, length, sum};
ghost use Rattle.std.specs.List.{list_all};
ghost use Rattle.std.specs.Ordering.{int_eq};
ghost use Rattle.audit_model.specs.Below.{all_below};
ghost use Rattle.audit_model.specs.First.{first_below};
ghost use Rattle.audit_model.specs.Run.{histogram_fits, fits, has_no_histogram, steps_of, total};
ghost use Rattle.audit_model.specs.Trajectory.{value_at};
ghost use Rattle.ckpt_store.specs.Fitting.{is_unfit};
ghost use Rattle.audit_model.specs.Limits.{most_trajectories};

use audit_model::outcome::Outcome;
use plan_core::job::Job;

/// Returns the index of the first outcome that is not plausible for the job.
pub(crate) fn first_unfit(job: &Job, outcomes: &[Outcome]) -> Option<u32>
    requires { length outcomes.now ≤ most_trajectories }
    ensures { result ≡ first_below (length outcomes.now) (is_unfit job.now outcomes.now) }
{
    for (place, outcome) in outcomes.iter().enumerate() {
        if !fits(job, outcome) {
            return Some(place as u32);
        }
    }
    None
}

/// Returns true if the outcome is plausible for the job.
fn fits(job: &Job, outcome: &Outcome) -> bool
    ensures { result ≡ fits job.now outcome.now }
{
    is_within(job, outcome)
        && ends_in_zeros(job, outcome)
        && counts_visits(job, outcome)
        && has_fitting_histogram(job, outcome)
}

/// Returns true if the job has a trajectory with this id, and the trajectory has at least as many
/// steps as the outcome has moves.
fn is_within(job: &Job, outcome: &Outcome) -> bool
    ensures { result ≡ (nat_lt outcome.now.id (total job.now)
        && nat_le outcome.now.moved (steps_of (nat_lt outcome.now.id job.now.setting.walks) job.now)) }
{
    let steps = steps_of(job, outcome.id < job.setting().walks);
    outcome.id < job.total() && outcome.moved <= u64::from(steps)
}

/// Returns the number of steps of a walk or of an endpoint trajectory.
fn steps_of(job: &Job, is_walk: bool) -> u32
    ensures { result ≡ steps_of is_walk job.now }
{
    if is_walk {
        job.setting().steps
    } else {
        job.setting().hub_steps
    }
}

/// Returns true if the values that belong to no ask are 0. An outcome has four values: one for each
/// ask of the job, then zeros.
fn ends_in_zeros(job: &Job, outcome: &Outcome) -> bool
    ensures { result ≡ list_all (λ v. int_eq v (pos 0)) (drop (length job.now.setting.asks) outcome.now.values) }
{
    let asks = asks_of(job);
    are_zeros(&outcome.values[asks..])
}

/// Returns the number of the job's asks, at most four.
fn asks_of(job: &Job) -> usize
    ensures asks { result ≡ length job.now.setting.asks }
    ensures few { result ≤ 4 }
{
    job.setting().asks.len()
}

fn are_zeros(values: &[i64]) -> bool
    ensures { result ≡ list_all (λ v. int_eq v (pos 0)) values.now }
{
    values.iter().all(|value| *value == 0)
}

/// For a walk, returns true if each ask's value is from 1 to the number of plans that the walk
/// visits. The value counts visits in the ask's tail, and the visit at the start plan always
/// counts. For an endpoint trajectory, returns true: the values are scores.
fn counts_visits(job: &Job, outcome: &Outcome) -> bool
    ensures { result ≡ (not (nat_lt outcome.now.id job.now.setting.walks) || all_below (length job.now.setting.asks)
        (λ k. int_le (pos 1) (value_at outcome.now k) && int_le (value_at outcome.now k) (pos (job.now.setting.steps + 1)))) }
{
    let asks = asks_of(job);
    let setting = job.setting();
    outcome.id >= setting.walks || are_visits(&outcome.values[..asks], setting.steps)
}

/// Returns true if each value is from 1 to `steps + 1`, the number of plans that a walk of `steps`
/// steps visits.
fn are_visits(values: &[i64], steps: u32) -> bool
    ensures { result ≡ list_all (λ v. int_le (pos 1) v && int_le v (pos (steps + 1))) values.now }
{
    values.iter().all(|value| is_visit(*value, steps))
}

fn is_visit(value: i64, steps: u32) -> bool
    ensures { result ≡ (int_le (pos 1) value && int_le value (pos (steps + 1))) }
{
    1 <= value && value <= i64::from(steps) + 1
}

/// Returns true if the outcome has no histogram. Also returns true if the outcome is a walk's and
/// its histogram adds up to the number of plans that the walk visits. An endpoint trajectory has no
/// histogram.
fn has_fitting_histogram(job: &Job, outcome: &Outcome) -> bool
    ensures { result ≡ histogram_fits (nat_lt outcome.now.id job.now.setting.walks) job.now outcome.now }
{
    let setting = job.setting();
    has_no_histogram(outcome)
        || outcome.id < setting.walks && sum_of(&outcome.bins) == u64::from(setting.steps) + 1
}

fn has_no_histogram(outcome: &Outcome) -> bool
    ensures { result ≡ has_no_histogram outcome.now }
{
    outcome.bins.iter().all(|bin| *bin == 0)
}

fn sum_of(bins: &[u32; 9]) -> u64
    ensures { result ≡ sum bins.now }
{
    let mut all = 0;
    for bin in bins {
        all += u64::from(*bin);
    }
    all
}
