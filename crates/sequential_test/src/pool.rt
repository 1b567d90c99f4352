//! The workers and counters of a run whose tests stop early.

ghost use Rattle.std.specs.Prelude.{◌≡◌, ◌+◌, ◌*◌, ◌≤◌, min, IfOk, vec_len};
ghost use Rattle.sequential_test.specs.Pools.{AreRounds, HasStartedNothing, IsStoppingPool};
ghost use Rattle.sequential_test.specs.Rounds.{ends_after};
ghost use Rattle.walker.specs.Judges.{AreJudges};
ghost use Rattle.audit_model.specs.Limits.{most_trajectories, most_workers};

use audit_model::memory::Memory;
use claim_counter::batches::{BatchCounter, BatchWorkers, make_batch_workers};
use flip_guard::judge::Judge;
use plan_core::job::Job;
use std::alloc::Global;

/// The number of endpoint trajectories in the first round.
const FIRST_ROUND: u32 = 64;

/// The workers, and a counter for the outlier walks and for each round of endpoint trajectories. Rounds are popped from
/// the end, so `rounds` has the first round last.
#[derive(Drop)]
pub struct StoppingPool<J: Judge> {
    pub(crate) batch_workers: BatchWorkers<J>,
    pub(crate) seats: u32,
    pub(crate) walks: BatchCounter,
    pub(crate) rounds: Vec<BatchCounter>,
}

/// Returns the number of endpoint trajectories walked after one more round. Each round has twice the number of the
/// round before, until there are `ends` in all.
pub fn after_round(ends: u32, walked: u32) -> u32
    requires { (ends ≤ most_trajectories) × (walked ≤ ends) }
    ensures { result ≡ min ends (2 * walked + 64) }
{
    ends.min(2 * walked + FIRST_ROUND)
}

// Makes the counter of each round, with the first round last.
fn make_rounds(alloc: Global, ends: u32, seats: u32) -> Result<Vec<BatchCounter>, Memory>
    requires ends { ends ≤ most_trajectories }
    requires seats { (1 ≤ seats) × (seats ≤ most_workers) }
    ensures rounds { IfOk result (λ r. AreRounds ends seats 0 r.items) }
    ensures all { IfOk result (λ r. ends_after ends (vec_len r) ≡ ends) }
{
    let mut rounds = Vec::new(alloc);
    let mut walked = 0;
    while walked < ends {
        let next = after_round(ends, walked);
        let batch = BatchCounter::new(alloc, next - walked, seats)?;
        rounds.insert(0, batch)?;
        walked = next;
    }
    Ok(rounds)
}

/// Makes one worker with each element of `judges`, and a counter for each round that may be needed. Fails only if out
/// of memory. Later walks allocate nothing. The hub is not computed yet.
pub fn make_pool<J: Judge>(
    alloc: Global,
    job: &Job,
    judges: Vec<J>,
) -> Result<StoppingPool<J>, Memory>
    requires workers { (1 ≤ vec_len judges) × (vec_len judges ≤ most_workers) }
    requires judges { AreJudges job.now J.judging judges.items }
    ensures pool { IfOk result (IsStoppingPool job.now (vec_len judges)) }
    ensures no_hub { IfOk result (HasStartedNothing job.now) }
{
    let seats = judges.len() as u32;
    let walks = BatchCounter::new(alloc, job.setting().walks, seats)?;
    let rounds = make_rounds(alloc, job.setting().ends, seats)?;
    let batch_workers = make_batch_workers(alloc, job, judges)?;
    Ok(StoppingPool {
        batch_workers,
        seats,
        walks,
        rounds,
    })
}
