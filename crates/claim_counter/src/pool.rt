//! The workers of a run that walks all its trajectories in one batch.

ghost use Rattle.std.specs.Prelude.{◌≤◌, IfOk, vec_len};
ghost use Rattle.claim_counter.specs.Pools.{HasWalkedNothing, IsPool};
ghost use Rattle.walker.specs.Judges.{AreJudges};
ghost use Rattle.audit_model.specs.Limits.{most_trajectories, most_workers};

use crate::batches::{BatchCounter, BatchWorkers, make_batch_workers};
use audit_model::memory::Memory;
use flip_guard::judge::Judge;
use plan_core::job::Job;
use std::alloc::Global;

/// The workers, the hub, and the counter of a run that walks all its trajectories in one batch.
#[derive(Drop)]
pub struct WorkerPool<J: Judge> {
    pub(crate) batch: BatchCounter,
    pub(crate) batch_workers: BatchWorkers<J>,
}

/// Makes one worker with each element of `judges`, and a counter of `count` trajectories. The hub is not computed yet.
/// Fails if there is no memory. Later walks allocate nothing.
pub fn make_pool<J: Judge>(
    alloc: Global,
    job: &Job,
    count: u32,
    judges: Vec<J>,
) -> Result<WorkerPool<J>, Memory>
    requires count { count ≤ most_trajectories }
    requires workers { (1 ≤ vec_len judges) × (vec_len judges ≤ most_workers) }
    requires judges { AreJudges job.now J.judging judges.items }
    ensures pool { IfOk result (IsPool job.now count (vec_len judges)) }
    ensures no_hub { IfOk result (HasWalkedNothing job.now) }
{
    let batch = BatchCounter::new(alloc, count, judges.len() as u32)?;
    let batch_workers = make_batch_workers(alloc, job, judges)?;
    Ok(WorkerPool {
        batch,
        batch_workers,
    })
}
