//! The resources of a run that saves nothing, allocated before it walks.

ghost use Rattle.std.specs.Prelude.{◌≡◌, IfOk, length, vec_len};
ghost use Rattle.walker.specs.Judges.{AreJudges};
ghost use Rattle.plan_runs.specs.Resources.{AreWorkersFor, IsJudgeSet, IsResourcesFor};
ghost use Rattle.plan_runs.specs.RunBuffers.{AreBuffersFor, IsStartOf};
ghost use Rattle.plan_runs.specs.Serially.{IsTester};

use crate::buffers::{RunBuffers, make_buffers};
use crate::serially::make_tester;
use audit_model::memory::Memory;
use audit_model::outcome::Outcome;
use claim_counter::pool::{WorkerPool, make_pool};
use flip_guard::judge::Judge;
use plan_core::job::Job;
use sequential_test::pool::StoppingPool;
use std::alloc::Global;
use walker::walker::Walker;

/// The workers of a run that saves nothing: a pool that walks all pending trajectories, or a pool that walks until the
/// tests have stopped.
#[derive(Drop)]
pub enum Workers<J: Judge> {
    All(WorkerPool<J>),
    Early(StoppingPool<J>),
}

/// The resources of a run that saves nothing: the buffers, the workers, and the walker of the serial test if the test
/// was requested.
#[derive(Drop)]
pub struct Resources<J: Judge> {
    pub buffers: RunBuffers,
    pub workers: Workers<J>,
    pub tester: Option<Walker<J>>,
}

// Makes one worker with each element of `judges`, for a run with these buffers.
fn make_workers<J: Judge>(
    alloc: Global,
    job: &Job,
    buffers: &RunBuffers,
    judges: Vec<J>,
) -> Result<Workers<J>, Memory>
    requires buffers { AreBuffersFor job.now buffers.now }
    requires judges { AreJudges job.now J.judging judges.items }
    requires workers { vec_len judges ≡ job.now.setting.workers }
    ensures { IfOk result (AreWorkersFor job.now (length buffers.now.todo)) }
{
    if job.setting().stop > 0 {
        let pool = sequential_test::pool::make_pool(alloc, job, judges)?;
        return Ok(Workers::Early(pool));
    }
    let pool = make_pool(alloc, job, buffers.todo.len() as u32, judges)?;
    Ok(Workers::All(pool))
}

// Allocates the buffers of a run that starts with these outcomes, and its workers.
fn make_buffers_and_workers<J: Judge>(
    alloc: Global,
    job: &Job,
    outcomes: &[Outcome],
    judges: Vec<J>,
) -> Result<(RunBuffers, Workers<J>), Memory>
    requires start { IsStartOf job.now outcomes.now }
    requires judges { AreJudges job.now J.judging judges.items }
    requires workers { vec_len judges ≡ job.now.setting.workers }
    ensures buffers { IfOk result (λ r. AreBuffersFor job.now r.0) }
    ensures workers { IfOk result (λ r. AreWorkersFor job.now (length r.0.todo) r.1) }
    ensures outcomes { IfOk result (λ r. r.0.book.outcomes ≡ outcomes.now) }
{
    let buffers = make_buffers(alloc, job, outcomes)?;
    match make_workers(alloc, job, &buffers, judges) {
        Ok(workers) => Ok((buffers, workers)),
        Err(fault) => {
            drop(buffers);
            Err(fault)
        }
    }
}

// Makes the resources of a run. `tester` is the walker of its serial test, if the test was requested.
fn make_with<J: Judge>(
    alloc: Global,
    job: &Job,
    outcomes: &[Outcome],
    judges: Vec<J>,
    tester: Option<Walker<J>>,
) -> Result<Resources<J>, Memory>
    requires start { IsStartOf job.now outcomes.now }
    requires judges { AreJudges job.now J.judging judges.items }
    requires workers { vec_len judges ≡ job.now.setting.workers }
    requires tester { IsTester job.now tester }
    ensures resources { IfOk result (IsResourcesFor job.now) }
    ensures outcomes { IfOk result (λ m. m.buffers.book.outcomes ≡ outcomes.now) }
{
    match make_buffers_and_workers(alloc, job, outcomes, judges) {
        Ok((buffers, workers)) => Ok(Resources {
            buffers,
            workers,
            tester,
        }),
        Err(fault) => Err(fault),
    }
}

/// Makes the resources of a run that starts with these outcomes and saves nothing. `judges` has a constraint for each
/// worker and one for the serial test. The only error is out of memory.
pub fn make_resources<J: Judge>(
    alloc: Global,
    job: &Job,
    outcomes: &[Outcome],
    mut judges: Vec<J>,
) -> Result<Resources<J>, Memory>
    requires start { IsStartOf job.now outcomes.now }
    requires judges { IsJudgeSet J.judging job.now judges }
    ensures resources { IfOk result (IsResourcesFor job.now) }
    ensures outcomes { IfOk result (λ m. m.buffers.book.outcomes ≡ outcomes.now) }
{
    let Some(judge) = judges.pop() else {
        unreachable!()
    };
    match make_tester(alloc, job, judge) {
        Ok(tester) => make_with(alloc, job, outcomes, judges, tester),
        Err(fault) => Err(fault),
    }
}
