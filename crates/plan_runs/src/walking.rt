//! The walk of a run that saves nothing: of all pending trajectories, or in rounds until each test has stopped.

ghost use Rattle.std.specs.Prelude.{◌≡◌, false, length};
ghost use Rattle.audit_statement.specs.Endings.{AreInitialOutcomes, saves};
ghost use Rattle.audit_laws.specs.Calls.{Finishes};
ghost use Rattle.audit_model.specs.State.{KeeperState};
ghost use Rattle.audit_statement.specs.DueText.{LetsReport};
ghost use Rattle.plan_runs.specs.Ending.{ended_as};
ghost use Rattle.plan_runs.specs.Found.{HasFound};
ghost use Rattle.plan_runs.specs.Resources.{AreWorkersFor, AreWorkersForAll, AreWorkersForStops, IsResourcesFor};
ghost use Rattle.plan_runs.specs.RunBuffers.{AreBuffersFor};

use crate::buffers::RunBuffers;
use crate::ending::{Finished, end_run};
use crate::found::Found;
use crate::resources::{Resources, Workers};
use audit_io::gate::Gate;
use audit_io::sink::Sink;
use claim_counter::pool::WorkerPool;
use claim_counter::walking::walk_run;
use claim_counter::workers::{Lender, Runtime};
use flip_guard::judge::Judge;
use plan_core::job::Job;
use sequential_test::pool::StoppingPool;
use sequential_test::walking::walk_to_stops;
use std::thread::Threads;

// Walks all pending trajectories.
fn walk_all<R: Threads + Sync, J: Judge + Send, G: Gate + Sync>(
    rt: &Runtime<'_, R, G>,
    job: &Job,
    buffers: RunBuffers,
    pool: WorkerPool<J>,
) -> Found
    requires buffers { AreBuffersFor job.now buffers }
    requires workers { AreWorkersForAll job.now (length buffers.todo) pool }
    ensures { HasFound job.now buffers.book.outcomes result }
{
    let RunBuffers {
        mut book,
        todo,
        mut sorted,
        text,
    } = buffers;
    walk_run(rt, job, todo.as_slice(), pool, &mut book, &mut sorted);
    Found::all(sorted, text)
}

// Walks all outlier trajectories, then endpoint trajectories in rounds, until every test has stopped.
fn walk_early<R: Threads + Sync, J: Judge + Send, G: Gate + Sync>(
    rt: &Runtime<'_, R, G>,
    job: &Job,
    buffers: RunBuffers,
    pool: StoppingPool<J>,
) -> Found
    requires buffers { AreBuffersFor job.now buffers }
    requires workers { AreWorkersForStops job.now pool }
    ensures { HasFound job.now buffers.book.outcomes result }
{
    let RunBuffers {
        mut book,
        todo,
        mut sorted,
        text,
    } = buffers;
    let stops = walk_to_stops(rt, job, todo.as_slice(), pool, &mut book, &mut sorted);
    let setting = job.setting();
    Found {
        sorted,
        listed: setting.walks as usize,
        stops,
        observed: setting.asks.len(),
        text,
    }
}

/// Walks the pending trajectories with these workers. Allocates nothing.
pub fn walk<R: Threads + Sync, J: Judge + Send, G: Gate + Sync>(
    rt: &Runtime<'_, R, G>,
    job: &Job,
    buffers: RunBuffers,
    workers: Workers<J>,
) -> Found
    requires buffers { AreBuffersFor job.now buffers }
    requires workers { AreWorkersFor job.now (length buffers.todo) workers }
    ensures { HasFound job.now buffers.book.outcomes result }
{
    match workers {
        Workers::All(pool) => walk_all(rt, job, buffers, pool),
        Workers::Early(pool) => walk_early(rt, job, buffers, pool),
    }
}

/// Runs the workers without saves, then writes the report if no trajectory is pending. Allocates nothing.
pub fn run_unsaved<R: Threads + Sync, K: Sink, J: Judge + Send, G: Gate + Sync>(
    rt: &mut Lender<'_, R, G>,
    job: &Job,
    resources: Resources<J>,
    out: &mut K,
) -> Finished
    requires unsaved { saves job.now.setting ≡ false }
    requires resources { IsResourcesFor job.now resources }
    requires text { LetsReport K.lets job.now (K.state out.old) resources.buffers.book.outcomes }
    ensures { (k : KeeperState) → AreInitialOutcomes job.now k.slots resources.buffers.book.outcomes → Finishes job.now (K.state out.old) (K.state out.new) k k (ended_as result) }
{
    let Resources {
        buffers,
        workers,
        tester,
    } = resources;
    let lent = rt.lend();
    let found = walk(&lent, job, buffers, workers);
    end_run(job, found, tester, Ok(()), out)
}
