//! The threads of a run that saves, and the join of their passes.

ghost use Rattle.std.specs.Prelude.{◌≡◌, ◌+◌, ◌<◌, ℕ, All, true, vec_len};
ghost use Rattle.tally_desk.specs.Passes.{Belongs, HasPostedAll, view_of};
ghost use Rattle.tally_desk.specs.Pools.{IsDeskWorkerDone, IsUnstartedAtDesk, WalksAtDesk};

use crate::desk::Desk;
use crate::pass::DeskPass;
use crate::worker::DeskWorker;
use audit_io::gate::Gate;
use audit_io::keeper::Keeper;
use claim_counter::workers::{Runtime, run_workers};
use flip_guard::judge::Judge;
use plan_core::job::Job;
use std::sync::Wait;
use std::thread::Threads;

/// Runs each worker in a thread of its own, if one can be started.
pub fn walk_each<R: Threads + Wait + Sync, C: Keeper + Send, J: Judge + Send, G: Gate + Sync>(
    rt: &Runtime<R, G>,
    job: &Job,
    hub: &[u32],
    desk: &Desk<C>,
    workers: &mut [DeskWorker<J>],
)
    requires unstarted { All (IsUnstartedAtDesk desk.now) workers.old }
    requires shared { WalksAtDesk job.now desk.now.parts hub.now }
    ensures { All (IsDeskWorkerDone desk.now) workers.new }
{
    let threads = rt.threads;
    let gate = rt.gate;
    run_workers(
        threads,
        workers,
        &|_, worker: &mut DeskWorker<J>|
            requires unstarted { IsUnstartedAtDesk desk.now worker.now }
            requires shared { WalksAtDesk job.now desk.now.parts hub.now }
            ensures { IsDeskWorkerDone desk.entry.now worker.new }
        { worker.run(threads, job, hub, gate, desk) },
    );
}

/// Joins the passes of all workers into one.
pub fn gather<C: Keeper, J: Judge>(desk: &Desk<C>, mut workers: Vec<DeskWorker<J>>) -> DeskPass
    requires workers { All (IsDeskWorkerDone desk.now) workers.items }
    requires some { 0 < vec_len workers }
    ensures pass { Belongs desk.now result }
    ensures ended { (view_of result).own.ended ≡ true }
    ensures seats { (view_of result).own.weight + (view_of result).own.spare ≡ vec_len workers }
    ensures whole { HasPostedAll desk.now.parts (view_of result) }
{
    let Some(first) = workers.pop() else {
        unreachable!()
    };
    let mut pass = into_pass(first);
    while let Some(worker) = workers.pop() {
        pass = desk.join(pass, into_pass(worker));
    }
    pass
}

fn into_pass<J: Judge>(worker: DeskWorker<J>) -> DeskPass
    ensures { result ≡ worker.pass }
{
    let DeskWorker {
        walker: _,
        pass,
        buffered: _,
    } = worker;
    pass
}
