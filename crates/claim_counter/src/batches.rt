//! Walks in batches, one after the other. The workers are allocated once for all batches, and each batch has its own
//! counter.

ghost use Rattle.std.specs.Prelude.{◌≡◌, true, ◌+◌, ◌-◌, ◌<◌, ◌≤◌, ◌++◌, All, IfOk, IsPermutation, length, map, vec_capacity, vec_len};
ghost use Rattle.audit_model.specs.Run.{total};
ghost use Rattle.audit_model.specs.Trajectory.{hub as hub_of};
ghost use Rattle.claim_counter.specs.Records.{fresh, joined_passes, AreDifferentBelow};
ghost use Rattle.claim_counter.specs.Passes.{own, size_of, BelongsTo};
ghost use Rattle.audit_statement.specs.Draw.{draw};
ghost use Rattle.outcome_book.specs.Booked.{IsBook, IsShareFor};
ghost use Rattle.claim_counter.specs.Walkers.{AreWalkers, IsWalker};
ghost use Rattle.walker.specs.Judges.{AreJudges};
ghost use Rattle.claim_counter.specs.Batches.{AreBack, AreIdle, HasNoHub, HasPlace, IsBack, IsFreshBatch, IsIdleWorker, IsStarted, IsBatchWorkers, CanBeIdle};
ghost use Rattle.claim_counter.specs.Workers.{IsShared};
ghost use Rattle.claim_counter.specs.Walks.{found, found_at, MissesIds, ServesEnds};
ghost use Rattle.audit_model.specs.Limits.{most_trajectories, most_workers};

use crate::worker::Worker;
use crate::workers::{GatedWalker, Runtime, make_walkers, run_workers};
use crate::{Claims, Pass};
use audit_io::gate::Gate;
use audit_model::buffers::OutcomeList;
use audit_model::lists::UnitList;
use audit_model::memory::Memory;
use flip_guard::judge::Judge;
use outcome_book::book::Book;
use plan_core::job::Job;
use std::alloc::Global;
use std::thread::Threads;
use walker::walker::Walker;

/// The counter of one batch, and the counter's first pass. One worker gets this pass. The passes of the other workers
/// are split off it.
#[derive(Drop)]
pub struct BatchCounter {
    pub(crate) claims: Claims,
    pub(crate) pass: Pass,
}

impl BatchCounter {
    /// Makes the counter of a batch of `count` trajectories, for `workers` workers. Fails if there is no memory.
    pub fn new(alloc: Global, count: u32, workers: u32) -> Result<BatchCounter, Memory>
        requires count { count ≤ most_trajectories }
        requires workers { (1 ≤ workers) × (workers ≤ most_workers) }
        ensures { IfOk result (IsFreshBatch count workers) }
    {
        let (claims, pass) = Claims::new(alloc, count, workers)?;
        Ok(BatchCounter { claims, pass })
    }
}

/// A worker between two batches: a walker, and an empty share with capacity for the outcomes of all trajectories.
#[derive(Drop)]
pub struct IdleWorker<J: Judge> {
    pub(crate) walker: Walker<J>,
    pub(crate) share: OutcomeList,
}

/// The workers of a run and the hub, for any number of batches. Between two batches all workers are in `idle_workers`.
/// During a batch all workers are in `workers`.
#[derive(Drop)]
pub struct BatchWorkers<J: Judge> {
    pub(crate) idle_workers: Vec<IdleWorker<J>>,
    pub(crate) workers: Vec<Worker<J>>,
    pub(crate) hub: UnitList,
}

// Makes an idle worker with this walker. Fails if there is no memory.
fn make_idle_worker<J: Judge>(
    alloc: Global,
    job: &Job,
    walker: Walker<J>,
) -> Result<IdleWorker<J>, Memory>
    requires walker { IsWalker job.now walker }
    ensures { IfOk result (IsIdleWorker job.now) }
{
    let share = OutcomeList::with_room(alloc, job.total() as usize)?;
    Ok(IdleWorker { walker, share })
}

// Makes an idle worker with each walker. Fails if there is no memory.
fn make_idle_workers<J: Judge>(
    alloc: Global,
    job: &Job,
    mut walkers: Vec<Walker<J>>,
) -> Result<Vec<IdleWorker<J>>, Memory>
    requires walkers { AreWalkers job.now walkers.items }
    ensures idle_workers { IfOk result (λ h. All (IsIdleWorker job.now) h.items) }
    ensures count { IfOk result (λ h. vec_len h ≡ vec_len walkers) }
    ensures room { IfOk result (λ h. vec_len walkers ≤ vec_capacity h) }
{
    let mut idle_workers = Vec::with_capacity(alloc, walkers.len())?;
    while let Some(walker) = walkers.pop() {
        idle_workers.push_reserved(make_idle_worker(alloc, job, walker)?);
    }
    Ok(idle_workers)
}

/// Makes one idle worker with each element of `judges`. The hub is not computed yet. Fails if there is no memory. Later
/// walks allocate nothing.
pub fn make_batch_workers<J: Judge>(
    alloc: Global,
    job: &Job,
    judges: Vec<J>,
) -> Result<BatchWorkers<J>, Memory>
    requires workers { 1 ≤ vec_len judges }
    requires judges { AreJudges job.now J.judging judges.items }
    ensures batch_workers { IfOk result (IsBatchWorkers job.now (vec_len judges)) }
    ensures no_hub { IfOk result (HasNoHub job.now) }
{
    let workers = Vec::with_capacity(alloc, judges.len())?;
    let walkers = make_walkers(alloc, job, judges)?;
    let idle_workers = make_idle_workers(alloc, job, walkers)?;
    let hub = UnitList::zeros(alloc, job.units() as usize)?;
    Ok(BatchWorkers {
        idle_workers,
        workers,
        hub,
    })
}

// Makes an idle worker ready for the next batch by giving it a pass.
fn start_worker<J: Judge>(
    job: &Job,
    claims: &Claims,
    idle_worker: IdleWorker<J>,
    pass: Pass,
) -> Worker<J>
    requires limit { (size_of claims.now).limit ≤ total job.now }
    requires pass { BelongsTo claims.now pass × (own pass ≡ fresh 0) }
    requires idle_worker { IsIdleWorker job.now idle_worker }
    ensures { IsStarted job.now claims.now result }
{
    let IdleWorker { walker, share } = idle_worker;
    Worker {
        walker: GatedWalker::new(walker),
        pass,
        share,
    }
}

// Makes all idle workers ready for the next batch. The passes are split off `pass`, and the last worker takes `pass`
// itself.
fn start_workers<J: Judge>(
    job: &Job,
    claims: &Claims,
    mut pass: Pass,
    idle_workers: &mut Vec<IdleWorker<J>>,
    workers: &mut Vec<Worker<J>>,
)
    requires limit { (size_of claims.now).limit ≤ total job.now }
    requires pass { BelongsTo claims.now pass × (own pass ≡ fresh (vec_len idle_workers.old - 1)) }
    requires idle { AreIdle job.now idle_workers.old workers.old }
    ensures started { All (IsStarted job.now claims.now) workers.new.items }
    ensures count { vec_len workers.new ≡ vec_len idle_workers.old }
    ensures none { vec_len idle_workers.new ≡ 0 }
    ensures hands_room { vec_capacity idle_workers.new ≡ vec_capacity idle_workers.old }
    ensures room { vec_capacity workers.new ≡ vec_capacity workers.old }
{
    let Some(last) = idle_workers.pop() else {
        unreachable!()
    };
    while let Some(idle_worker) = idle_workers.pop() {
        let batch = claims.split(&mut pass);
        workers.push_reserved(start_worker(job, claims, idle_worker, batch));
    }
    workers.push_reserved(start_worker(job, claims, last, pass));
}

// Runs all workers until no trajectory of the batch is left. Each worker has its own thread, if one can be started.
fn run_all<R: Threads + Sync, J: Judge + Send, G: Gate + Sync>(
    rt: &Runtime<R, G>,
    job: &Job,
    todo: &[u32],
    hub: &[u32],
    claims: &Claims,
    workers: &mut [Worker<J>],
)
    requires started { All (IsStarted job.now claims.now) workers.old }
    requires shared { IsShared job.now todo.now hub.now claims.now }
    ensures { All (IsBack job.now todo.now claims.now) workers.new }
{
    let gate = rt.gate;
    run_workers(
        rt.threads,
        workers,
        &|_, worker: &mut Worker<J>|
            requires started { IsStarted job.now claims.now worker.now }
            requires shared { IsShared job.now todo.now hub.now claims.now }
            ensures { IsBack job.entry.now todo.entry.now claims.entry.now worker.new }
        { worker.run(job, todo, hub, gate, claims) },
    );
}

// Makes a worker idle again, from its walker and its share. The share is emptied.
fn rest<J: Judge>(
    job: &Job,
    walker: Walker<J>,
    mut share: OutcomeList,
    idle_workers: &mut Vec<IdleWorker<J>>,
)
    requires idle_worker { CanBeIdle job.now walker.job share }
    requires idle_workers { HasPlace job.now idle_workers.old }
    ensures idle_workers { All (IsIdleWorker job.now) idle_workers.new.items }
    ensures count { vec_len idle_workers.new ≡ vec_len idle_workers.old + 1 }
    ensures room { vec_capacity idle_workers.new ≡ vec_capacity idle_workers.old }
{
    share.clear();
    idle_workers.push_reserved(IdleWorker { walker, share });
}

// Adds a worker's outcomes to the book, makes the worker idle, and returns its pass. The caller takes this worker
// before all others.
fn take_first<J: Judge>(
    job: &Job,
    worker: Worker<J>,
    idle_workers: &mut Vec<IdleWorker<J>>,
    book: &mut Book,
) -> Pass
    requires share { IsShareFor book.old worker.share.items }
    requires idle_worker { CanBeIdle job.now worker.walker.job worker.share }
    requires idle_workers { HasPlace job.now idle_workers.old }
    ensures pass { result ≡ worker.pass }
    ensures total { book.new.total ≡ book.old.total }
    ensures outcomes { book.new.outcomes ≡ book.old.outcomes ++ worker.share.items }
    ensures sound { IsBook book.new }
    ensures idle_workers { All (IsIdleWorker job.now) idle_workers.new.items }
    ensures count { vec_len idle_workers.new ≡ vec_len idle_workers.old + 1 }
    ensures room { vec_capacity idle_workers.new ≡ vec_capacity idle_workers.old }
{
    let Worker {
        walker,
        pass,
        share,
    } = worker;
    book.merge(share.as_slice());
    rest(job, walker.into_walker(), share, idle_workers);
    pass
}

// Adds another worker's outcomes to the book and makes the worker idle. Returns `pass` joined with the worker's pass.
fn take_next<J: Judge>(
    job: &Job,
    claims: &Claims,
    pass: Pass,
    worker: Worker<J>,
    idle_workers: &mut Vec<IdleWorker<J>>,
    book: &mut Book,
) -> Pass
    requires pass { BelongsTo claims.now pass }
    requires worker { BelongsTo claims.now worker.pass }
    requires share { AreDifferentBelow (size_of claims.now).limit ((own pass).claims ++ (own worker.pass).claims)
        → IsShareFor book.old worker.share.items }
    requires idle_worker { CanBeIdle job.now worker.walker.job worker.share }
    requires idle_workers { HasPlace job.now idle_workers.old }
    ensures pass { BelongsTo claims.now result }
    ensures both { own result ≡ joined_passes (own pass) (own worker.pass) }
    ensures different { AreDifferentBelow (size_of claims.now).limit (own result).claims }
    ensures total { book.new.total ≡ book.old.total }
    ensures outcomes { book.new.outcomes ≡ book.old.outcomes ++ worker.share.items }
    ensures sound { IsBook book.new }
    ensures idle_workers { All (IsIdleWorker job.now) idle_workers.new.items }
    ensures count { vec_len idle_workers.new ≡ vec_len idle_workers.old + 1 }
    ensures room { vec_capacity idle_workers.new ≡ vec_capacity idle_workers.old }
{
    let Worker {
        walker,
        pass: other,
        share: outcomes,
    } = worker;
    let both = claims.join(pass, other);
    book.merge(outcomes.as_slice());
    rest(job, walker.into_walker(), outcomes, idle_workers);
    both
}

// Adds the outcomes of all workers to the book and makes the workers idle. Returns the join of their passes.
fn take_all<J: Judge>(
    job: &Job,
    todo: &[u32],
    claims: &Claims,
    workers: &mut Vec<Worker<J>>,
    idle_workers: &mut Vec<IdleWorker<J>>,
    book: &mut Book,
) -> Pass
    requires back { AreBack job.now todo.now claims.now workers.old idle_workers.old }
    requires limit { (size_of claims.now).limit ≡ length todo.now }
    requires todo { MissesIds job.now book.old todo.now }
    ensures pass { BelongsTo claims.now result }
    ensures ended { (own result).ended ≡ true }
    ensures seats { (own result).weight + (own result).spare ≡ vec_len workers.old }
    ensures total { book.new.total ≡ book.old.total }
    ensures outcomes { book.new.outcomes ≡ book.old.outcomes ++ map (found_at job.now todo.now) (own result).claims }
    ensures sound { IsBook book.new }
    ensures idle_workers { All (IsIdleWorker job.now) idle_workers.new.items }
    ensures count { vec_len idle_workers.new ≡ vec_len workers.old }
    ensures room { vec_capacity idle_workers.new ≡ vec_capacity idle_workers.old }
    ensures none { vec_len workers.new ≡ 0 }
    ensures workers_room { vec_capacity workers.new ≡ vec_capacity workers.old }
{
    // This call only tells the proof that the job is within its limits.
    let _units = job.units();
    let Some(first) = workers.pop() else {
        unreachable!()
    };
    let mut pass = take_first(job, first, idle_workers, book);
    while let Some(worker) = workers.pop() {
        pass = take_next(job, claims, pass, worker, idle_workers, book);
    }
    pass
}

/// Computes the hub, by a walk of the first worker. Allocates nothing.
pub fn find_hub<J: Judge>(job: &Job, batch_workers: &mut BatchWorkers<J>)
    requires batch_workers { IsBatchWorkers job.now (vec_len batch_workers.old.idle_workers) batch_workers.old }
    ensures batch_workers { IsBatchWorkers job.now (vec_len batch_workers.old.idle_workers) batch_workers.new }
    ensures hub { batch_workers.new.hub ≡ hub_of job.now (draw job.now.setting.key) }
{
    let idle_worker = &mut batch_workers.idle_workers[0];
    idle_worker
        .walker
        .hub_into(job, batch_workers.hub.as_mut_slice());
}

/// Walks the trajectories with these ids and adds their outcomes to the book. Each worker has its own thread, if one
/// can be started. The next id goes to whichever worker is free first, and the gate receives each id before its walk.
/// Allocates nothing. Afterwards the workers can walk another batch.
pub fn walk_batch<R: Threads + Sync, J: Judge + Send, G: Gate + Sync>(
    rt: &Runtime<R, G>,
    job: &Job,
    todo: &[u32],
    batch: BatchCounter,
    batch_workers: &mut BatchWorkers<J>,
    book: &mut Book,
)
    requires batch_workers { IsBatchWorkers job.now (vec_len batch_workers.old.idle_workers) batch_workers.old }
    requires batch { IsFreshBatch (length todo.now) (vec_len batch_workers.old.idle_workers) batch }
    requires todo { MissesIds job.now book.old todo.now }
    requires hub { ServesEnds job.now todo.now batch_workers.old.hub }
    ensures batch_workers { IsBatchWorkers job.now (vec_len batch_workers.old.idle_workers) batch_workers.new }
    ensures hub { batch_workers.new.hub ≡ batch_workers.old.hub }
    ensures total { book.new.total ≡ book.old.total }
    ensures outcomes { IsPermutation book.new.outcomes (book.old.outcomes ++ map (found job.now) todo.now) }
    ensures sound { IsBook book.new }
{
    let BatchCounter { claims, pass } = batch;
    let idle_workers = &mut batch_workers.idle_workers;
    let workers = &mut batch_workers.workers;
    start_workers(job, &claims, pass, idle_workers, workers);
    run_all(
        rt,
        job,
        todo,
        batch_workers.hub.as_slice(),
        &claims,
        workers.as_mut_slice(),
    );
    let all = take_all(job, todo, &claims, workers, idle_workers, book);
    claims.close(all);
}
