//! A whole run that saves: the desk, the workers, and the last save.

ghost use Rattle.std.specs.Prelude.{◌≡◌, ◌≤◌, IfErr, IfOk, vec_len};
ghost use Rattle.audit_model.specs.Limits.{most_workers};
ghost use Rattle.ckpt_store.specs.Places.{IsPlace};
ghost use Rattle.claim_counter.specs.Walks.{IsWithin};
ghost use Rattle.tally_desk.specs.Pools.{IsDeskPool, MaySeat, WalksAtDesk};
ghost use Rattle.tally_desk.specs.Parts.{LetsDesk, CanOpenDesk, Parts};
ghost use Rattle.tally_desk.specs.Passes.{IsClosed, IsFirstPass};
ghost use Rattle.tally_desk.specs.RunResult.{BothSaved, HasRun, starts};
ghost use Rattle.tally_desk.specs.Rooms.{HasSaveRoom};
ghost use Rattle.tally_desk.specs.Views.{PassView};

use crate::desk::Desk;
use crate::hub::walk_hub;
use crate::pass::DeskPass;
use crate::pool::{DeskPool, seat};
use crate::saving::save_rest;
use crate::state::RunState;
use crate::walking::{gather, walk_each};
use audit_io::gate::Gate;
use audit_io::keeper::Keeper;
use audit_io::source::Failed;
use audit_model::lists::UnitList;
use claim_counter::workers::{Lender, Runtime};
use flip_guard::judge::Judge;
use plan_core::job::Job;
use std::sync::Wait;
use std::thread::Threads;

/// The state of a run at its end, and an error if a save failed.
#[derive(Drop)]
pub struct RunResult<C> {
    pub state: RunState<C>,
    pub saved: Result<(), Failed>,
}

/// Walks the trajectories with the ids of `todo`.
///
/// A checkpoint of all outcomes is saved after each `save_every` posts. One more is saved at the end, unless the last
/// post just saved one. A failed save does not end the run, and the next save goes to the same place.
///
/// Each worker is a thread, if one can be started. The gate learns each id before its walk. At the end, the list
/// `sorted` of the state has all outcomes by rising id.
///
/// # Errors
///
/// Out of memory for the desk. The threads and the gate were not lent, nothing was saved, and the state is returned.
pub fn run_over<R: Threads + Wait + Sync, C: Keeper + Send, J: Judge + Send, G: Gate + Sync>(
    rt: &mut Lender<R, G>,
    job: &Job,
    state: RunState<C>,
    todo: UnitList,
    pool: DeskPool<J>,
) -> Result<RunResult<C>, RunState<C>>
    requires found { CanOpenDesk job.now (C.state state.keeper).slots state todo }
    requires within { IsWithin job.now todo }
    requires pool { IsDeskPool job.now (vec_len pool.walkers) pool }
    requires workers { (1 ≤ vec_len pool.walkers) × (vec_len pool.walkers ≤ most_workers) }
    requires lets { LetsDesk C.lets (starts C.state job.now state todo (vec_len pool.walkers)) }
    ensures ran { IfOk result (λ r. HasRun (starts C.state job.now state todo (vec_len pool.walkers))
        (C.state r.state.keeper) r.state.sorted.items r.saved) }
    ensures refused { IfErr result (λ r. (r.book ≡ state.book) × (r.keeper ≡ state.keeper)) }
    ensures memory { IfErr result (λ r. rt.new ≡ rt.old) }
{
    match walk_over(rt, job, state, todo, pool) {
        Ok(state) => Ok(save_last(state)),
        Err(refused) => Err(refused),
    }
}

// Returns `Ok` if no save failed: neither one at the desk nor the last save.
fn combine_results(failed: u32, rest: Result<(), Failed>) -> Result<(), Failed>
    ensures { BothSaved failed rest result }
{
    if failed > 0 {
        return Err(Failed);
    }
    rest
}

// Walks all ids of the desk and closes it. Only the keeper may allocate.
fn work<R: Threads + Wait + Sync, C: Keeper + Send, J: Judge + Send, G: Gate + Sync>(
    rt: &Runtime<R, G>,
    job: &Job,
    desk: Desk<C>,
    pass: DeskPass,
    pool: DeskPool<J>,
) -> RunState<C>
    requires pass { IsFirstPass desk pass }
    requires pool { MaySeat desk.parts pool.walkers pool.workers pool.buffered }
    requires shared { WalksAtDesk job.now desk.parts pool.hub }
    ensures { (v : PassView) × IsClosed C.state desk.parts v result }
{
    let DeskPool {
        walkers,
        workers,
        buffered,
        hub,
    } = pool;
    let mut workers = seat(&desk, pass, walkers, workers, buffered);
    walk_each(rt, job, hub.as_slice(), &desk, workers.as_mut_slice());
    let pass = gather(&desk, workers);
    desk.close(pass)
}

// Makes the desk of a run and walks all its ids. If out of memory for the desk, nothing is walked.
fn walk_over<R: Threads + Wait + Sync, C: Keeper + Send, J: Judge + Send, G: Gate + Sync>(
    rt: &mut Lender<R, G>,
    job: &Job,
    state: RunState<C>,
    todo: UnitList,
    pool: DeskPool<J>,
) -> Result<RunState<C>, RunState<C>>
    requires found { CanOpenDesk job.now (C.state state.keeper).slots state todo }
    requires within { IsWithin job.now todo }
    requires pool { IsDeskPool job.now (vec_len pool.walkers) pool }
    requires workers { (1 ≤ vec_len pool.walkers) × (vec_len pool.walkers ≤ most_workers) }
    requires lets { LetsDesk C.lets (starts C.state job.now state todo (vec_len pool.walkers)) }
    ensures closed { IfOk result (λ s. (v : PassView) × IsClosed C.state (starts C.state job.now state todo (vec_len pool.walkers)) v s) }
    ensures refused { IfErr result (λ r. (r.book ≡ state.book) × (r.keeper ≡ state.keeper)) }
    ensures memory { IfErr result (λ r. rt.new ≡ rt.old) }
{
    let mut pool = pool;
    let seats = pool.walkers.len() as u32;
    match Desk::new(rt.alloc(), job, state, todo, seats) {
        Ok((desk, pass)) => {
            let lent = rt.lend();
            walk_hub(&desk, job, &mut pool);
            Ok(work(&lent, job, desk, pass, pool))
        }
        Err(refused) => Err(refused),
    }
}

// Makes the last save of a run, unless a save with the last post succeeded.
fn save_last<C: Keeper>(mut state: RunState<C>) -> RunResult<C>
    requires place { IsPlace state.place }
    requires room { HasSaveRoom state.book.total state.sorted state.room }
    requires closed { (parts : Parts) × ((v : PassView) × (IsClosed C.state parts v state × LetsDesk C.lets parts)) }
    ensures { (parts : Parts) (v : PassView) → IsClosed C.state parts v state
        → HasRun parts (C.state result.state.keeper) result.state.sorted.items result.saved }
{
    let rest = save_rest(&mut state);
    let saved = combine_results(state.failed_saves, rest);
    RunResult { state, saved }
}
