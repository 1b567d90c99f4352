//! The workers of a run that saves while it walks.

ghost use Rattle.std.specs.Prelude.{◌≡◌, ◌+◌, ◌-◌, ◌*◌, ◌<◌, ◌≤◌, ◌∷◌, [], ◌++◌, All, IfOk, vec_len};
ghost use Rattle.tally_desk.specs.Passes.{IsFirstPass};
ghost use Rattle.tally_desk.specs.Pools.{IsDeskPool, IsUnstartedAtDesk, MaySeat};
ghost use Rattle.tally_desk.specs.Unposted.{AreRooms, buffer_room, holders, room_at};
ghost use Rattle.walker.specs.Judges.{AreJudges};

use crate::desk::Desk;
use crate::pass::DeskPass;
use crate::worker::DeskWorker;
use audit_io::keeper::Keeper;
use audit_model::lists::UnitList;
use audit_model::memory::Memory;
use audit_model::outcome::Outcome;
use audit_model::setting::Setting;
use claim_counter::workers::{GatedWalker, make_walkers};
use flip_guard::judge::Judge;
use plan_core::job::Job;
use std::alloc::Global;
use walker::walker::Walker;

/// The workers of a run that saves, and their preallocated buffers: walkers, one outcome buffer per worker, and the
/// hub.
#[derive(Drop)]
pub struct DeskPool<J: Judge> {
    pub(crate) walkers: Vec<Walker<J>>,
    pub(crate) workers: Vec<DeskWorker<J>>,
    pub(crate) buffered: Vec<Vec<Outcome>>,
    pub(crate) hub: UnitList,
}

/// The number of steps from which a trajectory is long. Outcomes of long trajectories are not buffered.
const LONG_STEPS: u32 = 100_000;

/// The largest capacity of one outcome buffer.
const MOST_BUFFERED: usize = 4096;

/// The largest number of workers with an outcome buffer. These workers walk on during a save. If there were more, the
/// worker that saves would get too little processor time.
const MOST_HOLDERS: usize = 4;

/// Makes a walker and a buffer for each of `judges`. Each of these must be a constraint made for this job. Fails if
/// there is no memory. Walking then allocates nothing more.
pub fn make_pool<J: Judge>(alloc: Global, job: &Job, judges: Vec<J>) -> Result<DeskPool<J>, Memory>
    requires judges { AreJudges job.now J.judging judges.items }
    ensures { IfOk result (IsDeskPool job.now (vec_len judges)) }
{
    let room = Vec::with_capacity(alloc, judges.len())?;
    let hub = UnitList::zeros(alloc, job.units() as usize)?;
    let setting = job.setting();
    let buffered = make_rooms(alloc, setting, judges.len())?;
    let walkers = make_walkers(alloc, job, judges)?;
    Ok(DeskPool {
        walkers,
        workers: room,
        buffered,
        hub,
    })
}

// Returns the number of workers that have an outcome buffer.
fn holders(workers: usize) -> usize
    ensures { result ≡ holders workers }
{
    workers.min(MOST_HOLDERS)
}

// Returns the capacity of each outcome buffer. All buffers together hold fewer than `save_every` outcomes.
fn room_each(setting: &Setting, workers: usize) -> usize
    ensures room { result ≡ buffer_room setting.now workers }
    ensures few { holders workers * result ≤ setting.now.save_every - 1 }
{
    if setting.steps.max(setting.hub_steps) >= LONG_STEPS {
        return 0;
    }
    let few = setting.save_every.saturating_sub(1) as usize;
    MOST_BUFFERED.min(few / holders(workers).max(1))
}

// Returns the buffer capacity of the worker at this place.
fn room_at(setting: &Setting, workers: usize, place: usize) -> usize
    ensures { result ≡ room_at setting.now workers place }
{
    if place < holders(workers) {
        room_each(setting, workers)
    } else {
        0
    }
}

// Makes the outcome buffers, one per worker.
fn make_rooms(alloc: Global, setting: &Setting, workers: usize) -> Result<Vec<Vec<Outcome>>, Memory>
    ensures count { IfOk result (λ h. vec_len h ≡ workers) }
    ensures rooms { IfOk result (λ h. AreRooms setting.now workers h.items) }
{
    let mut buffered = Vec::with_capacity(alloc, workers)?;
    for place in 0..workers {
        let room = room_at(setting, workers, place);
        buffered.push_reserved(Vec::with_capacity(alloc, room)?);
    }
    Ok(buffered)
}

// Makes a worker of each walker, with a pass and a buffer of its own.
pub(crate) fn seat<C: Keeper, J: Judge>(
    desk: &Desk<C>,
    mut pass: DeskPass,
    mut walkers: Vec<Walker<J>>,
    mut workers: Vec<DeskWorker<J>>,
    mut lists: Vec<Vec<Outcome>>,
) -> Vec<DeskWorker<J>>
    requires pass { IsFirstPass desk.now pass }
    requires pool { MaySeat desk.now.parts walkers workers lists }
    ensures unstarted { All (IsUnstartedAtDesk desk.now) result.items }
    ensures count { vec_len result ≡ vec_len walkers }
{
    let Some(last) = walkers.pop() else {
        unreachable!()
    };
    while let Some(walker) = walkers.pop() {
        let part = desk.split(&mut pass);
        let buffered = take_last(&mut lists);
        workers.push_reserved(DeskWorker {
            walker: GatedWalker::new(walker),
            pass: part,
            buffered,
        });
    }
    let buffered = take_last(&mut lists);
    workers.push_reserved(DeskWorker {
        walker: GatedWalker::new(last),
        pass,
        buffered,
    });
    workers
}

fn take_last(lists: &mut Vec<Vec<Outcome>>) -> Vec<Outcome>
    requires { 0 < vec_len lists.old }
    ensures items { lists.old.items ≡ lists.new.items ++ result ∷ [] }
    ensures len { vec_len lists.new + 1 ≡ vec_len lists.old }
{
    let Some(last) = lists.pop() else {
        unreachable!()
    };
    last
}
