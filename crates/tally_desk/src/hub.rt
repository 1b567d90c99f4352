//! The hub of a run that saves.

ghost use Rattle.std.specs.Prelude.{◌≡◌, ◌<◌, All, vec_len};
ghost use Rattle.claim_counter.specs.Walks.{ServesEnds};
ghost use Rattle.tally_desk.specs.Pools.{IsDeskPool};

use crate::desk::Desk;
use crate::pool::DeskPool;
use audit_io::keeper::Keeper;
use flip_guard::judge::Judge;
use plan_core::job::Job;

/// Computes the hub if the desk's list has an id whose trajectory starts from it, and only then. The list belongs to
/// the desk, so the hub is computed after the desk's memory is allocated.
pub fn walk_hub<C: Keeper, J: Judge>(desk: &Desk<C>, job: &Job, pool: &mut DeskPool<J>)
    requires pool { IsDeskPool job.now (vec_len pool.old.walkers) pool.old }
    requires some { 0 < vec_len pool.old.walkers }
    ensures pool { IsDeskPool job.now (vec_len pool.old.walkers) pool.new }
    ensures hub { ServesEnds job.now desk.now.parts.todo pool.new.hub }
    ensures unneeded { All (λ id. id < job.now.setting.walks) desk.now.parts.todo → pool.new ≡ pool.old }
{
    if desk.needs_hub(job.setting().walks) {
        let walker = &mut pool.walkers[0];
        walker.hub_into(job, pool.hub.as_mut_slice());
    }
}
