//! The walks of a run without saves and without early stopping.

ghost use Rattle.std.specs.List.{AllPairs};
ghost use Rattle.std.specs.Prelude.{◌≡◌, ◌+◌, ◌<◌, ◌≤◌, ◌++◌, ℕ, All, IsFalse, length, map, vec_len, IsPermutation};
ghost use Rattle.audit_model.specs.Run.{run_ids, full};
ghost use Rattle.audit_statement.specs.Draw.{draw};
ghost use Rattle.claim_counter.specs.Pools.{IsPool};
ghost use Rattle.claim_counter.specs.Batches.{IsBatchWorkers};
ghost use Rattle.claim_counter.specs.Walks.{found, MissesIds, ServesEnds};
ghost use Rattle.outcome_book.specs.Booked.{IsBook};

use crate::batches::{BatchWorkers, find_hub, walk_batch};
use crate::pool::WorkerPool;
use crate::workers::Runtime;
use audit_io::gate::Gate;
use audit_model::buffers::OutcomeList;
use flip_guard::judge::Judge;
use outcome_book::book::Book;
use plan_core::job::Job;
use std::thread::Threads;

/// Returns true if an id is at or above the bound.
pub fn has_above(ids: &[u32], bound: u32) -> bool
    ensures none { IsFalse result → All (λ id. id < bound) ids.now }
    ensures some { All (λ id. id < bound) ids.now → IsFalse result }
{
    for id in ids {
        if *id >= bound {
            return true;
        }
    }
    false
}

// Computes the hub if `todo` has an endpoint trajectory. Only endpoint trajectories start from the hub.
fn walk_hub<J: Judge>(job: &Job, todo: &[u32], batch_workers: &mut BatchWorkers<J>)
    requires batch_workers { IsBatchWorkers job.now (vec_len batch_workers.old.idle_workers) batch_workers.old }
    ensures batch_workers { IsBatchWorkers job.now (vec_len batch_workers.old.idle_workers) batch_workers.new }
    ensures hub { ServesEnds job.now todo.now batch_workers.new.hub }
    ensures unneeded { All (λ id. id < job.now.setting.walks) todo.now → batch_workers.new.hub ≡ batch_workers.old.hub }
{
    if has_above(todo, job.setting().walks) {
        find_hub(job, batch_workers);
    }
}

// Walks the trajectories with these ids and adds their outcomes to the book.
fn walk_all<R: Threads + Sync, J: Judge + Send, G: Gate + Sync>(
    rt: &Runtime<R, G>,
    job: &Job,
    todo: &[u32],
    pool: WorkerPool<J>,
    book: &mut Book,
)
    requires pool { IsPool job.now (length todo.now) job.now.setting.workers pool }
    requires todo { MissesIds job.now book.old todo.now }
    ensures total { book.new.total ≡ book.old.total }
    ensures outcomes { IsPermutation book.new.outcomes (book.old.outcomes ++ map (found job.now) todo.now) }
    ensures sound { IsBook book.new }
{
    let WorkerPool {
        batch,
        mut batch_workers,
    } = pool;
    walk_hub(job, todo, &mut batch_workers);
    walk_batch(rt, job, todo, batch, &mut batch_workers, book);
}

/// Walks the trajectories with these ids, adds their outcomes to the book, and fills `out` with all outcomes of the
/// book by rising id. Each worker has its own thread, if one can be started. The next id goes to whichever worker is
/// free first, and the gate receives each id before its walk. Allocates nothing.
pub fn walk_run<R: Threads + Sync, J: Judge + Send, G: Gate + Sync>(
    rt: &Runtime<R, G>,
    job: &Job,
    todo: &[u32],
    pool: WorkerPool<J>,
    book: &mut Book,
    out: &mut OutcomeList,
)
    requires pool { IsPool job.now (length todo.now) job.now.setting.workers pool }
    requires todo { MissesIds job.now book.old todo.now }
    requires room { book.old.total ≤ length out.old.items + out.old.spare }
    ensures total { book.new.total ≡ book.old.total }
    ensures outcomes { IsPermutation book.new.outcomes (book.old.outcomes ++ map (found job.now) todo.now) }
    ensures full { (budget : ℕ) → todo.now ≡ run_ids job.now book.old.outcomes budget
        → out.new.items ≡ full job.now (draw job.now.setting.key) book.old.outcomes budget }
    ensures rising { AllPairs (λ a b. a.id < b.id) out.new.items }
    ensures all { IsPermutation out.new.items (book.old.outcomes ++ map (found job.now) todo.now) }
    ensures room { length out.new.items + out.new.spare ≡ length out.old.items + out.old.spare }
{
    // This call only tells the proof that the book's outcomes have distinct ids.
    let _kept = book.len();
    walk_all(rt, job, todo, pool, book);
    book.sorted_into(out);
}
