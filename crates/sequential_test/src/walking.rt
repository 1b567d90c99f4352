//! The walk of the outlier trajectories, and then of endpoint trajectories in rounds.

ghost use Rattle.std.specs.Prelude.{◌≡◌, ◌+◌, ◌-◌, ◌≤◌, [], length, take, vec_len};
ghost use Rattle.std.specs.List.{AllPairs};
ghost use Rattle.audit_model.specs.Below.{map_below};
ghost use Rattle.audit_model.specs.Run.{total};
ghost use Rattle.audit_model.specs.Stopping.{stops_of};
ghost use Rattle.audit_model.specs.Trajectory.{sequence};
ghost use Rattle.claim_counter.specs.Batches.{IsFreshBatch};
ghost use Rattle.audit_statement.specs.Draw.{draw};
ghost use Rattle.sequential_test.specs.Pools.{AreRounds, HasWalkedTo, IsStoppingPool};
ghost use Rattle.sequential_test.specs.Rounds.{ends_after, found_below, AreIds, AreParts, AreDecidedBelow, StopsInTime};

use crate::all_stops::find_stops;
use crate::pool::{StoppingPool, after_round};
use audit_io::gate::Gate;
use audit_model::buffers::OutcomeList;
use claim_counter::batches::{BatchCounter, BatchWorkers, find_hub, walk_batch};
use claim_counter::workers::Runtime;
use flip_guard::judge::Judge;
use outcome_book::book::Book;
use plan_core::job::Job;
use std::thread::Threads;

// Returns the ids in `from..to`.
fn ids_from(todo: &[u32], from: u32, to: u32) -> &[u32]
    requires order { (from ≤ to) × (to ≤ length todo.now) }
    ensures { todo.now ≡ map_below (length todo.now) (λ id. id) → AreIds from to result.now }
{
    &todo[from as usize..to as usize]
}

/// A range of consecutive ids, and the counter from which workers claim them.
#[derive(Drop)]
struct IdRange<'a> {
    ids: &'a [u32],
    from: u32,
    to: u32,
    batch: BatchCounter,
}

/// All ids of a run, and the counter of each round.
#[derive(Drop)]
struct Rounds<'a> {
    todo: &'a [u32],
    batches: Vec<BatchCounter>,
}

// Walks the trajectories of a range. Those before the range must be walked. Then fills `sorted` with all outcomes so
// far, by rising id.
fn walk_to<R: Threads + Sync, J: Judge + Send, G: Gate + Sync>(
    rt: &Runtime<R, G>,
    job: &Job,
    id_range: IdRange,
    batch_workers: &mut BatchWorkers<J>,
    book: &mut Book,
    sorted: &mut OutcomeList,
)
    requires ids { AreIds id_range.from id_range.to id_range.ids.now }
    requires few { id_range.to ≤ total job.now }
    requires batch { IsFreshBatch (id_range.to - id_range.from) (vec_len batch_workers.old.idle_workers) id_range.batch }
    requires walked { HasWalkedTo job.now (vec_len batch_workers.old.idle_workers) id_range.from batch_workers.old book.old sorted.old }
    ensures walked { HasWalkedTo job.now (vec_len batch_workers.old.idle_workers) id_range.entry.to batch_workers.new book.new sorted.new }
    ensures sorted { sorted.new.items ≡ found_below job.now id_range.entry.to }
    ensures rising { AllPairs (λ a b. a.id ≡ b.id → ⊥) sorted.new.items }
{
    walk_batch(rt, job, id_range.ids, id_range.batch, batch_workers, book);
    book.sorted_into(sorted);
}

// Walks rounds of endpoint trajectories until every test has stopped, and returns the stops.
fn walk_rounds<R: Threads + Sync, J: Judge + Send, G: Gate + Sync>(
    rt: &Runtime<R, G>,
    job: &Job,
    rounds: Rounds,
    batch_workers: &mut BatchWorkers<J>,
    book: &mut Book,
    sorted: &mut OutcomeList,
) -> [[u32; 3]; 4]
    requires ids { rounds.todo.now ≡ map_below (total job.now) (λ id. id) }
    requires some { 1 ≤ job.now.setting.stop }
    requires some_ends { 1 ≤ job.now.setting.ends }
    requires rounds { AreRounds job.now.setting.ends (vec_len batch_workers.old.idle_workers) 0 rounds.batches.items }
    requires all { ends_after job.now.setting.ends (vec_len rounds.batches) ≡ job.now.setting.ends }
    requires walked { HasWalkedTo job.now (vec_len batch_workers.old.idle_workers) job.now.setting.walks batch_workers.old book.old sorted.old }
    ensures in_time { StopsInTime job.now sorted.new.items }
    ensures stops { AreDecidedBelow job.now sorted.new.items (length job.now.setting.asks) result }
    ensures parts { AreParts job.now.setting.ends (length job.now.setting.asks) result }
    ensures four { length result ≡ 4 }
{
    let walks = job.setting().walks;
    let ends = job.setting().ends;
    let Rounds { todo, mut batches } = rounds;
    let mut walked = 0;
    while let Some(batch) = batches.pop() {
        let next = after_round(ends, walked);
        let from = walks + walked;
        let to = walks + next;
        let ids = ids_from(todo, from, to);
        let id_range = IdRange {
            ids,
            from,
            to,
            batch,
        };
        walk_to(rt, job, id_range, batch_workers, book, sorted);
        walked = next;
        match find_stops(job, sorted.as_slice()) {
            Some(stops) => return stops,
            None => {}
        }
    }
    unreachable!()
}

/// Walks all outlier trajectories, then rounds of endpoint trajectories by rising id until every test has stopped.
/// `sorted` then has all outcomes by rising id. Returns each test's stopping place and the fraction of its p-value.
/// Both equal those of one thread that walks every endpoint trajectory, however many endpoints past the stopping places
/// were walked. Each worker is a thread. If no thread can be started, the calling thread does the work. Allocates
/// nothing.
pub fn walk_to_stops<R: Threads + Sync, J: Judge + Send, G: Gate + Sync>(
    rt: &Runtime<R, G>,
    job: &Job,
    todo: &[u32],
    pool: StoppingPool<J>,
    book: &mut Book,
    sorted: &mut OutcomeList,
) -> [[u32; 3]; 4]
    requires ids { todo.now ≡ map_below (total job.now) (λ id. id) }
    requires some { 1 ≤ job.now.setting.stop }
    requires some_ends { 1 ≤ job.now.setting.ends }
    requires pool { IsStoppingPool job.now job.now.setting.workers pool }
    requires empty { book.old.outcomes ≡ [] }
    requires total { book.old.total ≡ total job.now }
    requires room { total job.now ≤ length sorted.old.items + sorted.old.spare }
    ensures in_time { StopsInTime job.now sorted.new.items }
    ensures stops { take (length job.now.setting.asks) result ≡ stops_of job.now (sequence job.now (draw job.now.setting.key)) }
    ensures parts { AreParts job.now.setting.ends (length job.now.setting.asks) result }
    ensures four { length result ≡ 4 }
{
    let StoppingPool {
        mut batch_workers,
        seats: _,
        walks,
        rounds,
    } = pool;
    find_hub(job, &mut batch_workers);
    let to = job.setting().walks;
    let id_range = IdRange {
        ids: ids_from(todo, 0, to),
        from: 0,
        to,
        batch: walks,
    };
    walk_to(rt, job, id_range, &mut batch_workers, book, sorted);
    let rounds = Rounds {
        todo,
        batches: rounds,
    };
    walk_rounds(rt, job, rounds, &mut batch_workers, book, sorted)
}
