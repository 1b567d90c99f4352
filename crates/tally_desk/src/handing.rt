//! The table of a desk, made from the state of a run.

ghost use Rattle.std.specs.Prelude.{◌≡◌, ◌≤◌, ◌∷◌, [], IfOk, IfErr, vec_len};
ghost use Rattle.tally_desk.specs.Desks.{first_view};
ghost use Rattle.tally_desk.specs.DeskStart.{parts_of};
ghost use Rattle.tally_desk.specs.Homes.{HomeAs};
ghost use Rattle.tally_desk.specs.Parts.{IsPlan, LetsDesk, CanOpenDesk};
ghost use Rattle.tally_desk.specs.RunResult.{starts};
ghost use Rattle.tally_desk.specs.RunStates.{HoldsOne, HasNoPosts};

use crate::rule::OneTally;
use crate::state::RunState;
use crate::view::{DeskArguments, DeskView};
use atomic_table::{Seat, Table};
use audit_io::keeper::Keeper;
use audit_model::lists::UnitList;
use plan_core::job::Job;
use std::alloc::Global;
use std::snapshot::Snapshot;

// Replaces the state's list of posts by an empty one with capacity for `count` posts, and its number of failed saves by
// zero. If out of memory, the state is returned unchanged.
fn reset_posts<C>(
    alloc: Global,
    mut state: RunState<C>,
    count: usize,
) -> Result<RunState<C>, RunState<C>>
    ensures state { IfOk result (HasNoPosts count state) }
    ensures refused { IfErr result (λ r. r ≡ state) }
{
    match Vec::with_capacity(alloc, count) {
        Ok(posted) => {
            state.posted = posted;
            state.failed_saves = 0;
            Ok(state)
        }
        Err(_) => Err(state),
    }
}

// Records the initial state of a desk, for proofs.
fn take_snapshots<C: Keeper>(
    job: &Job,
    state: &RunState<C>,
    todo: &UnitList,
    seats: u32,
) -> DeskArguments<C>
    requires found { CanOpenDesk job.now (C.state state.now.keeper).slots state.now todo.now }
    requires seats { (1 ≤ seats) × (seats ≤ 33) }
    ensures parts { parts_of C.state result ≡ starts C.state job.now state.now todo.now seats }
    ensures todo { result.todo.value ≡ todo.now }
    ensures plan { IsPlan (parts_of C.state result) }
{
    // Called for their contracts: the job is within its limits, and the book is within its capacity.
    let _units = job.units();
    let _len = state.book.len();
    DeskArguments {
        job: Snapshot::of(job),
        book: Snapshot::of(&state.book),
        todo: Snapshot::of(todo),
        save_every: state.save_every,
        seats,
        place: state.place,
        keeper: Snapshot::of(&state.keeper),
    }
}

// Makes the table of a desk and its first seat from the state of a run. If out of memory, the book and the keeper are
// returned unchanged.
pub(crate) fn open<C: Keeper>(
    alloc: Global,
    job: &Job,
    state: RunState<C>,
    todo: &UnitList,
    seats: u32,
) -> Result<
    (
        Table<RunState<C>, DeskView, DeskArguments<C>, OneTally<C>, Global>,
        Seat<RunState<C>, DeskView>,
    ),
    RunState<C>,
>
    requires found { CanOpenDesk job.now (C.state state.keeper).slots state todo.now }
    requires seats { (1 ≤ seats) × (seats ≤ 33) }
    requires lets { LetsDesk C.lets (starts C.state job.now state todo.now seats) }
    ensures counts { IfOk result (λ t. (t.0.shared.table_id.words ≡ 3) × (t.0.shared.table_id.slots ≡ 1)) }
    ensures parts { IfOk result (λ t. parts_of C.state t.0.shared.key ≡ starts C.state job.now state todo.now seats) }
    ensures todo { IfOk result (λ t. t.0.shared.key.todo.value ≡ todo.now) }
    ensures seat { IfOk result (λ t. (t.1.table_id ≡ t.0.shared.table_id)
        × (t.1.me ≡ (first_view (parts_of C.state t.0.shared.key), []))) }
    ensures refused { IfErr result (λ r. (r.book ≡ state.book) × (r.keeper ≡ state.keeper)) }
{
    let desk_arguments = take_snapshots(job, &state, todo, seats);
    match reset_posts(alloc, state, todo.len()) {
        Ok(state) => make_table(alloc, state, &desk_arguments),
        Err(refused) => Err(refused),
    }
}

// Makes the table of a desk and its first seat. If out of memory, the state is returned unchanged.
fn make_table<C: Keeper>(
    alloc: Global,
    state: RunState<C>,
    desk_arguments: &DeskArguments<C>,
) -> Result<
    (
        Table<RunState<C>, DeskView, DeskArguments<C>, OneTally<C>, Global>,
        Seat<RunState<C>, DeskView>,
    ),
    RunState<C>,
>
    requires plan { IsPlan (parts_of C.state desk_arguments.now) }
    requires state { HomeAs C.state C.lets (parts_of C.state desk_arguments.now) state [] }
    ensures counts { IfOk result (λ t. (t.0.shared.table_id.words ≡ 3) × (t.0.shared.table_id.slots ≡ 1)) }
    ensures key { IfOk result (λ t. t.0.shared.key ≡ desk_arguments.now) }
    ensures seat { IfOk result (λ t. (t.1.table_id ≡ t.0.shared.table_id) × (t.1.me ≡ (first_view (parts_of C.state desk_arguments.now), []))) }
    ensures refused { IfErr result (λ r. r ≡ state) }
{
    let Ok(mut slots) = Vec::with_capacity(alloc, 1) else {
        return Err(state);
    };
    slots.push_reserved(state);
    match Table::new(alloc, &[0, 0, 0], slots, desk_arguments) {
        Ok(made) => Ok(made),
        Err(refused) => Err(take_only(refused.slots)),
    }
}

fn take_only<C>(mut slots: Vec<RunState<C>>) -> RunState<C>
    requires { vec_len slots ≡ 1 }
    ensures { HoldsOne slots.items (λ state. result ≡ state) }
{
    let Some(state) = slots.pop() else {
        unreachable!()
    };
    slots.destroy_empty();
    state
}
