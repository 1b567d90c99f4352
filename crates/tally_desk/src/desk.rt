//! The desk: a work queue with a checkpoint writer.
ghost use Rattle.std.specs.Prelude.{◌≡◌, ◌≤◌};

use crate::handing::open;
use crate::pass::{DeskPass, take_out};
use crate::rule::{DeskSplit, NextPlace, OneTally, PollTicket, Posting, See, Serve, Take};
use crate::state::RunState;
use crate::turn::OtherTurn;
use crate::view::{DeskArguments, DeskView};
use atomic_table::{Seat, Table};
use audit_io::keeper::Keeper;
use audit_model::lists::UnitList;
use audit_model::outcome::Outcome;
use claim_counter::walking::has_above;
use plan_core::job::Job;
use std::alloc::Global;
use std::marker::{Brand, Model};
use std::sync::Wait;
use std::thread;
use std::time::Duration;

/// The longest sleep, in milliseconds, of a worker that waits for a save.
const LONGEST_SLEEP: u64 = 100;

/// A work queue over a list of ids, with a checkpoint writer. Each worker has a pass (`DeskPass`): its permission to
/// claim ids and to post their outcomes. The desk collects the outcomes in a book and saves a checkpoint whenever the
/// number of posts is a multiple of `save_every`. Claims are lock-free; only posts wait for each other.
#[derive(Drop)]
pub struct Desk<C: Keeper> {
    pub(crate) table: Table<RunState<C>, DeskView, DeskArguments<C>, OneTally<C>, Global>,
    todo: UnitList,
    save_every: u32,
    ghost three_words: { table.shared.table_id.words ≡ 3 },
    ghost one_slot: { table.shared.table_id.slots ≡ 1 },
    ghost todo_is: { todo ≡ table.shared.key.todo.value },
    ghost some_every: { 1 ≤ save_every },
}

impl<C: Keeper> Model for Desk<C> {
    ghost use Rattle.tally_desk.specs.DeskModel.{DeskModel};
    ghost use Rattle.tally_desk.specs.DeskStart.{parts_of};

    ghost Value = { DeskModel };

    ghost view = { λ d. record { table = d.table.shared.table_id; parts = parts_of C.state d.table.shared.key } };
}

impl<C: Keeper> Desk<C> {
    ghost use Rattle.std.specs.Prelude.{◌≡◌, ◌+◌, ◌-◌, ◌%◌, ◌^◌, ◌<◌, ◌≤◌, ◌∷◌, [], ◌++◌, ℕ, IsTrue, All, IfOk, IfErr, IfSome, IfNone, IsFalse, true, false, length, vec_len};
    ghost use Rattle.audit_model.specs.Times.{times};
    ghost use Rattle.claim_counter.specs.Views.{HasAllSeats};
    ghost use Rattle.claim_counter.specs.Walks.{found};
    ghost use Rattle.tally_desk.specs.Desks.{BeginsTurn, CanPost, HasServed, IsInTurn, IsWaiting, claimed_ids, ended_view, joined_view, left_view, right_view, with_turn};
    ghost use Rattle.tally_desk.specs.Entries.{ids_of};
    ghost use Rattle.tally_desk.specs.Homes.{HomeAs};
    ghost use Rattle.tally_desk.specs.Parts.{LetsDesk, CanOpenDesk};
    ghost use Rattle.tally_desk.specs.Passes.{Belongs, Claims, HasPostedAll, IsClosed, IsFirstPass, Posts, view_of};
    ghost use Rattle.tally_desk.specs.RunResult.{starts};
    ghost use Rattle.tally_desk.specs.Views.{waiting};

    /// Makes a desk for at most `seats` passes, and its first pass. The desk takes over the state of a run. The book of
    /// the state must have no outcome with an id of `todo`.
    ///
    /// # Errors
    ///
    /// Out of memory. Nothing was saved, and the state is returned.
    pub fn new(
        alloc: Global,
        job: &Job,
        state: RunState<C>,
        todo: UnitList,
        seats: u32,
    ) -> Result<(Desk<C>, DeskPass), RunState<C>>
        requires found { CanOpenDesk job.now (C.state state.keeper).slots state todo }
        requires seats { (1 ≤ seats) × (seats ≤ 33) }
        requires lets { LetsDesk C.lets (starts C.state job.now state todo seats) }
        ensures parts { IfOk result (λ d. d.0.parts ≡ starts C.state job.now state todo seats) }
        ensures pass { IfOk result (λ d. IsFirstPass d.0 d.1) }
        ensures refused { IfErr result (λ r. (r.book ≡ state.book) × (r.keeper ≡ state.keeper)) }
    {
        let save_every = state.save_every;
        match open(alloc, job, state, &todo, seats) {
            Ok((table, seat)) => Ok((
                Desk {
                    table,
                    todo,
                    save_every,
                },
                DeskPass {
                    badge: seat.into_badge(),
                    spare: seats - 1,
                    ended: false,
                },
            )),
            Err(refused) => Err(refused),
        }
    }

    /// Returns true if the list has an id of `walks` or above. The trajectories with these ids start from the hub.
    pub fn needs_hub(&self, walks: u32) -> bool
        ensures none { IsFalse result → All (λ id. id < walks) self.now.parts.todo }
        ensures some { All (λ id. id < walks) self.now.parts.todo → IsFalse result }
    {
        has_above(self.todo.as_slice(), walks)
    }

    /// Draws the next place of the list in one atomic step, and returns the id there. No other pass of this desk ever
    /// gets the same place. If no id is left, the pass has ended, and the result is `None`.
    pub fn claim(&self, pass: &mut DeskPass) -> Option<u32>
        requires pass { Belongs self.now pass.old }
        requires before_end { (view_of pass.old).own.ended ≡ false }
        ensures pass { Belongs self.now pass.new }
        ensures claimed { IfSome result (λ id. Claims self.now.parts id (view_of pass.old) (view_of pass.new)) }
        ensures end { IfNone result (view_of pass.new ≡ ended_view (view_of pass.old)) }
        ensures few { length (view_of pass.new).own.claims ≤ length self.now.parts.todo }
    {
        let mut seat = take_out(&mut pass.badge);
        let drawn = self.table.shared.fetch_add::<NextPlace>(&mut seat, 0, 1);
        pass.badge = seat.into_badge();
        if drawn < self.todo.len() as u64 {
            Some(self.todo.as_slice()[drawn as usize])
        } else {
            pass.ended = true;
            None
        }
    }

    /// Posts the outcome of a claimed id. Waits as long as another pass has its turn, and sleeps if that turn makes a
    /// save. Only the keeper may allocate.
    pub fn post<R: Wait>(&self, rt: &R, pass: &mut DeskPass, outcome: Outcome)
        requires pass { Belongs self.now pass.old }
        requires claimed { 0 < times outcome.id (claimed_ids self.now.parts (view_of pass.old)) }
        requires unposted { times outcome.id (ids_of (view_of pass.old).entries) ≡ 0 }
        requires right { outcome ≡ found self.now.parts.job outcome.id }
        ensures pass { Belongs self.now pass.new }
        ensures posted { Posts outcome.id (view_of pass.old) (view_of pass.new) }
    {
        let mut seat = take_out(&mut pass.badge);
        let ticket = self.take_ticket::<R, Brand>(rt, &mut seat, outcome.id);
        self.await_turn(rt, &mut seat, ticket, outcome.id);
        self.serve(&mut seat, ticket, outcome);
        pass.badge = seat.into_badge();
    }

    /// Posts the outcome of a claimed id, unless another pass has its turn. Returns true if the outcome was posted.
    pub fn try_post<R: Wait>(&self, rt: &R, pass: &mut DeskPass, outcome: Outcome) -> bool
        requires pass { Belongs self.now pass.old }
        requires claimed { 0 < times outcome.id (claimed_ids self.now.parts (view_of pass.old)) }
        requires unposted { times outcome.id (ids_of (view_of pass.old).entries) ≡ 0 }
        requires right { outcome ≡ found self.now.parts.job outcome.id }
        ensures pass { Belongs self.now pass.new }
        ensures posted { result ≡ true → Posts outcome.id (view_of pass.old) (view_of pass.new) }
        ensures missed { result ≡ false → view_of pass.new ≡ view_of pass.old }
    {
        let mut seat = take_out(&mut pass.badge);
        match self.try_ticket::<Brand>(&mut seat, outcome.id) {
            Some(ticket) => {
                self.await_turn(rt, &mut seat, ticket, outcome.id);
                self.serve(&mut seat, ticket, outcome);
                pass.badge = seat.into_badge();
                true
            }
            None => {
                pass.badge = seat.into_badge();
                false
            }
        }
    }

    // Waits until no ticket is out, and takes the next ticket. The turn of this ticket begins at once.
    //
    // Waiting passes are not queued: after a turn, the first pass that asks gets the next ticket. Thus no turn is kept
    // for a pass whose thread is not running.
    fn take_ticket<R: Wait, B: Posting>(
        &self,
        rt: &R,
        seat: &mut Seat<RunState<C>, DeskView>,
        id: u32,
    ) -> u64
        requires name { B.id ≡ id }
        requires table { seat.old.table_id ≡ self.now.table }
        requires empty { seat.old.me.1 ≡ [] }
        requires post { CanPost self.now.parts seat.old.me.0 id }
        ensures table { seat.new.table_id ≡ seat.old.table_id }
        ensures seat { seat.new.me ≡ (with_turn seat.old.me.0 (waiting result id), []) }
    {
        for _ in rt.forever() {
            if let Some(ticket) = self.try_ticket::<B>(seat, id) {
                return ticket;
            }
            self.rest(rt);
        }
        unreachable!()
    }

    // Lets other threads run while another pass has its turn. Sleeps if that turn makes a save. Other turns are too
    // short for sleeping.
    fn rest<R: Wait>(&self, rt: &R) {
        let Some(turn) = OtherTurn::read(&self.table.shared) else {
            return;
        };
        if self.makes_save(turn.ticket()) {
            let low = turn.low_half();
            self.sleep_through(rt, turn, low);
        } else {
            thread::yield_now();
        }
    }

    // Sleeps until the turn ends, at most `LONGEST_SLEEP`. Returns at once if the turn is over: `low` is the lower half
    // of its ticket, and the thread sleeps only while word 2 has this lower half.
    fn sleep_through<R: Wait>(&self, rt: &R, turn: OtherTurn, low: u32)
        requires low { low ≡ turn % 2 ^ 32 }
    {
        drop(turn);
        let longest = Duration::from_millis(LONGEST_SLEEP);
        self.table.shared.park_timeout(rt, 2, low, longest);
    }

    // Wakes all workers that sleep because of the turn of this ticket.
    fn wake(&self, ticket: u64) {
        if self.makes_save(ticket) {
            self.table.shared.wake_all(2);
        }
    }

    // Returns true if a save is due with the post of this ticket.
    #[inline]
    fn makes_save(&self, ticket: u64) -> bool {
        ticket.wrapping_add(1) % u64::from(self.save_every) == 0
    }

    // Takes the next ticket, for a post of this id. Returns `None` if a ticket is out.
    fn try_ticket<B: Posting>(&self, seat: &mut Seat<RunState<C>, DeskView>, id: u32) -> Option<u64>
        requires name { B.id ≡ id }
        requires table { seat.old.table_id ≡ self.now.table }
        requires empty { seat.old.me.1 ≡ [] }
        requires post { CanPost self.now.parts seat.old.me.0 id }
        ensures table { seat.new.table_id ≡ seat.old.table_id }
        ensures taken { IfSome result (λ t. seat.new.me ≡ (with_turn seat.old.me.0 (waiting t id), [])) }
        ensures missed { IfNone result (seat.new.me ≡ seat.old.me) }
    {
        let words = &self.table.shared;
        let served = words.peek(2);
        if words.peek(1) != served {
            return None;
        }
        let next = served.wrapping_add(1);
        let found = words.compare_exchange::<Take<B>>(seat, 1, served, next);
        if found == served { Some(served) } else { None }
    }

    // Spins until the turn of this ticket comes. The pass then owns the table's only slot, with the state of the run.
    fn await_turn<R: Wait>(
        &self,
        rt: &R,
        seat: &mut Seat<RunState<C>, DeskView>,
        ticket: u64,
        id: u32,
    )
        requires table { seat.old.table_id ≡ self.now.table }
        requires empty { seat.old.me.1 ≡ [] }
        requires waits { IsWaiting self.now.parts ticket id seat.old.me.0 }
        ensures table { seat.new.table_id ≡ seat.old.table_id }
        ensures begins { BeginsTurn (HomeAs C.state C.lets) self.now.parts ticket id seat.old.me seat.new.me }
    {
        for _ in rt.forever() {
            if self.table.shared.load::<PollTicket>(seat, 2) == ticket {
                return;
            }
            thread::yield_now();
        }
        unreachable!()
    }

    // Posts the outcome of a claim in the turn of this ticket, with a save if one is due. Then ends the turn, and wakes
    // the passes that sleep through it.
    fn serve(&self, seat: &mut Seat<RunState<C>, DeskView>, ticket: u64, outcome: Outcome)
        requires table { seat.old.table_id ≡ self.now.table }
        requires right { outcome ≡ found self.now.parts.job outcome.id }
        requires turn { IsInTurn (HomeAs C.state C.lets) self.now.parts ticket outcome.id seat.old.me }
        ensures table { seat.new.table_id ≡ seat.old.table_id }
        ensures served { HasServed ticket outcome.id seat.old.me seat.new.me }
    {
        let state = seat.slot_mut(&self.table.shared, 0);
        state.turn(outcome, self.todo.as_slice());
        self.table.shared.store::<Serve>(seat, 2, ticket + 1);
        self.wake(ticket);
    }

    /// Splits a pass with no claims off `pass`. Afterwards one pass less can be split off `pass`.
    pub fn split(&self, pass: &mut DeskPass) -> DeskPass
        requires pass { Belongs self.now pass.old }
        requires spare { 0 < (view_of pass.old).own.spare }
        ensures rest { Belongs self.now pass.new × (view_of pass.new ≡ left_view (view_of pass.old)) }
        ensures new { Belongs self.now result × (view_of result ≡ right_view (view_of pass.old)) }
    {
        let mut seat = take_out(&mut pass.badge);
        let other = self.table.shared.split_seat::<DeskSplit>(&mut seat);
        pass.badge = seat.into_badge();
        pass.spare -= 1;
        DeskPass {
            badge: other.into_badge(),
            spare: 0,
            ended: false,
        }
    }

    /// Joins two passes into one with the claims and posts of both. The joined pass has ended if both have.
    pub fn join(&self, first: DeskPass, second: DeskPass) -> DeskPass
        requires first { Belongs self.now first }
        requires second { Belongs self.now second }
        ensures pass { Belongs self.now result }
        ensures both { view_of result ≡ joined_view (view_of first) (view_of second) }
    {
        let DeskPass {
            mut badge,
            spare,
            ended,
        } = first;
        let DeskPass {
            badge: mut other_badge,
            spare: other_spare,
            ended: other_ended,
        } = second;
        let mut seat = take_out(&mut badge);
        let other = take_out(&mut other_badge);
        self.table.shared.join_seat::<DeskSplit>(&mut seat, other);
        // Called for its contract: the joined pass has at most 33 seats, so the sum of the spares below does not
        // overflow. The contract of the join does not say so.
        self.table.shared.load::<See>(&mut seat, 0);
        DeskPass {
            badge: seat.into_badge(),
            spare: spare + other_spare,
            ended: ended && other_ended,
        }
    }

    /// Closes the desk and returns the state of the run. `pass` must be its only pass, must have ended, and must have
    /// posted all its claims.
    pub fn close(self, pass: DeskPass) -> RunState<C>
        requires pass { Belongs self pass }
        requires only { HasAllSeats self.parts.seats (view_of pass).own }
        requires ended { (view_of pass).own.ended ≡ true }
        requires posted { HasPostedAll self.parts (view_of pass) }
        ensures { IsClosed C.state self.parts (view_of pass) result }
    {
        let Desk {
            table,
            todo: _,
            save_every: _,
        } = self;
        let DeskPass {
            mut badge,
            spare: _,
            ended: _,
        } = pass;
        let seat = take_out(&mut badge);
        let mut closed = table.close_with(seat);
        let state = closed.take(0);
        closed.free();
        state
    }
}
