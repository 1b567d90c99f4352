//! The state of a run that saves.

ghost use Rattle.std.specs.Prelude.{◌≡◌, IfErr, IfOk};
ghost use Rattle.tally_desk.specs.Entries.{ends_saved};
ghost use Rattle.tally_desk.specs.RunStates.{IsFirstState};

use crate::entry::Entry;
use crate::next_save::NextSave;
use audit_io::keeper::Keeper;
use audit_model::buffers::{Bytes, OutcomeList};
use audit_model::outcome::Outcome;
use audit_model::place::Place;
use ckpt_store::save;
use outcome_book::book::Book;
use plan_core::job::Job;
use std::alloc::Global;

/// The save settings of a run: the job's digest, the number of posts between saves, and the place of the first save.
#[derive(Clone, Copy)]
pub struct DeskPlan {
    pub digest: [u8; 32],
    pub save_every: u32,
    pub place: Place,
}

/// The state of a run that saves. A desk takes the state over, changes it with each post, and returns it when the desk
/// is closed. Posting and saving allocate nothing, but the keeper may.
#[derive(Drop)]
pub struct RunState<C> {
    /// The initial outcomes, and those that were posted.
    pub book: Book,
    pub keeper: C,
    /// The job's digest.
    pub digest: [u8; 32],
    /// The number of posts between saves.
    pub save_every: u32,
    /// The place of the next save.
    pub place: Place,
    pub failed_saves: u32,
    /// The posts at the desk, by rising ticket.
    pub posted: Vec<Entry>,
    /// The outcomes of the last save attempt by rising id.
    pub sorted: OutcomeList,
    /// A buffer with capacity for the checkpoint of all outcomes.
    pub room: Bytes,
    pub(crate) next: NextSave,
}

impl<C> RunState<C> {
    /// Makes the state of a run before its first post. `book` has the initial outcomes, and `sorted` has capacity for
    /// all outcomes.
    ///
    /// # Errors
    ///
    /// Out of memory. The keeper is returned.
    pub fn new(
        alloc: Global,
        job: &Job,
        plan: DeskPlan,
        book: Book,
        sorted: OutcomeList,
        keeper: C,
    ) -> Result<RunState<C>, C>
        ensures state { IfOk result (IsFirstState job.now plan book sorted keeper) }
        ensures refused { IfErr result (λ k. k ≡ keeper) }
    {
        let bytes = 84 + 80 * job.total() as usize;
        let digest = plan.digest;
        let Ok(room) = Bytes::with_room(alloc, bytes) else {
            return Err(keeper);
        };
        let Ok(next) = NextSave::with_room(alloc, plan.save_every, bytes) else {
            return Err(keeper);
        };
        Ok(RunState {
            book,
            keeper,
            digest,
            save_every: plan.save_every,
            place: plan.place,
            failed_saves: 0,
            posted: Vec::new(alloc),
            sorted,
            room,
            next,
        })
    }

    /// Returns true if a save was made with the last post and succeeded.
    pub fn has_saved_last(&self) -> bool
        ensures { result ≡ ends_saved self.now.posted.items }
    {
        ends_saved(self.posted.as_slice())
    }

    /// Returns the keeper, and the outcomes of the last save attempt by rising id.
    pub fn into_outcomes(self) -> (C, OutcomeList)
        ensures keeper { result.0 ≡ self.keeper }
        ensures sorted { result.1 ≡ self.sorted }
    {
        let RunState {
            book: _,
            keeper,
            digest: _,
            save_every: _,
            place: _,
            failed_saves: _,
            posted: _,
            sorted,
            room: _,
            next: _,
        } = self;
        (keeper, sorted)
    }
}

// Returns true if a save was made with the last post and succeeded.
fn ends_saved(posted: &[Entry]) -> bool
    ensures { result ≡ ends_saved posted.now }
{
    match posted.last() {
        Some(entry) => entry.saved,
        None => false,
    }
}

impl<C: Keeper> RunState<C> {
    ghost use Rattle.std.specs.Prelude.{◌≡◌, ◌+◌, ◌%◌, ◌^◌, ◌<◌, ◌≤◌, ◌==◌, ◌∷◌, [], ◌++◌, List, length, true};
    ghost use Rattle.ckpt_store.specs.Places.{IsPlace};
    ghost use Rattle.tally_desk.specs.declared.entry.Entry as model;
    ghost use Rattle.tally_desk.specs.Entries.{post_of};
    ghost use Rattle.tally_desk.specs.Homes.{HasTurned, MayTurn};
    ghost use Rattle.tally_desk.specs.Parts.{Parts};
    ghost use Rattle.tally_desk.specs.Rooms.{HasSaveRoom};
    ghost use Rattle.tally_desk.specs.Saving.{LetsSave, SavedWhereDue, AttemptedSave};

    // Saves a checkpoint of the book. Returns true if the save succeeded.
    fn save_book(&mut self) -> bool
        requires place { IsPlace self.old.place }
        requires count { self.old.failed_saves + 1 < 2 ^ 32 }
        requires room { HasSaveRoom self.old.book.total self.old.sorted self.old.room }
        requires lets { LetsSave C.state C.lets self.old }
        ensures { AttemptedSave C.state self.old self.new result }
    {
        // This call only tells the proof that the book is within its capacity.
        let _count = self.book.len();
        self.book.sorted_into(&mut self.sorted);
        let saved = save::save_with(
            &mut self.keeper,
            &mut self.place,
            &self.digest,
            self.sorted.as_slice(),
            &mut self.room,
            Some(&mut self.next.ahead),
        );
        match saved {
            Ok(()) => true,
            Err(_) => {
                self.failed_saves += 1;
                false
            }
        }
    }

    // Saves a checkpoint of the book if a save is due after this number of posts. Returns true if a save was made and
    // succeeded.
    fn save_where_due(&mut self, posts: u64) -> bool
        requires every { 1 ≤ self.old.save_every }
        requires place { IsPlace self.old.place }
        requires count { self.old.failed_saves + 1 < 2 ^ 32 }
        requires room { HasSaveRoom self.old.book.total self.old.sorted self.old.room }
        requires lets { (posts % self.old.save_every == 0) ≡ true → LetsSave C.state C.lets self.old }
        ensures { SavedWhereDue C.state posts self.old self.new result }
    {
        if posts % u64::from(self.save_every) != 0 {
            return false;
        }
        self.save_book()
    }

    /// Adds the outcome of a post, and saves a checkpoint of the book if a save is due. `todo` has the ids of the run.
    /// Returns true if a save was made and succeeded. Only the keeper may allocate.
    pub fn turn(&mut self, outcome: Outcome, todo: &[u32]) -> bool
        requires { (parts : Parts) × ((posted : List model.Entry) × MayTurn C.state C.lets parts self.old posted outcome) }
        ensures turned { (parts : Parts) (posted : List model.Entry) → MayTurn C.state C.lets parts self.old posted outcome
            → HasTurned C.state C.lets parts self.new posted outcome result }
        ensures entry { self.new.posted.items ≡ self.old.posted.items ++ post_of (length self.old.posted.items) outcome.id result ∷ [] }
    {
        let ticket = self.posted.len() as u64;
        self.book.post(outcome);
        let saved = self.save_where_due(ticket + 1);
        self.posted.push_reserved(Entry {
            ticket,
            id: outcome.id,
            saved,
        });
        self.look_ahead(ticket + 1, todo);
        saved
    }

    // Hashes a little more of the next checkpoint. If a save was due after these posts and one more will be due, starts
    // the prefix of the next checkpoint instead.
    fn look_ahead(&mut self, posts: u64, todo: &[u32])
        ensures { self.new ≡ record self.old { next = self.new.next } }
    {
        let every = u64::from(self.save_every.max(1));
        let outcomes = self.sorted.as_slice();
        if posts % every != 0 {
            self.next.go_on(outcomes);
        } else if posts.saturating_add(every) <= todo.len() as u64 {
            self.next.begin(&self.digest, self.place, outcomes, todo);
        }
    }
}
