//! The run machine, whose state has ids in place of outcomes.

ghost use Rattle.std.specs.Prelude.{◌≡◌, ◌≤◌, IfOk, slice_get};
ghost use Rattle.audit_model.specs.declared.outcome.Event.TheVariants.{Claim, Post, Save, Halt};
ghost use Rattle.audit_model.specs.Machine.{IsRun, new_machine, step};
ghost use Rattle.audit_model.specs.Limits.{most_trajectories, most_workers};

use crate::marks::{list_unmarked, mark};
use audit_model::memory::Memory;
use audit_model::outcome::{Did, Event};
use std::alloc::Global;
use std::marker::Model;

/// The state of a run of 32 workers over the ids below a total.
#[derive(Drop)]
pub struct Core {
    // The finished ids, in the order of their hand-in.
    done: Vec<u32>,
    // The number of ids that were finished when the run started.
    started: usize,
    // The number of ids that were finished at the last save.
    saved: usize,
    // For each id, true if it was finished when the run started.
    marks: Vec<bool>,
    // The ids that were pending when the run started, in rising order.
    ids: Vec<u32>,
    // The index in `ids` of the next id to claim.
    next: usize,
    // For each worker the id that it has claimed and not yet handed in.
    open_ids: [Option<u32>; 32],
}

impl Model for Core {
    ghost use Rattle.std.specs.Prelude.{length, vec_capacity};
    ghost use Rattle.audit_model.specs.Machine.{Machine};
    ghost use Rattle.run_core.specs.Kept.{machine, IsKept, HasRoom};

    ghost Value = { Machine };

    ghost view = { λ c. machine (length c.marks.items) c.started c.saved c.done.items c.next c.open_ids };

    ghost invariant = { λ c. IsKept (machine (length c.marks.items) c.started c.saved c.done.items c.next c.open_ids) c.started c.saved c.ids.items c.marks.items
        × HasRoom (length c.marks.items) (vec_capacity c.done) (vec_capacity c.ids) };
}

impl Core {
    /// Allocates a run of the ids below `total`, of which none is finished. Fails if there is no
    /// memory.
    pub fn new(alloc: Global, total: u32) -> Result<Core, Memory>
        requires { total ≤ most_trajectories }
        ensures machine { IfOk result (λ m. m ≡ new_machine total most_workers) }
        ensures sound { IfOk result IsRun }
    {
        let done = Vec::with_capacity(alloc, total as usize)?;
        let marks = vec![in alloc; false; total as usize]?;
        let mut ids = Vec::with_capacity(alloc, total as usize)?;
        list_unmarked(&mut ids, &marks);
        Ok(Core {
            done,
            started: 0,
            saved: 0,
            marks,
            ids,
            next: 0,
            open_ids: [None; 32],
        })
    }

    /// Applies one event and returns its effect.
    pub fn step(&mut self, event: Event) -> Did
        ensures answer { result ≡ (step self.old event).1 }
        ensures machine { self.new ≡ (step self.old event).0 }
        ensures sound { IsRun self.new }
    {
        match event {
            Event::Claim(worker) => self.claim(worker),
            Event::Post(worker) => self.post(worker),
            Event::Save => self.save(),
            Event::Halt => self.halt(),
        }
    }

    // Gives the next id to the worker. `Idle` means that there is no such worker, or that it has an
    // open id.
    fn claim(&mut self, worker: u32) -> Did
        ensures step { (self.new, result) ≡ step self.old (Claim worker) }
        ensures sound { IsRun self.new }
    {
        match open_id(&self.open_ids, worker) {
            None => Did::Idle,
            Some(Some(_)) => Did::Idle,
            Some(None) => {
                if self.next >= self.ids.len() {
                    return Did::Empty;
                }
                let id = self.ids[self.next];
                self.open_ids[worker as usize] = Some(id);
                self.next += 1;
                Did::Claimed(id)
            }
        }
    }

    // Appends the worker's open id to the finished ids. `Idle` means that the worker has none.
    fn post(&mut self, worker: u32) -> Did
        ensures step { (self.new, result) ≡ step self.old (Post worker) }
        ensures sound { IsRun self.new }
    {
        match open_id(&self.open_ids, worker) {
            None => Did::Idle,
            Some(None) => Did::Idle,
            Some(Some(id)) => {
                self.open_ids[worker as usize] = None;
                self.done.push_reserved(id);
                Did::Posted(id)
            }
        }
    }

    // Records that all finished ids are saved.
    fn save(&mut self) -> Did
        ensures step { (self.new, result) ≡ step self.old Save }
        ensures sound { IsRun self.new }
    {
        self.saved = self.done.len();
        Did::Saved(self.saved as u32)
    }

    // Drops the finished ids that were not saved, and starts the next run: a killed process loses
    // them.
    fn halt(&mut self) -> Did
        ensures step { (self.new, result) ≡ step self.old Halt }
        ensures sound { IsRun self.new }
    {
        mark(&mut self.marks, &self.done[self.started..self.saved]);
        list_unmarked(&mut self.ids, &self.marks);
        self.done.truncate(self.saved);
        self.started = self.saved;
        self.next = 0;
        self.open_ids = [None; 32];
        Did::Halted
    }

    /// Returns the finished ids, in the order of their hand-in.
    pub fn done(&self) -> &[u32]
        ensures done { result.now ≡ self.now.done }
        ensures sound { IsRun self.now }
    {
        self.done.as_slice()
    }

    /// Returns the saved ids, in the order of their hand-in.
    pub fn saved(&self) -> &[u32]
        ensures saved { result.now ≡ self.now.saved }
        ensures sound { IsRun self.now }
    {
        &self.done[..self.saved]
    }
}

// Returns the worker's open id. The outer `None` means that there is no such worker, the inner one
// that it has no open id.
fn open_id(open_ids: &[Option<u32>], worker: u32) -> Option<Option<u32>>
    ensures { result ≡ slice_get open_ids.now worker }
{
    open_ids.get(worker as usize).copied()
}
