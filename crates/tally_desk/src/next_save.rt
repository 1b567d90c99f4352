//! Hashes the next checkpoint ahead of time, a little with each post. A save then takes less time, and the workers that
//! wait for it wait less.

use audit_model::memory::Memory;
use audit_model::outcome::Outcome;
use audit_model::place::Place;
use ckpt_format::ahead::Ahead;
use std::alloc::Global;

/// The largest number of outcomes hashed with one post. If more would be necessary, nothing is hashed ahead: saves are
/// then so frequent that hashing ahead would not make workers wait less.
const MOST_EACH: usize = 32;

/// The prefix of the next checkpoint: the outcomes of the last checkpoint with ids below the least id that is pending.
/// These outcomes come first in the next checkpoint too.
///
/// Nothing is proved of the prefix. If the prefix is wrong, the whole checkpoint is hashed when it is saved, which only
/// costs time.
#[derive(Drop)]
pub(crate) struct NextSave {
    pub(crate) ahead: Ahead,
    save_every: u32,
    sure: usize,
    taken: usize,
    each: usize,
}

impl NextSave {
    /// Makes an empty prefix, with capacity for a checkpoint of `bytes` bytes. Fails if there is no memory. The other
    /// calls allocate nothing.
    pub fn with_room(alloc: Global, save_every: u32, bytes: usize) -> Result<NextSave, Memory> {
        Ok(NextSave {
            ahead: Ahead::with_room(alloc, bytes)?,
            save_every,
            sure: 0,
            taken: 0,
            each: 0,
        })
    }

    /// Starts the checkpoint that the next save writes to this place. `outcomes` has the outcomes of the last save
    /// attempt by rising id, and `todo` has all ids that the run walks, by rising id.
    pub fn begin(&mut self, digest: &[u8; 32], place: Place, outcomes: &[Outcome], todo: &[u32]) {
        let count = outcomes.len().saturating_add(self.save_every as usize);
        self.ahead.begin(
            digest,
            place.generation,
            count.min(u32::MAX as usize) as u32,
        );
        let sure = count_sure(outcomes, todo);
        self.each = (sure / self.save_every.max(1) as usize).saturating_add(1);
        self.sure = if self.each <= MOST_EACH { sure } else { 0 };
        self.taken = 0;
    }

    /// Hashes the next few outcomes of the prefix. `outcomes` are those of the last checkpoint.
    pub fn go_on(&mut self, outcomes: &[Outcome]) {
        let end = self.sure.min(outcomes.len());
        for _ in 0..self.each {
            if self.taken >= end {
                return;
            }
            self.ahead.go_on(&outcomes[self.taken]);
            self.taken += 1;
        }
    }
}

// Returns the number of outcomes whose ids are below the first id of `todo` without an outcome.
fn count_sure(outcomes: &[Outcome], todo: &[u32]) -> usize {
    let mut done = 0;
    for (place, outcome) in outcomes.iter().enumerate() {
        if done < todo.len() && todo[done] < outcome.id {
            return place;
        }
        if done < todo.len() && todo[done] == outcome.id {
            done += 1;
        }
    }
    outcomes.len()
}
