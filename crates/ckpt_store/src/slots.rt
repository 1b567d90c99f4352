//! The states of both slots for a job.

ghost use Rattle.std.specs.Prelude.{◌≡◌, ◌<◌, Some, None, MatchResult};
ghost use Rattle.audit_statement.specs.Slots as definition;
ghost use Rattle.ckpt_store.specs.View.{newest_outcomes_seen, newest_answer, newest_seen, is_absent, opened, outcomes_if_any, place_seen, slot_view, without_valid};

use audit_model::fault::CkptFault;
use audit_model::place::Place;
use ckpt_format::decode::Checkpoint;

/// The state of a slot for a job. The slot is *valid* if its state is `Other` or `Ours`.
pub enum Slot {
    /// The slot is empty.
    Absent,
    /// The bytes are no checkpoint, or a checkpoint of this job with an outcome that is not plausible. The fault says
    /// why; it is `TooLong` if there are more bytes than in any checkpoint.
    Broken(CkptFault),
    /// The bytes are a checkpoint of another job, whose digest is `found`.
    Other { found: [u8; 32], generation: u8 },
    /// The bytes are a checkpoint of this job, and all outcomes are plausible.
    Ours(Checkpoint),
}

/// Drops the value of a variant. Written by hand so that a caller's proof has one call here, not one step per variant.
impl Drop for Slot {
    fn drop(self) {
        match self {
            Slot::Absent => {}
            Slot::Broken(_fault) => {}
            Slot::Other {
                found: _,
                generation: _,
            } => {}
            Slot::Ours(_checkpoint) => {}
        }
    }
}

/// The states of both slots for a job.
#[derive(Drop)]
pub struct Slots {
    pub zero: Slot,
    pub one: Slot,
}

/// The reason why a run cannot take a checkpoint from the slots.
#[derive(Drop)]
pub enum StoreFault {
    /// No slot is valid, and at least one is not empty.
    Damaged(Slots),
    /// The newest checkpoint belongs to the job with the digest `found`, not to the job with the digest `wanted`.
    OtherJob { found: [u8; 32], wanted: [u8; 32] },
}

/// Returns the generation after this one: 0, 1 and 2 follow each other, and 0 follows 2.
pub(crate) fn generation_after(generation: u8) -> u8
    ensures next { result ≡ definition.generation_after (Some generation) }
    ensures below { result < 3 }
{
    ((u16::from(generation) + 1) % 3) as u8
}

impl Slot {
    /// Returns the generation of the slot's checkpoint, if the slot is valid.
    fn generation(&self) -> Option<u8>
        ensures { result ≡ definition.generation_of (slot_view self.now) }
    {
        match self {
            Slot::Absent | Slot::Broken(_) => None,
            Slot::Other { generation, .. } => Some(*generation),
            Slot::Ours(checkpoint) => Some(checkpoint.generation),
        }
    }

    fn is_absent(&self) -> bool
        ensures { result ≡ is_absent self.now }
    {
        match self {
            Slot::Absent => true,
            Slot::Broken(_) | Slot::Other { .. } | Slot::Ours(_) => false,
        }
    }

    /// Returns the slot's checkpoint if it is this job's, and `None` if the slot is not valid. Returns the error
    /// `OtherJob` for a checkpoint of another job. `wanted` is the digest of this job.
    fn checkpoint_of(self, wanted: &[u8; 32]) -> Result<Option<Checkpoint>, StoreFault>
        ensures { result ≡ opened self wanted.now }
    {
        match self {
            Slot::Absent | Slot::Broken(_) => Ok(None),
            Slot::Other { found, .. } => Err(StoreFault::OtherJob {
                found,
                wanted: *wanted,
            }),
            Slot::Ours(checkpoint) => Ok(Some(checkpoint)),
        }
    }
}

impl Slots {
    /// Returns the number of the newest slot, or `None` if no slot is valid. If both slots are valid, slot 1 is the
    /// newest if its generation follows that of slot 0. Otherwise slot 0 is the newest.
    fn newest_number(&self) -> Option<u8>
        ensures { result ≡ newest_seen self.now }
    {
        match (self.zero.generation(), self.one.generation()) {
            (None, None) => None,
            (None, Some(_)) => Some(1),
            (Some(_), None) => Some(0),
            (Some(zero), Some(one)) => Some(u8::from(one == generation_after(zero))),
        }
    }

    /// Returns the slot and generation of the next checkpoint: the slot that is not the newest, and the generation
    /// after that of the newest slot. If no slot is valid, these are slot 0 and generation 0.
    pub fn place(&self) -> Place
        ensures place { (result.slot, result.generation) ≡ place_seen self.now }
        ensures slot { result.slot < 2 }
        ensures generation { result.generation < 3 }
    {
        match self.newest_number() {
            None => Place {
                slot: 0,
                generation: 0,
            },
            Some(0) => place_in_other_slot(1, &self.zero),
            Some(_) => place_in_other_slot(0, &self.one),
        }
    }

    /// Returns the checkpoint of the newest slot, or `None` if both slots are empty. `wanted` is the digest of the job.
    ///
    /// # Errors
    ///
    /// - `Damaged`: no slot is valid, and at least one is not empty.
    /// - `OtherJob`: the newest checkpoint is another job's.
    pub fn newest(self, wanted: &[u8; 32]) -> Result<Option<Checkpoint>, StoreFault>
        ensures answer { result ≡ newest_answer self wanted.now }
        ensures content { MatchResult result (λ c. newest_outcomes_seen self ≡ Some (outcomes_if_any c)) (λ _. newest_outcomes_seen self ≡ None) }
    {
        match self.newest_number() {
            None => self.without_valid(),
            Some(0) => self.zero.checkpoint_of(wanted),
            Some(_) => self.one.checkpoint_of(wanted),
        }
    }

    /// Does the part of [`Slots::newest`] for slots of which none is valid.
    fn without_valid(self) -> Result<Option<Checkpoint>, StoreFault>
        ensures { result ≡ without_valid self }
    {
        if self.zero.is_absent() && self.one.is_absent() {
            Ok(None)
        } else {
            Err(StoreFault::Damaged(self))
        }
    }
}

/// Returns the place in `slot` with the generation after that of `newest`. `newest` is the other slot, and is valid.
fn place_in_other_slot(slot: u8, newest: &Slot) -> Place
    ensures place { result ≡ record { slot = slot; generation = definition.generation_after (definition.generation_of (slot_view newest.now)) } }
    ensures generation { result.generation < 3 }
{
    Place {
        slot,
        generation: newest.generation().map_or(0, generation_after),
    }
}
