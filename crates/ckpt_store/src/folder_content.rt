//! The outcomes of a job in the slots of a folder.

ghost use Rattle.std.specs.Prelude.{◌≡◌, ◌||◌};
ghost use Rattle.ckpt_store.specs.Fitting.{HasFitOutcomes};
ghost use Rattle.ckpt_store.specs.View.{newest_seen, slot_view};
ghost use Rattle.ckpt_store.specs.Fit.{IsFitGiven};
ghost use Rattle.ckpt_store.specs.Gives.{given_view, is_broken, slots_give};

use crate::slots::{Slot, Slots, StoreFault};
use audit_model::buffers::OutcomeList;
use plan_core::job::Job;

/// The outcomes of a job in the newest slot of a folder, or the reason why there are none.
#[derive(Drop)]
pub enum FolderContent {
    /// The outcomes of the newest checkpoint, which belongs to this job.
    Outcomes(OutcomeList),
    /// Both slots are empty.
    Nothing,
    /// The newest checkpoint is another job's.
    OtherJob,
    /// No slot is valid, and at least one is not empty.
    Damaged,
}

/// Returns the outcomes of the newest of two slots, or the reason why there are none.
pub fn newest_content(job: &Job, digest: &[u8; 32], slots: Slots) -> FolderContent
    requires zero { HasFitOutcomes job.now slots.zero }
    requires one { HasFitOutcomes job.now slots.one }
    ensures fit { IsFitGiven job.now result }
    ensures given { given_view result ≡ slots_give (slot_view slots.zero) (slot_view slots.one) (newest_seen slots) }
{
    match slots.newest(digest) {
        Ok(None) => FolderContent::Nothing,
        Ok(Some(checkpoint)) => FolderContent::Outcomes(checkpoint.outcomes),
        Err(StoreFault::Damaged(_)) => FolderContent::Damaged,
        Err(StoreFault::OtherJob { .. }) => FolderContent::OtherJob,
    }
}

/// Returns true if at least one of the slots is broken.
pub fn has_broken(slots: &Slots) -> bool
    ensures { result ≡ (is_broken (slot_view slots.now.zero) || is_broken (slot_view slots.now.one)) }
{
    is_broken(&slots.zero) || is_broken(&slots.one)
}

fn is_broken(slot: &Slot) -> bool
    ensures { result ≡ is_broken (slot_view slot.now) }
{
    match slot {
        Slot::Broken(_) => true,
        Slot::Absent | Slot::Other { .. } | Slot::Ours(_) => false,
    }
}
