//! The state of a slot for a job, decoded from the slot's bytes.

ghost use Rattle.std.specs.Prelude.{◌≡◌, ◌≤◌, Some, IfOk, OnOk, length, map};
ghost use Rattle.audit_model.specs.declared.fault.CkptFault.TheVariants as variant;
ghost use Rattle.audit_statement.specs.Checkpoint.{AreRising};
ghost use Rattle.audit_statement.specs.Slots.{checkpoint_limit, slot_of};
ghost use Rattle.ckpt_store.specs.Fitting.{HasFitOutcomes, slot_judged};
ghost use Rattle.ckpt_store.specs.Looked.{IsByBytes};
ghost use Rattle.ckpt_store.specs.View.{slot_view};
ghost use Rattle.audit_model.specs.Limits.{most_trajectories};

use crate::fitting::first_unfit;
use crate::slots::Slot;
use audit_model::fault::CkptFault;
use audit_model::memory::Memory;
use ckpt_format::decode::{Checkpoint, decode};
use plan_core::job::Job;
use std::alloc::Global;

/// Decodes the bytes of a slot, and returns the slot's state for the job with this digest.
///
/// # Errors
///
/// Out of memory for the outcomes of a checkpoint.
pub fn judge_bytes(
    alloc: Global,
    job: &Job,
    digest: &[u8; 32],
    bytes: &[u8],
) -> Result<Slot, Memory>
    requires { length bytes.now ≤ checkpoint_limit }
    ensures slot { IfOk result (λ s. slot_view s ≡ slot_of job.now digest.now (Some bytes.now)) }
    ensures sound { IfOk result (λ s. HasFitOutcomes job.now s) }
    ensures by_bytes { IfOk result IsByBytes }
{
    match decode(alloc, bytes) {
        Ok(checkpoint) => Ok(judge(job, digest, checkpoint)),
        Err(fault) => broken_slot(fault),
    }
}

/// Returns a broken slot with this fault. Returns an error if the fault is `CkptFault::Memory`,
/// because the slot's bytes may then be a checkpoint.
fn broken_slot(fault: CkptFault) -> Result<Slot, Memory>
    ensures slot { IfOk result (λ s. s ≡ Slot.Broken fault) }
    ensures known { OnOk result (fault ≡ variant.Memory → ⊥) }
    ensures by_bytes { IfOk result IsByBytes }
{
    match fault {
        CkptFault::Memory => Err(Memory),
        fault => Ok(Slot::Broken(fault)),
    }
}

/// Returns the state of a slot with this checkpoint, for the job with this digest. The state is
/// `Broken` if the checkpoint is this job's and an outcome is not plausible.
fn judge(job: &Job, digest: &[u8; 32], checkpoint: Checkpoint) -> Slot
    requires few { length checkpoint.outcomes.items ≤ most_trajectories }
    requires rising { AreRising (map (λ o. o.id) checkpoint.outcomes.items) }
    ensures slot { slot_view result ≡ slot_judged job.now digest.now checkpoint }
    ensures sound { HasFitOutcomes job.now result }
    ensures by_bytes { IsByBytes result }
{
    if checkpoint.digest != *digest {
        return Slot::Other {
            found: checkpoint.digest,
            generation: checkpoint.generation,
        };
    }
    match first_unfit(job, checkpoint.outcomes.as_slice()) {
        Some(place) => Slot::Broken(CkptFault::Unfit(place)),
        None => Slot::Ours(checkpoint),
    }
}
