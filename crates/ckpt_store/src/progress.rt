//! The progress of a job: the number of its outcomes in the newest slot.

ghost use Rattle.std.specs.Prelude.{◌≡◌, ℕ, List, Option, IfOk};
ghost use Rattle.audit_statement.specs.Slots.{slot_of};
ghost use Rattle.ckpt_store.specs.Holding.{IsLoadedFrom};
ghost use Rattle.ckpt_store.specs.View.{slot_view};
ghost use Rattle.ckpt_store.specs.Progress as definition;

use crate::judge::judge_bytes;
use crate::slot_content::{LIMIT, Loaded};
use crate::slots::{Slot, Slots, StoreFault};
use audit_model::fault::CkptFault;
use audit_model::memory::Memory;
use ckpt_format::decode::Checkpoint;
use ckpt_format::digest::job_digest;
use plan_core::job::Job;
use std::alloc::Global;

/// The progress of a job, or the reason why the slots show none.
#[derive(Clone, Copy)]
pub enum Progress {
    /// The number of the job's outcomes in the newest slot, or 0 if both slots are empty.
    Done(u64),
    /// The newest checkpoint is another job's.
    OtherJob,
    /// No slot is valid, and at least one is not empty.
    Damaged,
}

// Returns the state of a loaded slot for the job with this digest. Fails if there is no memory.
fn slot_for(alloc: Global, job: &Job, digest: &[u8; 32], loaded: &Loaded) -> Result<Slot, Memory>
    ensures { IfOk result (λ s. (slot : Option (List ℕ)) → IsLoadedFrom loaded.now slot → slot_view s ≡ slot_of job.now digest.now slot) }
{
    match loaded {
        Loaded::Absent => Ok(Slot::Absent),
        Loaded::Long => Ok(Slot::Broken(CkptFault::TooLong(LIMIT))),
        Loaded::Bytes(bytes) => {
            // Never true for bytes from `load_slot`. For a slot with more bytes, that function returns `Long`.
            if bytes.len() as u64 > LIMIT {
                return Ok(Slot::Broken(CkptFault::TooLong(LIMIT)));
            }
            judge_bytes(alloc, job, digest, bytes.as_slice())
        }
    }
}

// Returns the progress that the result of `Slots::newest` shows.
fn progress_by(answer: Result<Option<Checkpoint>, StoreFault>) -> Progress
    ensures { result ≡ definition.progress_by answer }
{
    match answer {
        Ok(None) => Progress::Done(0),
        Ok(Some(checkpoint)) => Progress::Done(checkpoint.outcomes.len() as u64),
        Err(StoreFault::Damaged(_)) => Progress::Damaged,
        Err(StoreFault::OtherJob { .. }) => Progress::OtherJob,
    }
}

/// Returns the progress of the job from its two loaded slots. Fails if there is no memory.
pub fn progress_of(
    alloc: Global,
    job: &Job,
    zero: &Loaded,
    one: &Loaded,
) -> Result<Progress, Memory>
    ensures { IfOk result (λ p. (first second : Option (List ℕ)) → IsLoadedFrom zero.now first → IsLoadedFrom one.now second → p ≡ definition.progress job.now first second) }
{
    let digest = job_digest(job);
    let first = slot_for(alloc, job, &digest, zero)?;
    let second = slot_for(alloc, job, &digest, one)?;
    let slots = Slots {
        zero: first,
        one: second,
    };
    Ok(progress_by(slots.newest(&digest)))
}
