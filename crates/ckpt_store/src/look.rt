//! Loading both slots of a keeper and decoding them.

ghost use Rattle.std.specs.Prelude.{◌≡◌, ◌<◌, ◌≤◌, IfErr, IfOk, length};
ghost use Rattle.audit_model.specs.Pair.{stored_if};
ghost use Rattle.audit_statement.specs.Slots.{checkpoint_limit, slot_of};
ghost use Rattle.ckpt_store.specs.declared.look.LookFault.TheVariants as fault;
ghost use Rattle.ckpt_store.specs.Fitting.{HasFitOutcomes};
ghost use Rattle.ckpt_store.specs.Looked.{HasLookCause, IsByBytes, SawSlot, SawSlots, unloaded};
ghost use Rattle.ckpt_store.specs.View.{slot_view};

use crate::judge::judge_bytes;
use crate::slots::{Slot, Slots};
use audit_io::keeper::{Keeper, LoadError};
use audit_model::buffers::Bytes;
use audit_model::fault::CkptFault;
use audit_model::memory::Memory;
use plan_core::job::Job;
use std::alloc::Global;

/// The largest number of bytes of a checkpoint.
const LIMIT: u64 = 8_000_084;

/// The reason why the slots could not be loaded and decoded.
#[derive(Clone, Copy)]
pub enum LookFault {
    /// The keeper failed to load a slot.
    Failed,
    /// The keeper failed to load a slot because another process has locked the slots.
    Taken,
    /// Out of memory for a slot's bytes or its outcomes.
    Memory,
}

impl From<Memory> for LookFault {
    ghost from_gives = { λ _ f. f ≡ fault.Memory };

    fn from(_: Memory) -> LookFault {
        LookFault::Memory
    }
}

/// Loads both slots, slot 0 first, and returns their states for the job with this digest. No slot is changed.
///
/// The contract of a keeper may leave open which bytes the slots hold. Then the contract of `look` says only that the
/// returned states are those of bytes that the slots may hold by the keeper's contract.
///
/// # Errors
///
/// - `Failed`: the keeper failed to load a slot.
/// - `Taken`: the keeper failed because another process has locked the slots.
/// - `Memory`: out of memory for a slot's bytes or for the outcomes of its checkpoint.
pub fn look<C: Keeper>(
    alloc: Global,
    keeper: &mut C,
    job: &Job,
    digest: &[u8; 32],
    room: &mut Bytes,
) -> Result<Slots, LookFault>
    ensures saw { IfOk result (SawSlots job.now digest.now (C.state keeper.old).slots) }
    ensures sound { IfOk result (λ s. HasFitOutcomes job.now s.zero × HasFitOutcomes job.now s.one) }
    ensures by_bytes { IfOk result (λ s. IsByBytes s.zero × IsByBytes s.one) }
    ensures slots { (C.state keeper.new).slots ≡ (C.state keeper.old).slots }
    ensures cause { HasLookCause (C.state keeper.old).load_faults (C.state keeper.new).load_faults result }
    ensures saves { (C.state keeper.new).save_faults ≡ (C.state keeper.old).save_faults }
    ensures attempted { (C.state keeper.new).attempted ≡ (C.state keeper.old).attempted }
{
    let zero = look_at(alloc, keeper, 0, job, digest, room)?;
    let one = look_at(alloc, keeper, 1, job, digest, room)?;
    Ok(Slots { zero, one })
}

/// Loads one slot and returns its state for the job with this digest.
fn look_at<C: Keeper>(
    alloc: Global,
    keeper: &mut C,
    slot: u8,
    job: &Job,
    digest: &[u8; 32],
    room: &mut Bytes,
) -> Result<Slot, LookFault>
    requires { slot < 2 }
    ensures saw { IfOk result (SawSlot job.now digest.now (C.state keeper.old).slots slot) }
    ensures sound { IfOk result (λ s. HasFitOutcomes job.now s) }
    ensures by_bytes { IfOk result IsByBytes }
    ensures slots { (C.state keeper.new).slots ≡ (C.state keeper.old).slots }
    ensures cause { HasLookCause (C.state keeper.old).load_faults (C.state keeper.new).load_faults result }
    ensures saves { (C.state keeper.new).save_faults ≡ (C.state keeper.old).save_faults }
    ensures attempted { (C.state keeper.new).attempted ≡ (C.state keeper.old).attempted }
{
    match keeper.load(slot, LIMIT, room) {
        Ok(found) => judge_loaded(alloc, job, digest, found, room.as_slice()),
        Err(error) => slot_of_load_error(error),
    }
}

/// Returns the state of a slot whose load succeeded. `found` is false if the slot is empty, and `bytes` are its bytes
/// otherwise.
fn judge_loaded(
    alloc: Global,
    job: &Job,
    digest: &[u8; 32],
    found: bool,
    bytes: &[u8],
) -> Result<Slot, LookFault>
    requires { length bytes.now ≤ checkpoint_limit }
    ensures slot { IfOk result (λ s. slot_view s ≡ slot_of job.now digest.now (stored_if found bytes.now)) }
    ensures sound { IfOk result (λ s. HasFitOutcomes job.now s) }
    ensures by_bytes { IfOk result IsByBytes }
    ensures err { IfErr result (λ e. e ≡ LookFault.Memory) }
{
    if !found {
        return Ok(Slot::Absent);
    }
    Ok(judge_bytes(alloc, job, digest, bytes)?)
}

/// Returns the state of a slot whose load failed. A slot with too many bytes is broken, and any other failure is an
/// error.
fn slot_of_load_error(error: LoadError) -> Result<Slot, LookFault>
    ensures { result ≡ unloaded error }
{
    match error {
        LoadError::Failed => Err(LookFault::Failed),
        LoadError::Taken => Err(LookFault::Taken),
        LoadError::Long(limit) => Ok(Slot::Broken(CkptFault::TooLong(limit))),
        LoadError::Memory => Err(LookFault::Memory),
    }
}
