//! The content of a slot, whatever job the checkpoint belongs to. Also which of two slots is the newest.

ghost use Rattle.std.specs.Prelude.{◌≡◌, ◌<◌, ℕ, List, Option, Some, IfOk, OnOk};
ghost use Rattle.audit_model.specs.declared.fault.CkptFault.TheVariants as variant;
ghost use Rattle.ckpt_store.specs.Holding.{HasLoaded, Holds, HoldsStored, IsLoadedFrom, generation_in, newest_in};
ghost use Rattle.ckpt_store.specs.Looked.{HasLookCause};

use crate::look::LookFault;
use crate::slots::generation_after;
use audit_io::keeper::{Keeper, LoadError};
use audit_model::buffers::Bytes;
use audit_model::fault::CkptFault;
use audit_model::memory::Memory;
use ckpt_format::decode::{Checkpoint, decode};
use std::alloc::Global;

/// The largest number of bytes of a checkpoint.
pub const LIMIT: u64 = 8_000_084;

/// The content of a slot, whatever job the checkpoint belongs to.
#[derive(Drop)]
pub enum SlotContent {
    /// The slot is empty.
    Absent,
    /// The bytes are no checkpoint. The fault says why; it is `TooLong` if there are more bytes than in any checkpoint.
    Broken(CkptFault),
    /// The bytes are a checkpoint.
    Whole(Checkpoint),
}

/// The result of loading a slot.
#[derive(Drop)]
pub enum Loaded {
    /// The slot is empty.
    Absent,
    /// The slot has more bytes than a checkpoint can have.
    Long,
    /// The bytes of the slot.
    Bytes(Bytes),
}

/// Loads a slot. If the slot has too many bytes, returns `Loaded::Long` and no error.
///
/// # Errors
///
/// - `Failed`: the keeper failed to load the slot.
/// - `Taken`: the keeper failed because another process has locked the slots.
/// - `Memory`: out of memory for the bytes.
pub fn load_slot<C: Keeper>(alloc: Global, keeper: &mut C, slot: u8) -> Result<Loaded, LookFault>
    requires { slot < 2 }
    ensures loaded { IfOk result (HasLoaded (C.state keeper.old).slots slot) }
    ensures slots { (C.state keeper.new).slots ≡ (C.state keeper.old).slots }
    ensures cause { HasLookCause (C.state keeper.old).load_faults (C.state keeper.new).load_faults result }
    ensures saves { (C.state keeper.new).save_faults ≡ (C.state keeper.old).save_faults }
    ensures attempted { (C.state keeper.new).attempted ≡ (C.state keeper.old).attempted }
{
    let mut room = Bytes::new(alloc);
    match keeper.load(slot, LIMIT, &mut room) {
        Ok(true) => Ok(Loaded::Bytes(room)),
        Ok(false) => Ok(Loaded::Absent),
        Err(LoadError::Long(_)) => Ok(Loaded::Long),
        Err(LoadError::Failed) => Err(LookFault::Failed),
        Err(LoadError::Taken) => Err(LookFault::Taken),
        Err(LoadError::Memory) => Err(LookFault::Memory),
    }
}

/// Returns the content of a loaded slot: nothing, a checkpoint, or bytes that are no checkpoint.
///
/// # Errors
///
/// Out of memory for the outcomes of a checkpoint.
pub fn content_of(alloc: Global, loaded: &Loaded) -> Result<SlotContent, Memory>
    ensures { IfOk result (λ h. (slot : Option (List ℕ)) → IsLoadedFrom loaded.now slot → HoldsStored slot h) }
{
    match loaded {
        Loaded::Absent => Ok(SlotContent::Absent),
        Loaded::Long => Ok(SlotContent::Broken(CkptFault::TooLong(LIMIT))),
        Loaded::Bytes(bytes) => content_of_bytes(alloc, bytes.as_slice()),
    }
}

/// Returns the content of a slot with these bytes.
fn content_of_bytes(alloc: Global, bytes: &[u8]) -> Result<SlotContent, Memory>
    ensures { IfOk result (Holds bytes.now) }
{
    if bytes.len() as u64 > LIMIT {
        return Ok(SlotContent::Broken(CkptFault::TooLong(LIMIT)));
    }
    match decode(alloc, bytes) {
        Ok(checkpoint) => Ok(SlotContent::Whole(checkpoint)),
        Err(fault) => broken_content(fault),
    }
}

/// Returns a broken slot with this fault. Returns an error if the fault is `CkptFault::Memory`, because the slot's
/// bytes may then be a checkpoint.
fn broken_content(fault: CkptFault) -> Result<SlotContent, Memory>
    ensures slot { IfOk result (λ h. h ≡ SlotContent.Broken fault) }
    ensures known { OnOk result (fault ≡ variant.Memory → ⊥) }
{
    match fault {
        CkptFault::Memory => Err(Memory),
        fault => Ok(SlotContent::Broken(fault)),
    }
}

impl SlotContent {
    /// Returns the generation of the slot's checkpoint, if there is one.
    fn generation(&self) -> Option<u8>
        ensures { result ≡ generation_in self.now }
    {
        match self {
            SlotContent::Absent | SlotContent::Broken(_) => None,
            SlotContent::Whole(checkpoint) => Some(checkpoint.generation),
        }
    }
}

/// Returns the number of the newest slot, or `None` if neither slot holds a checkpoint. If both slots hold one, slot 1
/// is the newest if its generation follows that of slot 0. Otherwise slot 0 is the newest.
///
/// The result is for no particular job. For a job, another slot may be the newest: if a slot holds a checkpoint of the
/// job with an implausible outcome, the slot is broken for this job, but not here.
pub fn newest(zero: &SlotContent, one: &SlotContent) -> Option<u8>
    ensures { result ≡ newest_in zero.now one.now }
{
    match (zero.generation(), one.generation()) {
        (None, None) => None,
        (None, Some(_)) => Some(1),
        (Some(_), None) => Some(0),
        (Some(zero), Some(one)) => Some(u8::from(one == generation_after(zero))),
    }
}
