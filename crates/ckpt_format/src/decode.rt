//! Decoding a checkpoint.

ghost use Rattle.std.specs.Prelude.{◌≡◌, ◌≤◌, ◌⊎◌, Err, None, Some, length, IfOk, IfErr, IfSome, OnOk};
ghost use Rattle.audit_model.specs.Below.{map_below};
ghost use Rattle.audit_model.specs.declared.fault.CkptFault.TheVariants as fault;
ghost use Rattle.audit_statement.specs.Checkpoint.{IsCheckpoint, checkpoint_fault, outcome_start};
ghost use Rattle.audit_statement.specs.Slots.{outcome_in};

use crate::fault::fault_of;
use crate::places::{COUNT, DIGEST, GENERATION, VERSION, array_at, outcome_in, u32_at};
use audit_model::buffers::OutcomeList;
use audit_model::fault::CkptFault;
use audit_model::memory::Memory;
use std::alloc::Global;

/// A decoded checkpoint: the version of its format, the digest of its job, its generation, and its outcomes by rising
/// id. In the first version all histograms are 0.
#[derive(Drop)]
pub struct Checkpoint {
    pub version: u32,
    pub digest: [u8; 32],
    pub generation: u8,
    pub outcomes: OutcomeList,
}

/// Decodes a checkpoint.
///
/// # Errors
///
/// The first of these faults, in this order:
///
/// - `TooShort`: there are fewer than 84 bytes, the size of a checkpoint without outcomes.
/// - `BadMagic`: the bytes do not begin with the format's name.
/// - `BadVersion`: the version is neither 1 nor 2.
/// - `BadGeneration`: the generation is above 2.
/// - `BadCount`: there are more than 100,000 outcomes, or their number does not fit the number of bytes.
/// - `BadOrder`: the ids do not rise. It gives the index of the first outcome whose id is not above the id before it.
/// - `BadDigest`: the last 32 bytes are not the SHA-256 of all bytes before them.
/// - `Memory`: the bytes are a checkpoint, but there is no memory for its outcomes.
pub fn decode(alloc: Global, bytes: &[u8]) -> Result<Checkpoint, CkptFault>
    ensures ok { IfOk result (λ c. IsCheckpoint bytes.now c.version c.digest c.generation c.outcomes.items) }
    ensures faultless { OnOk result (checkpoint_fault bytes.now ≡ None) }
    ensures err { IfErr result (λ f. (f ≡ fault.Memory) ⊎ (checkpoint_fault bytes.now ≡ Some f)) }
    ensures refused { IfSome (checkpoint_fault bytes.now) (λ f. result ≡ Err f) }
{
    match fault_of(bytes) {
        Some(fault) => Err(fault),
        None => read(alloc, bytes),
    }
}

/// Reads a checkpoint from bytes without a fault.
fn read(alloc: Global, bytes: &[u8]) -> Result<Checkpoint, CkptFault>
    requires { checkpoint_fault bytes.now ≡ None }
    ensures ok { IfOk result (λ c. IsCheckpoint bytes.now c.version c.digest c.generation c.outcomes.items) }
    ensures err { IfErr result (λ f. f ≡ fault.Memory) }
{
    let outcomes = outcomes_in(alloc, bytes, u32_at(bytes, COUNT))?;
    Ok(Checkpoint {
        version: u32_at(bytes, VERSION),
        digest: array_at(bytes, DIGEST),
        generation: u32_at(bytes, GENERATION) as u8,
        outcomes,
    })
}

fn outcomes_in(alloc: Global, bytes: &[u8], count: u32) -> Result<OutcomeList, Memory>
    requires { outcome_start bytes.now count ≤ length bytes.now }
    ensures { IfOk result (λ l. l.items ≡ map_below count (outcome_in bytes.now)) }
{
    let mut outcomes = OutcomeList::with_room(alloc, count as usize)?;
    for place in 0..count {
        outcomes.push(outcome_in(bytes, place))?;
    }
    Ok(outcomes)
}
