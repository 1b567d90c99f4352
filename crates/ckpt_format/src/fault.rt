//! The faults of bytes that are no checkpoint.

ghost use Rattle.std.specs.Prelude.{◌≡◌, ◌+◌, ◌≤◌, length};
ghost use Rattle.audit_model.specs.First.{first_below};
ghost use Rattle.audit_statement.specs.Checkpoint.{checkpoint_fault, outcome_start, stated_id, empty_length};
ghost use Rattle.ckpt_format.specs.Faults.{outcome_count_fault, order_fault, digest_fault, head_fault, is_unordered};

use crate::encode::MAGIC;
use crate::places::{COUNT, GENERATION, VERSION, array_at, outcome_size, outcome_start, u32_at};
use audit_model::fault::CkptFault;
use sha2::{Digest, Sha256};

/// Returns the first fault of the bytes, or `None` if they are a checkpoint. Allocates nothing.
pub(crate) fn fault_of(bytes: &[u8]) -> Option<CkptFault>
    ensures { result ≡ checkpoint_fault bytes.now }
{
    if bytes.len() < 84 {
        return Some(CkptFault::TooShort(bytes.len() as u64));
    }
    match head_fault(bytes) {
        Some(fault) => Some(fault),
        None => match order_fault(bytes, u32_at(bytes, COUNT)) {
            Some(fault) => Some(fault),
            None => digest_fault(bytes),
        },
    }
}

/// Returns the first fault of the head, which comes before the outcomes.
fn head_fault(bytes: &[u8]) -> Option<CkptFault>
    requires { empty_length ≤ length bytes.now }
    ensures { result ≡ head_fault bytes.now }
{
    if array_at(bytes, 0) != MAGIC {
        return Some(CkptFault::BadMagic);
    }
    let version = u32_at(bytes, VERSION);
    if version != 1 && version != 2 {
        return Some(CkptFault::BadVersion(version));
    }
    let generation = u32_at(bytes, GENERATION);
    if generation > 2 {
        return Some(CkptFault::BadGeneration(generation));
    }
    count_fault(version, u32_at(bytes, COUNT), bytes.len() as u64)
}

/// Returns `BadCount` if there are more than 100,000 outcomes, or if their number does not fit the
/// number of bytes.
fn count_fault(version: u32, count: u32, length: u64) -> Option<CkptFault>
    ensures { result ≡ outcome_count_fault version count length }
{
    if count > 100_000 || length != 84 + outcome_size(version) as u64 * u64::from(count) {
        Some(CkptFault::BadCount { count, length })
    } else {
        None
    }
}

fn order_fault(bytes: &[u8], count: u32) -> Option<CkptFault>
    requires { outcome_start bytes.now count ≤ length bytes.now }
    ensures { result ≡ order_fault bytes.now count }
{
    first_unordered(bytes, count).map(CkptFault::BadOrder)
}

/// Returns the index of the first outcome whose id is not above the id before it.
fn first_unordered(bytes: &[u8], count: u32) -> Option<u32>
    requires { outcome_start bytes.now count ≤ length bytes.now }
    ensures { result ≡ first_below count (is_unordered bytes.now) }
{
    for place in 1..count {
        if id_at(bytes, place) <= id_at(bytes, place - 1) {
            return Some(place);
        }
    }
    None
}

fn id_at(bytes: &[u8], place: u32) -> u32
    requires { outcome_start bytes.now (place + 1) ≤ length bytes.now }
    ensures { result ≡ stated_id bytes.now place }
{
    u32_at(bytes, outcome_start(bytes, place))
}

/// Returns `BadDigest` if the last 32 bytes are not the SHA-256 of all bytes before them.
fn digest_fault(bytes: &[u8]) -> Option<CkptFault>
    requires { 32 ≤ length bytes.now }
    ensures { result ≡ digest_fault bytes.now }
{
    let end = bytes.len() - 32;
    let computed = Sha256::digest(&bytes[..end]);
    let found = array_at(bytes, end);
    if found == computed {
        None
    } else {
        Some(CkptFault::BadDigest { found, computed })
    }
}
