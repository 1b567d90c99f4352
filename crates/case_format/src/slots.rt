//! The contents of the slots before a run, and the keepers over them.

use crate::keeper::{CountedKeeper, RunKeeper};
use crate::setups::Setup;
use audit_io::mem_keeper::MemKeeper;
use audit_io::stop_keeper::StopKeeper;
use audit_io::sure_keeper::SureKeeper;
use audit_model::buffers::Bytes;
use audit_model::lists::NumList;
use audit_model::memory::Memory;
use std::alloc::Global;
use std::fs;
use std::sync::Arc;
use std::sync::atomic::AtomicU64;
use std::test::Fail;

/// One byte more than a checkpoint can have.
const TOO_LONG: usize = 8_000_085;

/// Copies bytes.
pub fn bytes_of(alloc: Global, given: &[u8]) -> Result<Bytes, Memory> {
    let mut bytes = Bytes::new(alloc);
    bytes.append(given)?;
    Ok(bytes)
}

/// Makes the list of failing calls from the number of one call, or 0 for none.
pub fn failing(alloc: Global, number: u64) -> Result<NumList, Memory> {
    let mut numbers = NumList::new(alloc);
    if number > 0 {
        numbers.push(number)?;
    }
    Ok(numbers)
}

fn zeros(alloc: Global) -> Result<Bytes, Memory> {
    let mut bytes = Bytes::with_room(alloc, TOO_LONG)?;
    for _ in 0..TOO_LONG {
        bytes.push(0)?;
    }
    Ok(bytes)
}

// Copies the bytes with each bit of the last one flipped.
fn corrupt(alloc: Global, bytes: &[u8]) -> Result<Bytes, Memory> {
    let mut copy = Bytes::new(alloc);
    if let Some((last, front)) = bytes.split_last() {
        copy.append(front)?;
        copy.push(!*last)?;
    }
    Ok(copy)
}

fn read_bytes(rt: &HostRuntime, file: &str) -> Result<Bytes, Fail> {
    let bytes = fs::read(rt, file)?;
    Ok(bytes_of(rt.alloc(), bytes.as_slice())?)
}

// Returns the contents of a slot that a word of a line names. `before` has the contents that the run before left.
fn slot_of(rt: &HostRuntime, said: &str, before: Option<&[u8]>) -> Result<Option<Bytes>, Fail> {
    match (said, before) {
        ("absent", _) | ("same" | "spoilt", None) => Ok(None),
        ("same", Some(bytes)) => Ok(Some(bytes_of(rt.alloc(), bytes)?)),
        ("spoilt", Some(bytes)) => Ok(Some(corrupt(rt.alloc(), bytes)?)),
        ("long", _) => Ok(Some(zeros(rt.alloc())?)),
        (file, _) => Ok(Some(read_bytes(rt, file)?)),
    }
}

// Returns the contents of both slots. `left` has those that the run before left.
fn slots_of(
    rt: &HostRuntime,
    setup: &Setup<'_>,
    left: &MemKeeper,
) -> Result<(Option<Bytes>, Option<Bytes>), Fail> {
    let zero = slot_of(rt, setup.zero, left.slot(0))?;
    let one = slot_of(rt, setup.one, left.slot(1))?;
    Ok((zero, one))
}

// Makes a keeper with these slots, whose load and save with these numbers fail, or none for 0.
fn keeper_over(
    alloc: Global,
    slots: (Option<Bytes>, Option<Bytes>),
    load: u64,
    save: u64,
) -> Result<MemKeeper, Memory> {
    let loads = failing(alloc, load)?;
    let saves = failing(alloc, save)?;
    MemKeeper::new(alloc, slots.0, slots.1, loads, saves)
}

/// Makes a keeper with two empty slots.
pub fn empty_slots(alloc: Global) -> Result<MemKeeper, Memory> {
    keeper_over(alloc, (None, None), 0, 0)
}

// Returns the number of the save that fails, and that of the save within which the run is stopped.
fn failing_saves(setup: &Setup<'_>) -> (u64, u32) {
    if setup.kept == 0 {
        return (setup.failing_save, u32::MAX);
    }
    (0, u32::try_from(setup.failing_save).unwrap_or(u32::MAX))
}

/// Makes the keeper of a run. `left` has the slots that the run before left, and `begun` counts the announced ids.
pub fn keeper_of(
    rt: &HostRuntime,
    setup: &Setup<'_>,
    left: &MemKeeper,
    begun: Arc<AtomicU64, Global>,
) -> Result<RunKeeper, Fail> {
    let (save, stop_at) = failing_saves(setup);
    let slots = slots_of(rt, setup, left)?;
    let keeper = keeper_over(rt.alloc(), slots, setup.failing_load, save)?;
    let kept = u32::try_from(setup.kept).unwrap_or(u32::MAX);
    Ok(CountedKeeper::new(StopKeeper::new(keeper, stop_at.max(1), kept), begun))
}

/// Makes the keeper of a run in which nothing fails.
pub fn sure_keeper_of(
    rt: &HostRuntime,
    setup: &Setup<'_>,
    left: &MemKeeper,
) -> Result<SureKeeper, Fail> {
    let (zero, one) = slots_of(rt, setup, left)?;
    Ok(SureKeeper::new(rt.alloc(), zero, one)?)
}
