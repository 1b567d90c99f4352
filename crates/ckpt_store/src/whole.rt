//! A whole gathering: the looks at all folders, and the save of the union in the working folder.

ghost use Rattle.std.specs.Prelude.{◌≡◌, ◌∷◌, [], ◌++◌, ◌&&◌, ◌||◌, ◌≤◌, IfErr, IfOk, length, map, true};
ghost use Rattle.std.specs.List.{list_all};
ghost use Rattle.audit_model.specs.Limits.{most_trajectories};
ghost use Rattle.audit_model.specs.Run.{total};
ghost use Rattle.audit_statement.specs.Checkpoint.{job_digest};
ghost use Rattle.ckpt_store.specs.Collected.{IsCovered, no_collected};
ghost use Rattle.ckpt_store.specs.Findings.{AreFound, Finds, is_added, may_save};
ghost use Rattle.ckpt_store.specs.Fitting.{HasFitOutcomes};
ghost use Rattle.ckpt_store.specs.Gives.{is_broken, slots_give};
ghost use Rattle.ckpt_store.specs.View.{newest_seen, place_seen, slot_view};
ghost use Rattle.ckpt_store.specs.Places.{IsPlace};
ghost use Rattle.audit_statement.specs.Due.{LetsCheckpoint};
ghost use Rattle.ckpt_store.specs.Whole.{HasBegun, HasGatherFailed, IsGathering, IsSavedIf, IsUnsaved, IsUnsavedUnion, IsUntouched, LetsGathering};

use crate::collection::Collection;
use crate::finding::{Finding, find_in};
use crate::folder_content::{has_broken, newest_content};
use crate::gather::save_list;
use crate::gather_result::{FindingList, GatherError, GatherResult};
use crate::look::{LookFault, look};
use crate::slots::Slots;
use audit_io::keeper::Keeper;
use audit_model::buffers::Bytes;
use audit_model::memory::Memory;
use audit_model::place::Place;
use ckpt_format::digest::job_digest;
use plan_core::job::Job;
use std::alloc::Global;

/// The state of a gathering after the look at the working folder: the place of the working folder's next checkpoint,
/// the finding in the working folder, and the collection with the working folder's outcomes.
#[derive(Drop)]
struct GatherState {
    place: Place,
    own: Finding,
    collection: Collection,
}

/// Gathers the job's outcomes from the slots of the working folder, then from those of each other folder. If `saves` is
/// true, the union is saved as the working folder's next checkpoint, but only if two things hold:
///
/// - The working folder's outcomes were added, or both its slots are empty.
/// - The outcomes of each other folder were added. Hence no two folders contradict each other.
///
/// # Errors
///
/// - `Memory`: out of memory. No save was attempted.
/// - `Unread`: a slot of the working folder could not be loaded. No save was attempted.
/// - `Taken`: a slot of the working folder could not be loaded because another process has locked the folder. No save
///   was attempted.
/// - `Unsaved`: the save of the union failed, and its slot may hold anything.
pub fn gather<C: Keeper, F: Keeper>(
    alloc: Global,
    keeper: &mut C,
    folders: &mut [F],
    job: &Job,
    saves: bool,
) -> Result<GatherResult, GatherError>
    requires few { total job.now ≤ most_trajectories }
    requires lets { LetsGathering C.lets job.now (job_digest job.now) saves (C.state keeper.old).slots (C.state keeper.old).attempted (map (λ k. F.state k) folders.old) }
    ensures gathered { IfOk result (IsGathering job.now (job_digest job.now) saves (C.state keeper.old) (C.state keeper.new) (map (λ k. F.state k) folders.old) (map (λ k. F.state k) folders.new)) }
    ensures cause { IfErr result (IsUnsaved (HasGatherFailed job.now (job_digest job.now) saves (C.state keeper.old) (C.state keeper.new) (map (λ k. F.state k) folders.old) (map (λ k. F.state k) folders.new))
        (C.state keeper.old) (C.state keeper.new)) }
{
    let digest = job_digest(job);
    match begin(alloc, keeper, job, &digest) {
        Ok(begun) => gather_from(alloc, keeper, folders, job, begun, saves),
        Err(why) => Err(why),
    }
}

// Does the rest of `gather` after the look at the working folder.
fn gather_from<C: Keeper, F: Keeper>(
    alloc: Global,
    keeper: &mut C,
    folders: &mut [F],
    job: &Job,
    begun: GatherState,
    saves: bool,
) -> Result<GatherResult, GatherError>
    requires total { begun.collection.total ≡ total job.now }
    requires covered { IsCovered begun.collection }
    requires place { IsPlace begun.place }
    requires begun { HasBegun job.now (job_digest job.now) (C.state keeper.old).slots (begun.place.slot, begun.place.generation) begun.own begun.collection }
    requires lets { LetsGathering C.lets job.now (job_digest job.now) saves (C.state keeper.old).slots (C.state keeper.old).attempted (map (λ k. F.state k) folders.old) }
    ensures gathered { IfOk result (IsGathering job.now (job_digest job.now) saves (C.state keeper.old) (C.state keeper.new) (map (λ k. F.state k) folders.old) (map (λ k. F.state k) folders.new)) }
    ensures cause { IfErr result (IsUnsaved (HasGatherFailed job.now (job_digest job.now) saves (C.state keeper.old) (C.state keeper.new) (map (λ k. F.state k) folders.old) (map (λ k. F.state k) folders.new))
        (C.state keeper.old) (C.state keeper.new)) }
{
    let digest = job_digest(job);
    let GatherState {
        place,
        own,
        mut collection,
    } = begun;
    match find_each(alloc, &mut collection, folders, job, &digest) {
        Ok(found) => {
            let saved = saves && may_save(own, found.as_slice());
            match finish(alloc, keeper, place, &digest, &collection, saved) {
                Ok(done) => Ok(GatherResult {
                    own,
                    folders: found,
                    done,
                    saved,
                }),
                Err(why) => Err(why),
            }
        }
        Err(_) => Err(GatherError::Memory),
    }
}

// Loads the slots of the working folder, and starts the collection with its outcomes.
fn begin<C: Keeper>(
    alloc: Global,
    keeper: &mut C,
    job: &Job,
    digest: &[u8; 32],
) -> Result<GatherState, GatherError>
    requires few { total job.now ≤ most_trajectories }
    ensures total { IfOk result (λ b. b.collection.total ≡ total job.now) }
    ensures covered { IfOk result (λ b. IsCovered b.collection) }
    ensures place { IfOk result (λ b. IsPlace b.place) }
    ensures begun { IfOk result (λ b. HasBegun job.now digest.now (C.state keeper.old).slots (b.place.slot, b.place.generation) b.own b.collection) }
    ensures untouched { IfOk result (λ b. IsUntouched (C.state keeper.old) (C.state keeper.new)) }
    ensures loads { IfOk result (λ b. (C.state keeper.new).load_faults ≡ (C.state keeper.old).load_faults) }
    ensures cause { IfErr result (IsUnsaved ⊥ (C.state keeper.old) (C.state keeper.new)) }
{
    let mut room = Bytes::new(alloc);
    match look(alloc, keeper, job, digest, &mut room) {
        Ok(slots) => begin_with(alloc, job, digest, slots),
        Err(LookFault::Failed) => Err(GatherError::Unread),
        Err(LookFault::Taken) => Err(GatherError::Taken),
        Err(LookFault::Memory) => Err(GatherError::Memory),
    }
}

// Starts the collection with the outcomes in these slots of the working folder.
fn begin_with(
    alloc: Global,
    job: &Job,
    digest: &[u8; 32],
    slots: Slots,
) -> Result<GatherState, GatherError>
    requires few { total job.now ≤ most_trajectories }
    requires zero { HasFitOutcomes job.now slots.zero }
    requires one { HasFitOutcomes job.now slots.one }
    ensures total { IfOk result (λ b. b.collection.total ≡ total job.now) }
    ensures covered { IfOk result (λ b. IsCovered b.collection) }
    ensures place { IfOk result (λ b. IsPlace b.place) }
    ensures place_is { IfOk result (λ b. (b.place.slot, b.place.generation) ≡ place_seen slots) }
    ensures finds { IfOk result (λ b. Finds (no_collected (total job.now)) (slots_give (slot_view slots.zero) (slot_view slots.one) (newest_seen slots))
        (is_broken (slot_view slots.zero) || is_broken (slot_view slots.one)) b.own b.collection) }
    ensures cause { IfErr result (λ e. e ≡ GatherError.Memory) }
{
    let mut collection = Collection::with_room(alloc, job.total())?;
    let place = slots.place();
    let beside = has_broken(&slots);
    let given = newest_content(job, digest, slots);
    let own = collection.add(alloc, job, given, beside)?;
    Ok(GatherState {
        place,
        own,
        collection,
    })
}

// Looks at the slots of each other folder. Adds the outcomes of the newest slot to the collection, unless they
// contradict it.
fn find_each<F: Keeper>(
    alloc: Global,
    collection: &mut Collection,
    folders: &mut [F],
    job: &Job,
    digest: &[u8; 32],
) -> Result<FindingList, Memory>
    requires total { collection.old.total ≡ total job.now }
    requires covered { IsCovered collection.old }
    ensures found { IfOk result (λ l. AreFound job.now digest.now (map (λ k. F.state k) folders.old) (map (λ k. F.state k) folders.new) collection.old l collection.new) }
{
    let mut room = Bytes::new(alloc);
    let mut findings = FindingList::new(alloc);
    for place in 0..folders.len() {
        let found = find_in(
            alloc,
            collection,
            &mut folders[place],
            job,
            digest,
            &mut room,
        )?;
        findings.push(found)?;
    }
    Ok(findings)
}

// Returns true if the findings permit a save of the union.
fn may_save(own: Finding, folders: &[Finding]) -> bool
    ensures { result ≡ may_save own folders.now }
{
    own.is_start() && are_added(folders)
}

fn are_added(folders: &[Finding]) -> bool
    ensures { result ≡ list_all is_added folders.now }
{
    for found in folders {
        if !found.is_added() {
            return false;
        }
    }
    true
}

// Saves the union if `saved` is true, and returns the number of its outcomes.
fn finish<C: Keeper>(
    alloc: Global,
    keeper: &mut C,
    place: Place,
    digest: &[u8; 32],
    collection: &Collection,
    saved: bool,
) -> Result<u32, GatherError>
    requires place { IsPlace place }
    requires lets { saved ≡ true → LetsCheckpoint C.lets (C.state keeper.old) digest.now place.slot place.generation collection.now.outcomes }
    ensures done { IfOk result (λ n. n ≡ length collection.now.outcomes) }
    ensures saved { IfOk result (λ n. IsSavedIf saved digest.now (place.slot, place.generation) collection.now.outcomes (C.state keeper.old) (C.state keeper.new)) }
    ensures cause { IfErr result (IsUnsaved ((saved ≡ true) × IsUnsavedUnion digest.now (place.slot, place.generation) collection.now.outcomes (C.state keeper.old) (C.state keeper.new))
        (C.state keeper.old) (C.state keeper.new)) }
{
    match collection.to_list(alloc) {
        Ok(list) => {
            let done = list.len() as u32;
            if !saved {
                return Ok(done);
            }
            match save_list(alloc, keeper, place, digest, list.as_slice()) {
                Ok(()) => Ok(done),
                Err(why) => Err(why),
            }
        }
        Err(_) => Err(GatherError::Memory),
    }
}
