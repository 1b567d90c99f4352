//! The start of a run: its initial outcomes, and the place (slot and generation) of its first save.

ghost use Rattle.std.specs.Prelude.{◌≡◌, ◌∷◌, [], ◌++◌, map, true, IfErr, IfOk, IsTrue, MatchResult, None, OnOk, Option, Some};
ghost use Rattle.audit_model.specs.State.{KeeperState};
ghost use Rattle.audit_model.specs.Observed.{IfObserved};
ghost use Rattle.audit_model.specs.Pair.{Pair};
ghost use Rattle.audit_model.specs.Job as model;
ghost use Rattle.audit_model.specs.Run.{has_no_histogram, taken_up};
ghost use Rattle.audit_model.specs.Trajectory.{without_histogram};
ghost use Rattle.audit_statement.specs.Checkpoint as definition;
ghost use Rattle.ckpt_store.specs.Fitting.{AreFit, HasFitOutcomes};
ghost use Rattle.ckpt_store.specs.Looked.{AreSlots, SawSlots};
ghost use Rattle.ckpt_store.specs.View.{newest_outcomes_seen};
ghost use Rattle.audit_statement.specs.Endings.{loads, saves};
ghost use Rattle.audit_laws.specs.Runs.{IsRunJob};
ghost use Rattle.audit_start.specs.ResumeState.{IsTarget, Opens, RefusesSlots, refused_by};

use audit_io::keeper::Keeper;
use audit_model::buffers::{Bytes, OutcomeList};
use audit_model::memory::Memory;
use audit_model::outcome::Outcome;
use audit_model::place::Place;
use ckpt_format::digest::job_digest;
use ckpt_store::look::{LookFault, look};
use ckpt_store::slots::{Slots, StoreFault};
use plan_core::job::Job;
use report::ended::Ended;
use std::alloc::Global;

/// The place of a run's first save, and the digest of its job.
#[derive(Clone, Copy)]
pub struct SaveTarget {
    pub digest: [u8; 32],
    pub place: Place,
}

/// The initial outcomes of a run, taken from earlier runs, and the place of its first save if it saves.
#[derive(Drop)]
pub struct ResumeState {
    pub outcomes: OutcomeList,
    pub target: Option<SaveTarget>,
}

// Returns the place of the first save, which the slots decide, or `None` if the run does not save.
fn target_of(job: &Job, slots: &Slots, digest: [u8; 32]) -> Option<SaveTarget>
    requires run { IsRunJob job.now }
    requires digest { digest ≡ definition.job_digest job.now }
    ensures { (observed : Option Pair) → IfObserved observed (λ p. AreSlots job.now digest p slots.now) → IsTarget (saves job.now.setting) job.now observed result }
{
    if job.setting().save_every == 0 {
        return None;
    }
    Some(SaveTarget {
        digest,
        place: slots.place(),
    })
}

// Returns the outcomes of the newest slot, or the reason why the run cannot resume.
fn resume(alloc: Global, slots: Slots, digest: &[u8; 32]) -> Result<OutcomeList, Ended>
    ensures saved_outcomes { MatchResult result (λ l. newest_outcomes_seen slots ≡ Some l.items) (λ _. newest_outcomes_seen slots ≡ None) }
    ensures fit { (job : model.Job) → HasFitOutcomes job slots.zero → HasFitOutcomes job slots.one → IfOk result (λ l. AreFit job l.items) }
    ensures refused { IfErr result (RefusesSlots slots digest.now) }
{
    match slots.newest(digest) {
        Ok(None) => Ok(OutcomeList::new(alloc)),
        Ok(Some(checkpoint)) => Ok(checkpoint.outcomes),
        Err(fault) => Err(refusal(fault)),
    }
}

// Copies the outcomes without their histograms. The only error is out of memory.
fn strip_histograms(alloc: Global, outcomes: &[Outcome]) -> Result<OutcomeList, Memory>
    ensures { IfOk result (λ l. l.items ≡ map without_histogram outcomes.now) }
{
    let mut without_histogram = OutcomeList::with_room(alloc, outcomes.len())?;
    for outcome in outcomes {
        without_histogram.push(Outcome {
            bins: [0; 9],
            ..*outcome
        })?;
    }
    Ok(without_histogram)
}

// Returns true if the histogram is all 0.
fn has_no_histogram(outcome: &Outcome) -> bool
    ensures { result ≡ has_no_histogram outcome.now }
{
    outcome.bins.iter().all(|bin| *bin == 0)
}

// Appends the outcome, unless it is that of a walk and has no histogram.
fn take_in(kept: &mut OutcomeList, walks: u32, outcome: &Outcome) -> Result<(), Memory>
    ensures { OnOk result (kept.new.items ≡ kept.old.items ++ taken_up true walks (outcome.now ∷ [])) }
{
    if outcome.id < walks && has_no_histogram(outcome) {
        return Ok(());
    }
    kept.push(*outcome)
}

// Copies the outcomes, without those of walks that have no histogram. The only error is out of memory.
fn take_with_histogram(
    alloc: Global,
    walks: u32,
    outcomes: &[Outcome],
) -> Result<OutcomeList, Memory>
    ensures { IfOk result (λ l. l.items ≡ taken_up true walks outcomes.now) }
{
    let mut kept = OutcomeList::with_room(alloc, outcomes.len())?;
    for outcome in outcomes {
        take_in(&mut kept, walks, outcome)?;
    }
    Ok(kept)
}

// Returns the outcomes that the job resumes from. A job with a histogram drops the outcomes of walks that have none,
// and walks them again. A job without a histogram drops all histograms. The only error is out of memory.
fn take_up(alloc: Global, job: &Job, outcomes: &[Outcome]) -> Result<OutcomeList, Memory>
    ensures { IfOk result (λ l. l.items ≡ taken_up job.now.setting.shift job.now.setting.walks outcomes.now) }
{
    let setting = job.setting();
    if setting.shift {
        take_with_histogram(alloc, setting.walks, outcomes)
    } else {
        strip_histograms(alloc, outcomes)
    }
}

fn refusal(fault: StoreFault) -> Ended
    ensures { result ≡ refused_by fault }
{
    match fault {
        StoreFault::Damaged(slots) => Ended::Damaged(slots),
        StoreFault::OtherJob { found, wanted } => Ended::OtherJob { found, wanted },
    }
}

// Returns the start of a run that has found these slots.
fn open_found(
    alloc: Global,
    job: &Job,
    slots: Slots,
    digest: [u8; 32],
) -> Result<ResumeState, Ended>
    requires run { IsRunJob job.now }
    requires digest { digest ≡ definition.job_digest job.now }
    requires fit { HasFitOutcomes job.now slots.zero × HasFitOutcomes job.now slots.one }
    ensures { (k : KeeperState) → SawSlots job.now digest k.slots slots → Opens job.now k k result }
{
    let target = target_of(job, &slots, digest);
    if !job.setting().resume {
        return Ok(ResumeState {
            outcomes: OutcomeList::new(alloc),
            target,
        });
    }
    match resume(alloc, slots, &digest) {
        Ok(saved_outcomes) => match take_up(alloc, job, saved_outcomes.as_slice()) {
            Ok(outcomes) => Ok(ResumeState { outcomes, target }),
            Err(_) => Err(Ended::NoMemory),
        },
        Err(why) => Err(why),
    }
}

// Looks at the slots and returns the start of the run. Changes no slot.
fn look_and_open<C: Keeper>(alloc: Global, job: &Job, keeper: &mut C) -> Result<ResumeState, Ended>
    requires run { IsRunJob job.now }
    requires loading { IsTrue (loads job.now.setting) }
    ensures { Opens job.now (C.state keeper.old) (C.state keeper.new) result }
{
    let digest = job_digest(job);
    let mut room = Bytes::new(alloc);
    match look(alloc, keeper, job, &digest, &mut room) {
        Ok(slots) => open_found(alloc, job, slots, digest),
        Err(LookFault::Failed) => Err(Ended::LoadFault),
        Err(LookFault::Taken) => Err(Ended::FolderTaken),
        Err(LookFault::Memory) => Err(Ended::NoMemory),
    }
}

/// Returns the start of the run. A run that resumes starts with the outcomes of the newest slot. Any other run starts
/// without outcomes. The slots are loaded only if the run saves or resumes. No slot is changed.
pub fn open<C: Keeper>(alloc: Global, job: &Job, keeper: &mut C) -> Result<ResumeState, Ended>
    requires { IsRunJob job.now }
    ensures { Opens job.now (C.state keeper.old) (C.state keeper.new) result }
{
    let setting = job.setting();
    if setting.resume || setting.save_every != 0 {
        return look_and_open(alloc, job, keeper);
    }
    Ok(ResumeState {
        outcomes: OutcomeList::new(alloc),
        target: None,
    })
}
