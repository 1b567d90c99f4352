//! Laws of a keeper's slots. Each law is the contract of a function that does nothing: its body is empty or calls other
//! laws.

ghost use Rattle.ckpt_store.specs.Laws.{SavesKeepTheNewest, SavesLeaveConsistentSlots, CheckpointsAreOurs, ConsistentSlotsOpenRight, RightIsConsistent, SavedSlotsAreNewest, SlotsAreWhatTheyAre, StopsLeaveConsistentSlots, WrittenSlotsAreNewest};

use audit_model::laws::{consistent_runs_go_on_rightly, outcomes_without_histogram_match};
use ckpt_format::laws::{checkpoints_are_read, faultless_bytes_are_checkpoints};

/// Shows that the state of a slot is `Ours` if the slot holds a checkpoint with the job's digest and only plausible
/// outcomes.
pub fn checkpoints_are_ours()
    ensures { CheckpointsAreOurs }
{}

/// Shows that the state of a slot that is not empty matches the slot's bytes:
///
/// - If the state is `Ours`, the bytes are a checkpoint with the job's digest and the outcomes of the state. All these
///   outcomes are plausible.
/// - If the state is `Other`, the bytes are a checkpoint with another digest.
/// - If the state is `Broken`, the bytes are no checkpoint, or a checkpoint with the job's digest and an outcome that
///   is not plausible.
pub fn slots_are_what_they_are()
    ensures { SlotsAreWhatTheyAre }
{
    faultless_bytes_are_checkpoints();
    checkpoints_are_read();
}

/// Shows that a checkpoint is in the newest slot if it was written at the place that `Slots::place` gives. This holds
/// whatever the states of both slots were before.
pub fn written_slots_are_newest()
    ensures { WrittenSlotsAreNewest }
{}

/// Shows what holds after a checkpoint of the job, with plausible outcomes only, was written at the place that
/// `Slots::place` gives. The state of the newest slot is then `Ours`, and has this checkpoint's outcomes.
pub fn saved_slots_are_newest()
    ensures { SavedSlotsAreNewest }
{}

/// Shows that right outcomes are consistent.
pub fn right_outcomes_are_consistent()
    ensures { RightIsConsistent }
{
    outcomes_without_histogram_match();
}

/// Shows that a run resumes from right outcomes if both slots are consistent. If the job asks for histograms, the run
/// leaves out each walk without a histogram. Otherwise the run leaves out all histograms.
pub fn consistent_slots_open_right()
    ensures { ConsistentSlotsOpenRight }
{
    consistent_runs_go_on_rightly();
}

/// Shows that consistent slots stay consistent when a process is killed during a save. The law assumes one
/// of three things of the slot of this save: it has its old bytes, it has a checkpoint with consistent outcomes, or its
/// state is not `Ours`.
pub fn a_stop_in_a_save_leaves_consistent_slots()
    ensures { StopsLeaveConsistentSlots }
{}

/// Shows that any number of saves of right outcomes leave consistent slots consistent, wherever saves failed and
/// wherever the process was killed. A failed save may leave in its slot the old bytes, a prefix of the new bytes, or
/// anything for which the slot's state is not `Ours`.
pub fn saves_leave_consistent_slots()
    ensures { SavesLeaveConsistentSlots }
{
    right_outcomes_are_consistent();
}

/// Shows that a series of saves never loses the newest checkpoint, wherever saves failed and wherever the process was
/// killed. Afterwards the newest slot has one of three checkpoints:
///
/// - The newest one from before the series, if no save succeeded.
/// - The checkpoint of the last save that succeeded.
/// - The checkpoint of a failed save that wrote all its bytes, if no later save succeeded.
///
/// A failed save may leave in its slot the old bytes, a prefix of the new bytes, or anything for which the slot is not
/// valid.
pub fn saves_keep_the_newest()
    ensures { SavesKeepTheNewest }
{}
