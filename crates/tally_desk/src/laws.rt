//! Laws of the steps of a desk. Each law is the contract of a function that does nothing: its body is empty or calls
//! other laws.

ghost use Rattle.tally_desk.specs.Entries.{UnfailedPostsAreRegular};
ghost use Rattle.tally_desk.specs.Homes.{HomeAs};
ghost use Rattle.tally_desk.specs.InTurn.{UnfailedRunsSaveInTurn};
ghost use Rattle.tally_desk.specs.MachineStates.{HaltsAreRestarts};
ghost use Rattle.tally_desk.specs.Machines.{StepsAreEvents};
ghost use Rattle.tally_desk.specs.Outlasting.{RunStopsKeepTheNewest, RunStopsLeaveConsistentSlots};
ghost use Rattle.tally_desk.specs.Parts.{Parts};
ghost use Rattle.tally_desk.specs.Passes.{PostsStayWhole};
ghost use Rattle.tally_desk.specs.Righted.{SavedOutcomesAreRight};

use audit_io::keeper::Keeper;
use ckpt_store::laws::{
    checkpoints_are_ours, saved_slots_are_newest, saves_keep_the_newest,
    saves_leave_consistent_slots,
};

/// Shows that each step of a pass keeps the invariant of the desk's table, and that the desk is a run machine
/// (`Machine` of `audit_model`). Each step has its events in the machine: none, a claim, a post, or a post and a save.
/// They take the machine from the state that matches the desk before the step to the state that matches it after the
/// step.
pub fn steps_are_events<C: Keeper>()
    ensures { (parts : Parts) → StepsAreEvents (HomeAs C.state C.lets) parts }
{}

/// Shows that a halt takes the run machine of a desk to the machine with which a desk over the last save starts. The
/// events of a running desk have no halt: a process that halts takes no further step.
pub fn halts_are_restarts()
    ensures { HaltsAreRestarts }
{}

/// Shows which passes are *whole*: have posted all their claims. A pass without claims is whole. A whole pass is whole
/// again after one more claim and the post of this claim. The join of two whole passes is whole.
pub fn posts_stay_whole()
    ensures { PostsStayWhole }
{}

/// Shows that one save was made for each full group of `save_every` posts, if no save failed. If the last group is
/// full, its save was made with the last post.
pub fn unfailed_posts_are_regular()
    ensures { UnfailedPostsAreRegular }
{}

/// Shows what the slots hold after a run in which no save failed.
///
/// The last save was made with the last post or at the end of the run. It has all outcomes, and its slot is the newest.
/// The other slot is unchanged or holds the save before.
pub fn unfailed_runs_save_in_turn()
    ensures { UnfailedRunsSaveInTurn }
{
    saved_slots_are_newest();
    checkpoints_are_ours();
}

/// Shows that the job's trajectories found the outcomes of each checkpoint of a desk, if they found the initial
/// outcomes.
pub fn saved_outcomes_are_right()
    ensures { SavedOutcomesAreRight }
{}

/// Shows that a stop anywhere in a run leaves consistent slots, even if saves failed. The initial outcomes must be
/// right and the slots must be consistent before the run.
pub fn stops_leave_consistent_slots()
    ensures { RunStopsLeaveConsistentSlots }
{
    saves_leave_consistent_slots();
}

/// Shows which slot is the newest after a stop anywhere in a run.
///
/// If no save wrote a whole checkpoint, the newest slot is the same as before the run. Otherwise it is the slot of the
/// last save that succeeded, or of a later save that wrote all its bytes before it failed or was stopped.
pub fn stops_keep_the_newest()
    ensures { RunStopsKeepTheNewest }
{
    saves_keep_the_newest();
}
