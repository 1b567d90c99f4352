//! Laws of slots in which gathered outcomes are saved. Each law is the contract of a function that does nothing: its
//! body is empty or calls other laws.

ghost use Rattle.ckpt_store.specs.GatheredLaws.{GatheredSlotsAreConsistent, ConsistentSlotsGiveConsistentOutcomes};

use crate::laws::{a_stop_in_a_save_leaves_consistent_slots, checkpoints_are_ours};
use outcome_book::union_laws::unions_are_right;

/// Shows that the newest slot gives consistent outcomes if both slots are consistent.
pub fn consistent_slots_give_consistent_outcomes()
    ensures { ConsistentSlotsGiveConsistentOutcomes }
{}

/// Shows that consistent slots stay consistent when a gathering saves a union of consistent outcomes in one of them. A
/// run that resumes from these slots and ends with status 0 thus writes the same report as a run that was never
/// interrupted.
pub fn gathered_slots_are_consistent()
    ensures { GatheredSlotsAreConsistent }
{
    a_stop_in_a_save_leaves_consistent_slots();
    checkpoints_are_ours();
    unions_are_right();
}
