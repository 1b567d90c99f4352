//! The checkpoints in the two slots of a keeper, and the outcomes that a job takes from them.
//!
//! A run resumes from the newest checkpoint, and saves its next checkpoint in the other slot. A *gathering* collects
//! the outcomes of one job from several folders, each with two slots. The first folder is the *working folder*. A
//! gathering may save the union of the outcomes there.
//!
//! Words of this crate:
//!
//! - The *state* of a slot for a job is a value of `Slot`: `Absent`, `Broken`, `Other` or `Ours`. A slot is *valid* for
//!   a job if its state is `Other` or `Ours`.
//! - The *generation* of a checkpoint is 0, 1 or 2, in turn. If both slots are valid, the generations tell which slot
//!   is the *newest*. If one slot is valid, that slot is the newest.
//! - The *place* of a checkpoint is its slot and its generation.
//! - The *digest* of a job is the SHA-256 of everything that the job's outcomes depend on.
//! - An outcome is *plausible* for a job if nothing in its numbers shows that it is not the job's.
//! - An outcome and a list *contradict* each other if the list has another outcome for the same id. A missing histogram
//!   is no contradiction.
//! - Outcomes are *consistent* if their ids are distinct ids of the job, and each outcome is what the trajectory with
//!   its id finds, with or without the histogram. Consistent outcomes are *right* if they also have just the histograms
//!   that the job asks for. If the job asks for histograms, each walk has its own. If not, no outcome has one.
//! - A slot is *consistent* if its state is not `Ours`, or if its outcomes are consistent.
#![tactic(auto)]

pub mod collection;
pub mod finding;
mod fitting;
pub mod folder_content;
pub mod gather;
pub mod gather_result;
pub mod gathered_laws;
pub mod judge;
pub mod laws;
pub mod look;
pub mod progress;
pub mod save;
pub mod slot_content;
pub mod slots;
pub mod whole;

pub use audit_model::place::Place;
pub use judge::judge_bytes;
pub use laws::{
    checkpoints_are_ours, consistent_slots_open_right, right_outcomes_are_consistent,
    saved_slots_are_newest, saves_keep_the_newest, saves_leave_consistent_slots,
};
pub use look::LookFault;
pub use slots::{Slot, Slots, StoreFault};
