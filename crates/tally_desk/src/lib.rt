//! The desk of a run that saves, and the workers of this run. A desk gives out ids and collects outcomes, and saves a
//! checkpoint at a fixed interval.
//!
//! Words of this crate:
//!
//! - A *desk* has a list of ids, `todo`. Workers *claim* ids at the desk, walk their trajectories, and *post* the
//!   outcomes. The *place* of an id is its index in `todo`.
//! - The *counter* of a desk counts the draws. Each claim draws the next place in one atomic step. A draw beyond the
//!   list yields no id.
//! - A *pass* is the right to claim ids at a desk and to post their outcomes. Each worker has a pass. The passes are
//!   split off the desk's first pass, and joined at the end. A pass has *ended* if a draw with it found no id left. A
//!   joined pass has ended if both its parts have.
//! - The *seats* of a desk are the largest number of its passes.
//! - A *ticket* is the number of a post, from 0. The worker that has a ticket has its *turn* until its outcome is
//!   posted. The ticket is *out* during the turn. Only one ticket is out at a time.
//! - A save is *due* with a post if the number of posts is then a multiple of `save_every`. The save is made in the
//!   turn of this post. A post is *marked* if such a save was made and succeeded.
//! - The place of a save is its slot and its generation.
//! - A worker *buffers* an outcome if it keeps the outcome in a list of its own and posts it later.
//! - The *book* has the initial outcomes and those that were posted.
//! - The *hub* is the plan from which all endpoint trajectories start.
//! - The *gate* receives the id of each trajectory before its walk.
//!
//! The desk is a table of the crate `atomic_table`. The table has three words, which change in atomic steps, and one
//! *slot*, which has the state of the run. Word 0 is the counter, word 1 the number of tickets given out, word 2 the
//! number of ended turns. A step needs a *seat*, and a *badge* stores a seat. Each pass has a badge.
//!
//! The *view* of a seat is what proofs know of the seat. A `Snapshot` is a value that exists in proofs only. The *rule*
//! is the invariant of the table.
#![tactic(auto)]

pub mod desk;
mod entry;
mod handing;
mod hub;
pub mod laws;
mod next_save;
pub mod pass;
pub mod pool;
mod posting;
mod rule;
pub mod run;
pub mod run_laws;
mod saving;
pub mod state;
mod turn;
mod view;
mod walking;
mod worker;

pub use desk::Desk;
pub use laws::{posts_stay_whole, unfailed_runs_save_in_turn};
pub use pass::DeskPass;
pub use pool::{DeskPool, make_pool};
pub use run::{RunResult, run_over};
pub use run_laws::{run_attempts_are_right, saves_hold_parts};
pub use state::{DeskPlan, RunState};
