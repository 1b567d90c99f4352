//! The worker runtime of all runs, and the workers of runs without saves.
//!
//! Words of this crate:
//!
//! - A *batch* is a list of ids that the workers walk together, such as one round of a run whose tests stop early.
//!   This crate does not use the parts that `--parts` makes.
//! - A *counter* (`Claims`) gives each number below a limit to at most one worker. In a batch the numbers are indices
//!   of the list of ids.
//! - A *pass* is the right to draw numbers from one counter. In a batch each worker has a pass. A new counter
//!   has one pass. All others are split off this pass, and at the end of the batch they are joined with it again.
//! - The *claims* of a pass are the numbers that were drawn with it. Only proofs know the claims.
//! - The *seats* of a counter: the most passes that it can have at one time. A pass *has all seats* if no other pass is
//!   in use.
//! - A worker's *share* is the list of outcomes that the worker has found in a batch.
//! - The *book* is the table of all outcomes of a run, by id.
//! - The *hub* is the plan from which all endpoint trajectories start.
//! - The *gate* is an observer that receives the id of each trajectory before its walk. A *start token* shows that the
//!   gate has received an id.
//! - `judges` has the job's constraint once for each worker, because a constraint may keep data about the current plan
//!   of its worker.
#![tactic(auto)]

pub mod batches;
mod claims;
pub mod laws;
mod pass;
pub mod pool;
mod record;
mod rule;
pub mod walking;
pub mod worker;
pub mod workers;

pub use batches::{BatchCounter, BatchWorkers, find_hub, make_batch_workers, walk_batch};
pub use claims::{Claims, Closed};
pub use laws::{
    count_is_bounded, end_keeps, join_keeps, number_keeps, sole_has_all, split_keeps,
    start_is_counted,
};
pub use pass::Pass;
pub use pool::{WorkerPool, make_pool};
pub use record::{PassRecord, Size};
pub use walking::walk_run;
pub use workers::{GatedWalker, Runtime, StartToken, make_walkers, run_workers};
