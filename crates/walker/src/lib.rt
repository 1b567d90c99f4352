//! Walks the trajectories of a job. A trajectory is a series of legal plans. Each step takes the
//! next draw, a number of 64 bits, from the trajectory's stream. A step that changes the plan is a
//! *move*.
//!
//! There are two kinds of trajectories. A *walk* of the outlier test starts at the start plan, and
//! its outcome counts visits. An *endpoint trajectory* of the parallel test starts at the *hub*,
//! and its outcome has the values of its last plan. The hub is the plan after `--hub-steps` steps
//! from the start plan, along stream 1.
//!
//! A walk *visits* the plan at which it stands before each step, and its last plan. A plan that is
//! visited several times counts each time. An *ask* of the job is a score and a side, `low` or
//! `high`. The *tail* of an ask has the plans that are at least as extreme as the start plan on this
//! side.
#![tactic(auto)]

mod asked;
mod histogram;
mod steps;
mod trail;
pub mod walker;
pub mod way;

pub use walker::Walker;
pub use way::Way;
