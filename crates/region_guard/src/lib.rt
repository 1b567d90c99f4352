//! A constraint for all rules on plans: limits on cut edges and on region splits, and majorities of
//! a group.
//!
//! Regions are, for instance, counties. Their splits are limited per region, in all, and by the
//! number of split regions.
#![tactic(auto)]

mod counting;
pub mod guard;
pub mod judges;
mod majority;
mod splits;

pub use guard::RegionGuard;
pub use judges::region_guards;
