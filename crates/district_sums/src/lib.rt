//! Running sums of a plan's districts, updated as units move between districts.
#![tactic(auto)]

pub mod lengths;
pub mod mates;
pub mod scratch;
mod shifting;
pub mod sums;

pub use lengths::{length_after, measure_cut};
pub use scratch::count_cut;
pub use sums::Sums;
