//! The serial test of Besag and Clifford.
//!
//! One run of steps passes through the start plan, whose position in the run is drawn. The rank of
//! the start plan counts all plans of the run. The test needs no hub, and uses every step.
#![tactic(auto)]

mod ranks;
pub mod run;
mod start_place;

pub use audit_model::outcome;
pub use run::serial;
pub use start_place::place;
