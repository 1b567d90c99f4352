//! A run of several workers as a state machine over events: claims of ids, hand-ins of outcomes,
//! saves, and halts, at which the process is killed.
#![tactic(auto)]

pub mod laws;
pub mod machine;
mod marks;

pub use audit_model::outcome::Did;
pub use machine::Core;
