//! The parallel test with an early stop, once enough endpoints are in the tail.
#![tactic(auto)]

pub mod all_stops;
pub mod laws;
pub mod pool;
pub mod settle;
pub mod walking;

pub use laws::{all_ends_decide, decided_stops_are_final};
pub use pool::{StoppingPool, make_pool};
pub use walking::walk_to_stops;
