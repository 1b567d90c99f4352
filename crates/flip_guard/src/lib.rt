//! Constraints on plans beyond population and contiguity: a trait, and an implementation by a
//! stored closure.
#![tactic(auto)]

pub mod guard;
pub mod judge;

pub use guard::Guard;
pub use judge::Judge;
