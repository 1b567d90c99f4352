//! The outcome table of a run, and the union of the outcomes of several runs.
#![tactic(auto)]

pub mod agreeing;
pub mod book;
pub mod gathering;
pub mod laws;
pub mod union_laws;

pub use book::Book;
pub use gathering::Gathering;
pub use laws::{outcomes_by_id_are_mapped, outcomes_have_few_visits};
pub use union_laws::{unions_are_one, unions_are_right, unions_fit};
