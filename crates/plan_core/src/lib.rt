//! Jobs: a graph with its counts, a legal start plan, a setting and the rules for plans.
#![tactic(auto)]

mod asks;
mod bounds;
mod copies;
mod group;
mod input;
pub mod job;
mod search;
mod splits;
mod sums;
mod values;

pub use job::Job;
