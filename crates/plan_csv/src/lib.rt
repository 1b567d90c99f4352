//! Plans from a CSV table that follows a graph: reads the table, and makes the job of each plan.
#![tactic(auto)]

pub mod fault;
mod header;
pub mod jobs;
mod labels;
pub mod named;
pub mod parts;
mod read;
mod rows;
mod units;

pub use audit_model::fault::PlansFault;
pub use jobs::read_jobs;
pub use named::Named;
pub use read::read_plans;
