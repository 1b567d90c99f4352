//! Consequences of the definitions in the top call's contract, up to the plain statement of what a call does.
//! `examples` has small cases of all definitions. Every function here does nothing and exists for its contract.
#![tactic(auto)]

pub mod examples;
pub mod graph_laws;
pub mod laws;
pub mod plain_laws;
pub mod step_laws;

pub use graph_laws::{given_jobs_are_of_one_graph, given_jobs_are_taken, read_jobs_are_given};
pub use laws::{
    chains_write_one_report, ended_calls_keep_their_promise, ends_are_stops,
    gathered_runs_write_one_report, gatherings_reach, reruns_are_alike, stops_keep_the_newest,
    stops_lose_nothing,
};
pub use plain_laws::{promised_calls_audit_plainly, promised_calls_end_plainly, reports_are_one};
pub use step_laws::accepted_jobs_are_runs;
