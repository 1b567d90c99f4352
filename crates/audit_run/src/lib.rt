//! The audit as one call.
//!
//! `audit` passes the command `plans` to `several`, and every other command to `single`. For one plan, `single` makes
//! the job and writes the diagnostic. In between it writes the text of a check, runs the job (`run`) or writes a trace
//! (`trace`). For several plans, `plan_jobs` makes the jobs and `judge_sets` their constraints. Then `plan_reports`
//! allocates all memory, walks the plans, and reports them in order. `plain` and `sure` are the same call with
//! stronger contracts for special cases, and `premises` has the law by which files and standard streams meet the
//! premises.
#![tactic(auto)]

pub mod audit;
pub mod judge_sets;
pub mod plain;
pub mod plan_jobs;
pub mod plan_reports;
pub mod premises;
pub mod run;
pub mod several;
pub mod single;
pub mod sure;
pub mod trace;

pub use claim_counter::workers::Lender;
pub use plain::audit_plainly;
pub use run::run_job;
pub use several::audit_plans;
pub use single::audit_single;
pub use sure::audit_surely;
