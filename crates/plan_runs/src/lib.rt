//! The runs of a job: their memory, their walks with or without saves, their end, runs of several plans, and traces.
//!
//! A run has three steps. First all its memory is allocated (`resources`, and `saving` for a run that saves). Then it
//! walks. A run that saves walks with the work queue of `tally_desk` (`saving`). Any other run walks all pending
//! trajectories at once, or in rounds until its tests have stopped (`walking`). The outcomes are a `Found` in each
//! case. Finally it ends (`ending`). If no trajectory is pending, it makes the serial test and writes the report. Runs
//! of several plans (`plans`) allocate the memory of all plans before the first walk, walk several plans beside each
//! other if one does not keep all workers busy, and report them in order. A trace (`tracing`) writes the plans of a
//! range of trajectories at every N-th step.
#![tactic(auto)]

pub mod buffers;
pub mod ending;
pub mod found;
pub mod judges;
pub mod line_buffer;
pub mod plans;
pub mod resources;
pub mod saving;
pub mod serially;
pub mod todo;
pub mod tracing;
pub mod walking;

pub use buffers::{RunBuffers, make_buffers};
pub use ending::{end_run, text_of};
pub use found::Found;
pub use judges::guards;
pub use plans::report_plans;
pub use resources::{Resources, Workers, make_resources};
pub use saving::{SavedResources, make_saved_resources, run_saved};
pub use serially::{make_tester, test_serially};
pub use tracing::{TraceRange, trace};
pub use walking::{run_unsaved, walk};
