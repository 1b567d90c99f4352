//! From the arguments and the source to a job, and from the slots to the initial outcomes of its run.
//!
//! `reading` reads the source to its end, and `prepare` makes a job from its bytes and the arguments, or gives the
//! reason why there is none. `resume_state` looks at the slots of a run that saves or resumes, and returns the initial
//! outcomes and the place of the first save.
#![tactic(auto)]

pub mod prepare;
pub mod reading;
pub mod resume_state;

pub use prepare::word_end;
pub use reading::{ReadEnd, read_source};
pub use resume_state::{ResumeState, SaveTarget, open};
