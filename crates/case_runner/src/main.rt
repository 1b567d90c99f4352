//! Whole audits over sources, sinks and keepers in memory: one or more for each line of the file `cases`. They need an
//! outside that fails in its turn, or a gate that sees each trajectory begin. The crate `case_format` describes the
//! lines and the output. The test `case_output` makes all other audits with the auditor itself.
//!
//! Then come public calls that no command of the auditor makes, or whose answer no contract states.
//!
//! Each line and each call is a case with its own name. The output of a case begins with the name.
#![tactic(auto)]

mod calls;
mod flips;
mod graphs;
mod lines;

use crate::calls::show_calls;
use crate::flips::show_proposals;
use crate::lines::run_lines;
use case_format::{show_checkpoint, show_grid_text, show_machine};
use std::test::Fail;

fn main(rt: HostRuntime) -> Result<(), Fail> {
    run_lines(&rt, &rt)?;
    show_checkpoint(&rt)?;
    show_grid_text(&rt)?;
    show_machine(&rt)?;
    show_proposals(&rt)?;
    show_calls(&rt)
}
