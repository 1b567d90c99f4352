//! One program under two names, for folders with checkpoints of runs.
//!
//! As `audit_slots`, or with the first argument `slots`, it reports the contents of a folder's two checkpoint files,
//! and which is the newest. With the arguments of a run, it also reports how many trajectories are done
//! (`slots_command`). As `audit_gather`, or with the first argument `gather`, it merges the outcomes that runs of one
//! job have saved in several folders (`gather_command`). `slots` and `gathering` write the reports.
#![tactic(auto)]

mod gather_command;
mod gathering;
mod help;
mod job;
mod lines;
mod opened;
mod program;
mod slot_lines;
mod slots;
mod slots_command;
mod this_build;

use crate::opened::SystemFolders;
use crate::program::run_program;
use crate::this_build::THIS_BUILD;
use audit_io::file_calls::SystemCalls;
use audit_io::file_keeper::FileKeeper;
use audit_io::retry_on_would_block::RetryOnWouldBlock;
use audit_io::std_adapters::{ReadSource, WriteSink};
use std::process::ExitCode;
use std::{env, io};

// Returns the name by which the program was called, followed by its arguments.
fn words_of(rt: &HostRuntime) -> io::Result<Vec<String>> {
    let mut words = Vec::new(rt.alloc());
    for word in env::args(rt)? {
        words.push(word)?;
    }
    Ok(words)
}

// Ends the program before its call: prints a diagnostic on standard error, and returns the exit code.
fn end_with(rt: &HostRuntime, note: &str, status: u8) -> ExitCode {
    match rt.eprintln(note) {
        Ok(()) => {}
        Err(_) => {}
    }
    ExitCode::from(status)
}

fn main(rt: HostRuntime) -> ExitCode {
    let words = match words_of(&rt) {
        Ok(words) => words,
        Err(error) => {
            return match error.kind() {
                io::ErrorKind::OutOfMemory => end_with(&rt, "memory", 3),
                _ => end_with(&rt, "words: not text", 1),
            };
        }
    };
    let mut graph = ReadSource::new(RetryOnWouldBlock::of_reader(rt.stdin(), &rt));
    let mut out = WriteSink::new(rt.stdout());
    let mut note = WriteSink::new(rt.stderr());
    let mut keeper = FileKeeper::new(SystemCalls::new(&rt));
    let folders = SystemFolders::new(&rt);
    let (status, _used) = run_program(
        rt.alloc(),
        &THIS_BUILD,
        words.as_slice(),
        &mut graph,
        &folders,
        &mut keeper,
        &mut out,
        &mut note,
    );
    ExitCode::from(status)
}
