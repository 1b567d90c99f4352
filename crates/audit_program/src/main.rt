//! The auditor as a program. It reads the graph from standard input and writes the text to standard output. For each
//! exit status but 0 it writes the reason to standard error. Checkpoints go to two files of the working folder.
#![tactic(auto)]

mod this_build;

use crate::this_build::THIS_BUILD;
use audit_io::file_calls::SystemCalls;
use audit_io::file_keeper::FileKeeper;
use audit_io::gate::FreeGate;
use audit_io::retry_on_would_block::RetryOnWouldBlock;
use audit_io::std_adapters::{ReadSource, WriteSink};
use audit_run::Lender;
use audit_run::plain::audit_plainly;
use std::process::ExitCode;
use std::rt::Env;
use std::{env, io};

// Returns the arguments after the program's own name.
fn words_of<R: Env + AllocGlobal>(rt: &R) -> io::Result<Vec<String>> {
    let mut words = Vec::new(rt.alloc());
    for word in env::args(rt)?.skip(1) {
        words.push(word)?;
    }
    Ok(words)
}

// Ends the program before the top call: prints a diagnostic on standard error, and returns the exit code.
fn end_with<R: Eprint>(rt: &R, note: &str, status: u8) -> ExitCode {
    match rt.eprintln(note) {
        Ok(()) => {}
        Err(_) => {}
    }
    ExitCode::from(status)
}

fn main(rt: HostRuntime) -> ExitCode {
    let words = match words_of(&rt) {
        Ok(words) => words,
        Err(error) => {
            return match error.kind() {
                io::ErrorKind::OutOfMemory => end_with(&rt, "memory", 3),
                _ => end_with(&rt, "words: not text", 1),
            };
        }
    };
    let mut graph = ReadSource::new(RetryOnWouldBlock::of_reader(rt.stdin(), &rt));
    let mut out = WriteSink::new(RetryOnWouldBlock::of_writer(rt.stdout(), &rt));
    let mut note = WriteSink::new(RetryOnWouldBlock::of_writer(rt.stderr(), &rt));
    let gate = FreeGate::new();
    let mut lender = Lender::new(&rt, rt.alloc(), &gate);
    let (status, _keeper) = audit_plainly(
        &mut lender,
        &THIS_BUILD,
        words.as_slice(),
        &mut graph,
        &mut out,
        &mut note,
        FileKeeper::new(SystemCalls::new(&rt)),
    );
    ExitCode::from(status)
}
