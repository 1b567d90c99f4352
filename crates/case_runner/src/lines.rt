//! The runs of the lines of the file `cases`.

use audit_io::mem_keeper::MemKeeper;
use audit_io::sure::{SureSink, SureSource};
use audit_io::sure_keeper::SureKeeper;
use audit_run::Lender;
use audit_run::audit::audit;
use audit_run::sure::audit_surely;
use audit_words::Build;
use case_format::{
    Outside, RunKeeper, SaveCounts, Setup, begin_line, bytes_of, empty_slots, keeper_of,
    outside_of, setup_of, show_run, sure_keeper_of, word, words_of,
};
use std::str::SplitWhitespace;
use std::sync::{Arc, Wait};
use std::test::Fail;
use std::thread::Threads;
use std::{fs, io};

/// The build that `--version` reports in these audits.
const BUILD: Build<'static> = Build {
    version: "1.2.3",
    commit: "0a1b2c3d",
    kit: "kit 7 logic 8",
};

/// One more than the maximum number of runs of a line.
const PAST_RUNS: u64 = 1000;

/// The arguments and the graph of a run.
#[derive(Clone, Copy)]
struct Given<'a> {
    words: &'a [String],
    graph: &'a [u8],
}

fn audit_kept<R: Threads + Wait + Sync>(
    rt: &HostRuntime,
    threads: &R,
    words: &[String],
    outside: &mut Outside,
    keeper: RunKeeper,
) -> (u8, RunKeeper) {
    let mut lender = Lender::new(threads, rt.alloc(), &outside.gate);
    audit(
        &mut lender,
        &BUILD,
        words,
        &mut outside.source,
        &mut outside.out,
        &mut outside.note,
        keeper,
    )
}

// Returns the status of an audit in which nothing outside can fail.
fn audit_sure<R: Threads + Wait + Sync>(
    rt: &HostRuntime,
    threads: &R,
    words: &[String],
    source: &mut SureSource,
    outside: &mut Outside,
    keeper: SureKeeper,
) -> u8 {
    let mut lender = Lender::new(threads, rt.alloc(), &outside.gate);
    let mut out = SureSink::new();
    let note = &mut outside.note;
    let (status, keeper) = audit_surely(&mut lender, &BUILD, words, source, &mut out, note, keeper);
    drop(keeper);
    status
}

// Runs an audit in which nothing outside can fail.
fn run_surely<R: Threads + Wait + Sync>(
    rt: &HostRuntime,
    threads: &R,
    setup: &Setup<'_>,
    given: Given<'_>,
    outside: &mut Outside,
    left: &MemKeeper,
) -> Result<u8, Fail> {
    let mut source = SureSource::new(bytes_of(rt.alloc(), given.graph)?);
    let keeper = sure_keeper_of(rt, setup, left)?;
    let status = audit_sure(rt, threads, given.words, &mut source, outside, keeper);
    drop(source);
    let saves = SaveCounts { all: 0, early: 0 };
    show_run(rt, setup.kind, status, outside, saves, left)?;
    Ok(status)
}

// Runs an audit over the slots that the run before left, and stores the new contents there.
fn run_kept<R: Threads + Wait + Sync>(
    rt: &HostRuntime,
    threads: &R,
    setup: &Setup<'_>,
    words: &[String],
    outside: &mut Outside,
    left: &mut MemKeeper,
) -> Result<u8, Fail> {
    let begun = Arc::try_clone(&outside.gate.begun)?;
    let keeper = keeper_of(rt, setup, left, begun)?;
    let (status, keeper) = audit_kept(rt, threads, words, outside, keeper);
    let saves = keeper.saves;
    *left = keeper.into_inner().into_inner();
    show_run(rt, setup.kind, status, outside, saves, left)?;
    Ok(status)
}

fn run_given<R: Threads + Wait + Sync>(
    rt: &HostRuntime,
    threads: &R,
    setup: &Setup<'_>,
    given: Given<'_>,
    left: &mut MemKeeper,
) -> Result<u8, Fail> {
    let mut outside = outside_of(rt, setup, given.graph)?;
    let status = match setup.kind {
        "sure" => run_surely(rt, threads, setup, given, &mut outside, left),
        _ => run_kept(rt, threads, setup, given.words, &mut outside, left),
    };
    drop(outside);
    status
}

// Reads the graph and the arguments from the rest of a line, and runs the audit.
fn run_rest<R: Threads + Wait + Sync>(
    rt: &HostRuntime,
    threads: &R,
    setup: &Setup<'_>,
    mut parts: SplitWhitespace<'_>,
    left: &mut MemKeeper,
) -> Result<u8, Fail> {
    let graph = fs::read(rt, word(&mut parts))?;
    let words = words_of(rt.alloc(), parts)?;
    let given = Given {
        words: words.as_slice(),
        graph: graph.as_slice(),
    };
    run_given(rt, threads, setup, given, left)
}

// Prints the number of a run of a line that may have several.
fn show_number(rt: &HostRuntime, kind: &str, run: u64) -> io::Result<()> {
    match kind {
        "each" => println!(rt; "run {run}"),
        _ => Ok(()),
    }
}

// Makes the run of this number of a line. Returns true if it is the last.
fn run_once<R: Threads + Wait + Sync>(
    rt: &HostRuntime,
    threads: &R,
    line: &str,
    run: u64,
    left: &mut MemKeeper,
) -> Result<bool, Fail> {
    let mut parts = line.split_whitespace();
    let setup = setup_of(&mut parts, run);
    show_number(rt, setup.kind, run)?;
    let status = run_rest(rt, threads, &setup, parts, left)?;
    Ok(setup.kind != "each" || status == 0 || status == 7)
}

fn run_line<R: Threads + Wait + Sync>(
    rt: &HostRuntime,
    threads: &R,
    line: &str,
    left: &mut MemKeeper,
) -> Result<(), Fail> {
    let line = begin_line(rt, line)?;
    for run in 1..PAST_RUNS {
        if run_once(rt, threads, line, run, left)? {
            break;
        }
    }
    Ok(())
}

fn run_each<R: Threads + Wait + Sync>(
    rt: &HostRuntime,
    threads: &R,
    lines: &str,
) -> Result<(), Fail> {
    let mut left = empty_slots(rt.alloc())?;
    for line in lines.lines() {
        run_line(rt, threads, line, &mut left)?;
    }
    Ok(())
}

/// Makes the runs of each line of the file `cases`.
pub fn run_lines<R: Threads + Wait + Sync>(rt: &HostRuntime, threads: &R) -> Result<(), Fail> {
    let lines = fs::read_to_string(rt, "cases")?;
    run_each(rt, threads, lines.as_str())
}
