//! The words of a line. The documentation of the crate has their order.

use std::alloc::{AllocError, Global};
use std::str::SplitWhitespace;

/// The inputs of a run besides its graph and its arguments.
#[derive(Clone, Copy)]
pub struct Setup<'a> {
    /// The kind of the line.
    pub kind: &'a str,
    /// The numbers of the read, write, load and save that fail, or 0 for none.
    pub failing_read: u64,
    pub failing_write: u64,
    pub failing_load: u64,
    pub failing_save: u64,
    /// The number of bytes that a stop within the save leaves, or 0 if the run is not stopped.
    pub kept: u64,
    /// The maximum number of bytes of a read and of a write.
    pub most: u64,
    /// The contents of both slots.
    pub zero: &'a str,
    pub one: &'a str,
    /// The number of first trajectories that the gate holds, and the number that must begin before it lets these go on.
    pub held: u64,
    pub wanted: u64,
}

/// Returns the next word of a line, or an empty one.
pub fn word<'a>(parts: &mut SplitWhitespace<'a>) -> &'a str {
    parts.next().unwrap_or("")
}

// Returns the number that the next word gives: `n` gives the number of the run, and a word that is no number 0.
fn number(parts: &mut SplitWhitespace<'_>, run: u64) -> u64 {
    match word(parts) {
        "n" => run,
        digits => digits.parse::<u64>().unwrap_or(0),
    }
}

/// Returns the setup of the run with this number. Leaves the file of the graph and the arguments in `parts`.
pub fn setup_of<'a>(parts: &mut SplitWhitespace<'a>, run: u64) -> Setup<'a> {
    Setup {
        kind: word(parts),
        failing_read: number(parts, run),
        failing_write: number(parts, run),
        failing_load: number(parts, run),
        failing_save: number(parts, run),
        kept: number(parts, run),
        most: number(parts, run),
        zero: word(parts),
        one: word(parts),
        held: number(parts, run),
        wanted: number(parts, run),
    }
}

/// Returns the rest of a line as arguments.
pub fn words_of(alloc: Global, parts: SplitWhitespace<'_>) -> Result<Vec<String>, AllocError> {
    let mut words = Vec::new(alloc);
    for word in parts {
        words.push(word.to_string(alloc)?)?;
    }
    Ok(words)
}
