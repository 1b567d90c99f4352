//! The format of the cases of `case_runner`, and the calls that need no job.
//!
//! Each line of the file `cases` is a run over a source, sinks and a keeper in memory. It has these words, then the
//! file of the graph and the arguments of the audit:
//!
//! - the name of the case
//! - the kind, which says what is printed after the status and the announced ids. `text` prints the output and the
//!   diagnostic. `slots` also prints both slots. `each` does too, and makes more runs until one ends with status 0 or
//!   7. `saves` also prints the number of saves and of early ones. `time` only prints whether the first id came in the
//!   first half of the run. `sure` makes a run in which nothing outside can fail; its sink keeps no bytes.
//! - the numbers of the read, write, load and save that fail, or 0 for none; `n` is the number of the run
//! - 0, or the number of bytes that a stop within that save leaves. No later save changes a slot.
//! - the maximum number of bytes of a read and of a write
//! - the contents of slots 0 and 1: `absent`, or `same` for the contents after the run before. `spoilt` is `same` with
//!   its last byte changed. `long` is one byte more than a checkpoint can have. Any other word names a file.
//! - the number of first trajectories that the gate holds, and the number that must begin before it lets these go on
//!
//! The output of a case begins with a line that has its name. `digests` makes bytes and prints their digest, and
//! `machine` gives events to the run machine.
//!
//! A proof takes a second or more for each function, and longer if more values are dropped at an early return. So one
//! format serves all lines, and each function makes one value and lends it to the next.
#![tactic(auto)]

mod digests;
mod gate;
mod keeper;
mod machine;
mod names;
mod outside;
mod setups;
mod shown;
mod slots;

pub use digests::{show_checkpoint, show_grid_text};
pub use gate::CaseGate;
pub use keeper::{RunKeeper, SaveCounts};
pub use machine::show_machine;
pub use names::{begin_case, begin_line};
pub use outside::{Outside, outside_of};
pub use setups::{Setup, setup_of, word, words_of};
pub use shown::show_run;
pub use slots::{bytes_of, empty_slots, keeper_of, sure_keeper_of};
