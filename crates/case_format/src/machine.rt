//! Two runs of the run machine.

ghost use Rattle.std.specs.Prelude.{◌≤◌};
ghost use Rattle.audit_model.specs.Limits.{most_trajectories};

use crate::names::begin_case;
use audit_model::outcome::{Did, Event};
use run_core::machine::Core;
use std::io;

/// A run of two workers with a save and a halt.
const TWO_WORKERS: [Event; 8] = [
    Event::Claim(0),
    Event::Claim(1),
    Event::Claim(2),
    Event::Post(1),
    Event::Save,
    Event::Post(1),
    Event::Halt,
    Event::Claim(0),
];

/// A run in which an id that was claimed but not handed in is claimed again after a halt.
const CLAIMED_AGAIN: [Event; 10] = [
    Event::Claim(32),
    Event::Claim(0),
    Event::Claim(0),
    Event::Halt,
    Event::Post(0),
    Event::Claim(5),
    Event::Post(5),
    Event::Save,
    Event::Halt,
    Event::Claim(0),
];

// Returns the printed word of an answer, and its number.
fn answer_of(did: Did) -> (&'static str, u32) {
    match did {
        Did::Claimed(id) => ("claimed", id),
        Did::Empty => ("empty", 0),
        Did::Posted(id) => ("posted", id),
        Did::Idle => ("idle", 0),
        Did::Saved(count) => ("saved", count),
        Did::Halted => ("halted", 0),
    }
}

// Prints the answer to each event with its number, or 0 if it has none. Then prints the numbers of done and saved ids.
fn show_events(rt: &HostRuntime, core: &mut Core, events: &[Event]) -> io::Result<()> {
    for event in events {
        let (word, number) = answer_of(core.step(*event));
        println!(rt; "{word} {number}")?;
    }
    println!(rt; "done {} saved {}", core.done().len(), core.saved().len())
}

// Prints the answers of a new machine for `total` ids to these events.
fn show_run(rt: &HostRuntime, name: &str, total: u32, events: &[Event]) -> io::Result<()>
    requires { total ≤ most_trajectories }
{
    begin_case(rt, name)?;
    match Core::new(rt.alloc(), total) {
        Ok(mut core) => show_events(rt, &mut core, events),
        Err(_) => rt.println("memory"),
    }
}

/// Prints both runs.
pub fn show_machine(rt: &HostRuntime) -> io::Result<()> {
    show_run(rt, "machine_of_two_workers", 2, &TWO_WORKERS)?;
    show_run(rt, "machine_claims_again_after_halt", 1, &CLAIMED_AGAIN)
}
