//! The printed result of a run.

use crate::digests::show_bytes;
use crate::gate::CaseGate;
use crate::keeper::SaveCounts;
use crate::outside::Outside;
use audit_io::mem_keeper::MemKeeper;
use std::io;
use std::sync::atomic::Ordering;

// Prints the word `waited` if the gate held its first callers until enough trajectories had begun. Then prints the
// number of announced ids, and the ids in rising order.
fn show_announced(rt: &HostRuntime, gate: &CaseGate) -> io::Result<()> {
    let waited = if gate.has_waited() { "waited, " } else { "" };
    print!(rt; "{waited}announced {}:", gate.begun.load(Ordering::SeqCst))?;
    for id in 0..64 {
        if gate.was_observed(id) {
            print!(rt; " {id}")?;
        }
    }
    rt.println("")
}

fn show_slot(rt: &HostRuntime, front: &str, contents: Option<&[u8]>) -> io::Result<()> {
    match contents {
        None => println!(rt; "{front} absent"),
        Some(bytes) => show_bytes(rt, front, bytes),
    }
}

fn show_slots(rt: &HostRuntime, left: &MemKeeper) -> io::Result<()> {
    show_slot(rt, "slot 0", left.slot(0))?;
    show_slot(rt, "slot 1", left.slot(1))
}

// Prints the output and the diagnostic of a run, and what its kind asks for.
fn show_texts(
    rt: &HostRuntime,
    kind: &str,
    outside: &Outside,
    saves: SaveCounts,
    left: &MemKeeper,
) -> io::Result<()> {
    rt.write_all(outside.out.bytes())?;
    rt.write_all(outside.note.bytes())?;
    match kind {
        "slots" | "each" => show_slots(rt, left),
        "saves" => println!(rt; "saves {} early {}", saves.all, saves.early),
        _ => Ok(()),
    }
}

/// Prints the result of a run of a line of this kind. `left` has the slots that it leaves.
pub fn show_run(
    rt: &HostRuntime,
    kind: &str,
    status: u8,
    outside: &Outside,
    saves: SaveCounts,
    left: &MemKeeper,
) -> io::Result<()> {
    println!(rt; "status {status}")?;
    show_announced(rt, &outside.gate)?;
    match kind {
        "time" => println!(rt; "in the first half {}", outside.gate.was_observed_early()),
        _ => show_texts(rt, kind, outside, saves, left),
    }
}
