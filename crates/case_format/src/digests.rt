//! Bytes that are made by a call, and their digests.

use crate::names::begin_case;
use audit_model::buffers::Bytes;
use audit_model::memory::Memory;
use audit_model::outcome::Outcome;
use ckpt_format::decode::{Checkpoint, decode};
use ckpt_format::encode::encode_old;
use grid_maker::make;
use hex::encode;
use sha2::{Digest, Sha256};
use std::alloc::Global;
use std::io;

// The only outcome of the checkpoint.
const FOUND: Outcome = Outcome {
    id: 7,
    moved: 5,
    values: [-1, 2, i64::MAX, i64::MIN],
    bins: [0; 9],
};

/// Prints the number of bytes and their SHA-256, after these words.
pub fn show_bytes(rt: &HostRuntime, front: &str, bytes: &[u8]) -> io::Result<()> {
    let digest = encode(rt.alloc(), Sha256::digest(bytes))?;
    println!(rt; "{front} {} bytes sha256 {digest}", bytes.len())
}

// Makes a checkpoint of `FOUND` in the first version of the format, with a digest of zeros and generation 2.
fn checkpoint(alloc: Global) -> Result<Bytes, Memory> {
    let mut out = Bytes::with_room(alloc, 128)?;
    encode_old(&[0; 32], 2, &[FOUND], &mut out);
    Ok(out)
}

fn show_outcome(rt: &HostRuntime, outcome: &Outcome) -> io::Result<()> {
    let [one, two, three, four] = outcome.values;
    println!(rt;
        "id {} moved {} values {one} {two} {three} {four}",
        outcome.id, outcome.moved
    )
}

fn show_read(rt: &HostRuntime, read: &Checkpoint) -> io::Result<()> {
    println!(rt; "version {} generation {}", read.version, read.generation)?;
    match read.outcomes.as_slice().first() {
        Some(outcome) => show_outcome(rt, outcome),
        None => rt.println("no outcome"),
    }
}

fn show_decoded(rt: &HostRuntime, bytes: &[u8]) -> io::Result<()> {
    match decode(rt.alloc(), bytes) {
        Ok(read) => show_read(rt, &read),
        Err(_) => rt.println("no checkpoint"),
    }
}

/// Prints the digest of a checkpoint of the first version, and its decoded contents.
pub fn show_checkpoint(rt: &HostRuntime) -> io::Result<()> {
    begin_case(rt, "checkpoint_of_version_one")?;
    match checkpoint(rt.alloc()) {
        Ok(out) => {
            show_bytes(rt, "checkpoint", out.as_slice())?;
            show_decoded(rt, out.as_slice())
        }
        Err(_) => rt.println("memory"),
    }
}

/// Prints the digest of the text of the largest grid.
pub fn show_grid_text(rt: &HostRuntime) -> io::Result<()> {
    begin_case(rt, "text_of_largest_grid")?;
    match make(rt.alloc(), 30, [0; 32]) {
        Ok(text) => show_bytes(rt, "text", text.as_slice()),
        Err(_) => rt.println("memory"),
    }
}
