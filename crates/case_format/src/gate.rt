//! The gate of a run. It counts and notes the announced ids, may hold its first callers until other trajectories have
//! begun, and notes the time of the first id.

use audit_io::gate::Gate;
use std::alloc::Global;
use std::sync::Arc;
use std::sync::atomic::{AtomicU64, Ordering};
use std::time::Instant;
use std::{io, thread};

/// The number of ids that are noted, each as a bit.
const NOTED: u32 = 64;

/// A gate that counts the announced ids, and notes those below 64. It gives up holding a caller after it has tested the
/// count ten million times.
pub struct CaseGate {
    /// The number of trajectories that have begun.
    pub begun: Arc<AtomicU64, Global>,
    rt: HostRuntime,
    start: Instant,
    held: u64,
    wanted: u64,
    ids: AtomicU64,
    given_up: AtomicU64,
    first: AtomicU64,
}

// Written by hand, so that the proof of a function that drops a gate has one step for the gate and not one for each
// field.
impl Drop for CaseGate {
    fn drop(self) {
        let CaseGate {
            begun: _begun,
            rt: _rt,
            start: _start,
            held: _,
            wanted: _,
            ids: _ids,
            given_up: _given_up,
            first: _first,
        } = self;
    }
}

impl CaseGate {
    /// Makes a gate that holds its first `held` callers until `wanted` trajectories have begun. Its time starts now.
    pub fn new(rt: &HostRuntime, held: u64, wanted: u64) -> io::Result<CaseGate> {
        let start = Instant::now(rt)?;
        let begun = Arc::new(rt.alloc(), AtomicU64::new(0))?;
        Ok(CaseGate {
            begun,
            rt: *rt,
            start,
            held,
            wanted,
            ids: AtomicU64::new(0),
            given_up: AtomicU64::new(0),
            first: AtomicU64::new(u64::MAX),
        })
    }

    /// Returns true if the gate holds callers and gave up on none.
    pub fn has_waited(&self) -> bool {
        self.held > 0 && self.given_up.load(Ordering::SeqCst) == 0
    }

    /// Returns true if this id was announced. Ids from 64 on are not noted.
    pub fn was_observed(&self, id: u32) -> bool {
        id < NOTED && self.ids.load(Ordering::SeqCst) & (1 << id) != 0
    }

    // Returns the microseconds since the gate was made, or the largest number if the clock does not work.
    fn microseconds(&self) -> u64 {
        match self.start.elapsed(&self.rt) {
            Ok(passed) => u64::try_from(passed.as_micros()).unwrap_or(u64::MAX),
            Err(_) => u64::MAX,
        }
    }

    /// Returns true if the first id came in the first half of the time since the gate was made.
    pub fn was_observed_early(&self) -> bool {
        self.first.load(Ordering::SeqCst) < self.microseconds() / 2
    }

    // Waits until enough trajectories have begun.
    fn hold(&self) {
        for _ in 0..10_000_000 {
            if self.begun.load(Ordering::SeqCst) >= self.wanted {
                return;
            }
            thread::yield_now();
        }
        self.given_up.fetch_add(1, Ordering::SeqCst);
    }
}

impl Gate for CaseGate {
    fn before(&self, id: u32) {
        self.first.fetch_min(self.microseconds(), Ordering::SeqCst);
        if id < NOTED {
            self.ids.fetch_or(1 << id, Ordering::SeqCst);
        }
        if self.begun.fetch_add(1, Ordering::SeqCst) < self.held {
            self.hold();
        }
    }
}
