//! A sink in memory with injected failures, for tests.

ghost use Rattle.std.specs.Prelude.{◌≡◌, ◌+◌, ◌-◌, ◌^◌, ◌≤◌, ◌<◌, ◌⊎◌, ◌↔◌, [], min, IsErr, IfOk, OnErr, Some, Contains, length};
ghost use Rattle.std.specs.Io.KnownBytes.{WriteAppends};
ghost use Rattle.audit_model.specs.Faults.{HasCause};

use crate::sink::Sink;
use crate::source::Failed;
use audit_model::buffers::Bytes;
use audit_model::lists::NumList;
use audit_model::memory::Memory;
use std::alloc::Global;
use std::marker::Model;

/// A sink that takes up to `most` bytes in each call. A call fails if the capacity is used up, or if its number is in
/// `fails`.
#[derive(Drop)]
pub struct MemSink {
    bytes: Bytes,
    room: usize,
    most: usize,
    fails: NumList,
    calls: u64,
    faults: u64,
}

impl Model for MemSink {
    ghost use Rattle.std.specs.Prelude.{ℕ, ◌<◌, ◌≤◌};
    ghost use Rattle.audit_io.specs.Mem.{MemoryRoom};

    ghost Value = { MemoryRoom };

    ghost view = { λ s. record { bytes = s.bytes.items; room = s.room; most = s.most; fails = s.fails; calls = s.calls; faults = s.faults } };

    ghost invariant = { λ s. (0 < s.most) × (s.room ≤ s.bytes.spare) };
}

impl MemSink {
    /// Makes a sink with a capacity of `room` bytes, which takes at most `most` bytes in a call. `fails` has the
    /// numbers of the calls that fail, counted from 1. Fails if there is no memory.
    pub fn new(alloc: Global, room: usize, most: usize, fails: NumList) -> Result<MemSink, Memory>
        requires { 1 ≤ most }
        ensures { IfOk result (λ s. s ≡ record { bytes = []; room = room; most = most; fails = fails; calls = 0; faults = 0 }) }
    {
        Ok(MemSink {
            bytes: Bytes::with_room(alloc, room)?,
            room,
            most,
            fails,
            calls: 0,
            faults: 0,
        })
    }

    /// Returns the bytes that the sink has taken so far.
    pub fn bytes(&self) -> &[u8]
        ensures { result.now ≡ self.now.bytes }
    {
        self.bytes.as_slice()
    }
}

impl Sink for MemSink {
    ghost state = { λ s. record { bytes = Some s.bytes; faults = s.faults } };

    fn write(&mut self, bytes: &[u8]) -> Result<usize, Failed>
        requires some { 0 < length bytes.now }
        ensures amount { IfOk result (λ n. (0 < n) × (n ≤ length bytes.now)) }
        ensures bytes { WriteAppends (Some self.old.bytes) (Some self.new.bytes) result bytes.now }
        ensures cause { HasCause self.old.faults self.new.faults result }
        ensures fails { IsErr result ↔ (Contains self.old.fails self.new.calls ⊎ (self.old.room ≡ 0)) }
        ensures count { IfOk result (λ n. n ≡ min (min (length bytes.now) self.old.most) self.old.room) }
        ensures room { IfOk result (λ n. self.new.room + n ≡ self.old.room) }
        ensures refused { OnErr result (self.new.room ≡ self.old.room) }
        ensures calls { self.new.calls ≡ min (self.old.calls + 1) (2 ^ 64 - 1) }
        ensures same { (self.new.fails ≡ self.old.fails) × (self.new.most ≡ self.old.most) }
    {
        self.calls = self.calls.saturating_add(1);
        if self.fails.as_slice().contains(&self.calls) || self.room == 0 {
            self.faults = self.faults.saturating_add(1);
            return Err(Failed);
        }
        let count = bytes.len().min(self.most).min(self.room);
        match self.bytes.append(&bytes[..count]) {
            Ok(()) => {
                self.room -= count;
                Ok(count)
            }
            Err(_) => unreachable!(),
        }
    }
}
