//! A source in memory with injected failures, for tests.

ghost use Rattle.std.specs.Prelude.{◌≡◌, ◌+◌, ◌-◌, ◌^◌, ◌≤◌, min, IfOk, IsErr, ◌↔◌, Some, Contains, length, ◌<◌};
ghost use Rattle.std.specs.Io.{ReadsAtMost};
ghost use Rattle.std.specs.Io.KnownBytes.{ReadConsumes};
ghost use Rattle.audit_model.specs.Faults.{HasCause};

use crate::copying::give;
use crate::source::{Failed, Source};
use audit_model::buffers::Bytes;
use audit_model::lists::NumList;
use std::marker::Model;

/// A source that gives up to `most` bytes in each call. A call fails if its number is in `fails`.
#[derive(Drop)]
pub struct MemSource {
    bytes: Bytes,
    at: usize,
    most: usize,
    fails: NumList,
    calls: u64,
    faults: u64,
}

impl Model for MemSource {
    ghost use Rattle.std.specs.Prelude.{ℕ, ◌≤◌, ◌<◌, drop, length};
    ghost use Rattle.audit_io.specs.Mem.{MemoryBytes};

    ghost Value = { MemoryBytes };

    ghost view = { λ s. record { bytes = drop s.at s.bytes.items; most = s.most; fails = s.fails; calls = s.calls; faults = s.faults } };

    ghost invariant = { λ s. (s.at ≤ length s.bytes.items) × (0 < s.most) };
}

impl MemSource {
    /// Makes a source of these bytes. `fails` has the numbers of the calls that fail, counted from
    /// 1.
    pub fn new(bytes: Bytes, most: usize, fails: NumList) -> MemSource
        requires { 1 ≤ most }
        ensures { result ≡ record { bytes = bytes.items; most = most; fails = fails; calls = 0; faults = 0 } }
    {
        MemSource {
            bytes,
            at: 0,
            most,
            fails,
            calls: 0,
            faults: 0,
        }
    }
}

impl Source for MemSource {
    ghost state = { λ s. record { bytes = Some s.bytes; faults = s.faults } };

    fn read(&mut self, into: &mut [u8]) -> Result<usize, Failed>
        requires room { 0 < length into.old }
        ensures amount { ReadsAtMost result into.new }
        ensures bytes { ReadConsumes (Some self.old.bytes) (Some self.new.bytes) result into.new }
        ensures cause { HasCause self.old.faults self.new.faults result }
        ensures fails { IsErr result ↔ Contains self.old.fails self.new.calls }
        ensures calls { self.new.calls ≡ min (self.old.calls + 1) (2 ^ 64 - 1) }
        ensures count { IfOk result (λ n. n ≡ min (min (length self.old.bytes) (length into.old)) self.old.most) }
        ensures same { (self.new.fails ≡ self.old.fails) × (self.new.most ≡ self.old.most) }
    {
        self.calls = self.calls.saturating_add(1);
        if self.fails.as_slice().contains(&self.calls) {
            self.faults = self.faults.saturating_add(1);
            return Err(Failed);
        }
        let count = give(self.bytes.as_slice(), self.at, self.most, into);
        self.at += count;
        Ok(count)
    }
}
