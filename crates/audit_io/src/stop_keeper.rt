//! A checkpoint store in memory that stops within a save, as if the process were killed there; for tests.

ghost use Rattle.std.specs.Prelude.{◌≡◌, ◌<◌, ◌≤◌, ◌+◌, ◌-◌, ◌^◌, ◌∷◌, [], ◌++◌, false, IsErr, OnOk, Some, min, length, is_ok};
ghost use Rattle.audit_model.specs.Faults.{HasCause};
ghost use Rattle.audit_io.specs.Loads.{HasLoadCause};
ghost use Rattle.audit_model.specs.Pair.{HoldsBytes, KeepsOther};
ghost use Rattle.audit_io.specs.Stops.{HasPassed, after_refused};
ghost use Rattle.audit_model.specs.Attempts.{try_of};
ghost use Rattle.audit_model.specs.Limits.{most_saved_bytes};

use crate::keeper::{Keeper, LoadError};
use crate::mem_keeper::MemKeeper;
use crate::source::Failed;
use audit_model::buffers::Bytes;
use std::marker::Model;

/// A keeper that passes its first saves on to a keeper in memory. The save after them writes only its first bytes and
/// fails. Each later save writes nothing and fails.
#[derive(Drop)]
pub struct StopKeeper {
    inner: MemKeeper,
    passes: u32,
    stopped: bool,
    kept: u32,
    faults: u64,
}

impl Model for StopKeeper {
    ghost use Rattle.audit_io.specs.Stops.{Stopping};

    ghost Value = { Stopping };

    ghost view = { λ k. record { inner = k.inner; passes = k.passes; stopped = k.stopped; kept = k.kept; faults = k.faults } };
}

impl StopKeeper {
    /// Makes a keeper that stops in save number `stop_at`, counted from 1. That save writes its first `kept` bytes.
    pub fn new(inner: MemKeeper, stop_at: u32, kept: u32) -> StopKeeper
        requires { 1 ≤ stop_at }
        ensures { result ≡ record { inner = inner; passes = stop_at - 1; stopped = false; kept = kept; faults = 0 } }
    {
        StopKeeper {
            inner,
            passes: stop_at - 1,
            stopped: false,
            kept,
            faults: 0,
        }
    }

    /// Returns the wrapped keeper.
    pub fn into_inner(self) -> MemKeeper
        ensures { result ≡ self.inner }
    {
        self.inner
    }
}

impl Keeper for StopKeeper {
    ghost state = { λ k. record { slots = Some k.inner.slots; attempted = Some k.inner.attempted; load_faults = record { all = k.inner.load_faults; taken = 0 }; save_faults = min (k.inner.save_faults + k.faults) (2 ^ 64 - 1) } };

    fn load(&mut self, slot: u8, limit: u64, room: &mut Bytes) -> Result<bool, LoadError> {
        self.inner.load(slot, limit, room)
    }

    fn save(&mut self, slot: u8, bytes: &[u8]) -> Result<(), Failed>
        requires slot { slot < 2 }
        requires few { length bytes.now ≤ most_saved_bytes }
        ensures saved { OnOk result (HoldsBytes (Some self.new.inner.slots) slot bytes.now) }
        ensures other { KeepsOther (Some self.old.inner.slots) (Some self.new.inner.slots) slot }
        ensures cause { HasCause (min (self.old.inner.save_faults + self.old.faults) (2 ^ 64 - 1)) (min (self.new.inner.save_faults + self.new.faults) (2 ^ 64 - 1)) result }
        ensures loads { self.new.inner.load_faults ≡ self.old.inner.load_faults }
        ensures attempted { self.new.inner.attempted ≡ self.old.inner.attempted ++ try_of slot bytes.now (is_ok result) ∷ [] }
        ensures passed { 0 < self.old.passes → HasPassed self.old self.new slot bytes.now result }
        ensures refused { self.old.passes ≡ 0 → IsErr result }
        ensures stopped { self.old.passes ≡ 0 → self.new ≡ after_refused self.old slot bytes.now }
    {
        if self.passes > 0 {
            self.passes -= 1;
            return self.inner.save(slot, bytes);
        }
        if self.stopped {
            self.inner.leave_none(slot, bytes);
        } else {
            self.inner.leave_part(slot, bytes, self.kept);
        }
        self.stopped = true;
        self.faults = self.faults.saturating_add(1);
        Err(Failed)
    }
}
