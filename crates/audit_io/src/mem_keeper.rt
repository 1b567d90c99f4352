//! A checkpoint store in memory with injected failures, for tests.

ghost use Rattle.std.specs.Prelude.{◌≡◌, ◌<◌, ◌≤◌, ◌+◌, ◌-◌, ◌^◌, ◌/◌, ◌↔◌, ◌∷◌, [], ◌++◌, IfOk, OnOk, OnErr, IsErr, Err, Some, option_map, Contains, min, take, length, is_ok};
ghost use Rattle.audit_model.specs.Faults.{HasCause};
ghost use Rattle.audit_io.specs.Loads.{HasLoadCause, Loads, LoadsWithin};
ghost use Rattle.audit_model.specs.Pair.{KeepsOther, HoldsBytes, stored};
ghost use Rattle.audit_io.specs.Stops.{with_part, with_try};
ghost use Rattle.audit_model.specs.Attempts.{try_of};
ghost use Rattle.audit_model.specs.Limits.{most_saved_bytes};

use crate::attempts::{Attempts, Save};
use crate::keeper::{Keeper, LoadError};
use crate::mem_slot::MemSlot;
use crate::source::Failed;
use audit_model::buffers::Bytes;
use audit_model::lists::NumList;
use audit_model::memory::Memory;
use std::alloc::Global;
use std::marker::Model;

/// Two slots in memory, with calls that fail as the test asks. A save that fails writes the first half of its bytes.
#[derive(Drop)]
pub struct MemKeeper {
    zero: MemSlot,
    one: MemSlot,
    load_fails: NumList,
    save_fails: NumList,
    loads: u64,
    saves: u64,
    load_faults: u64,
    save_faults: u64,
    attempted: Attempts,
}

impl Model for MemKeeper {
    ghost use Rattle.audit_io.specs.Mem.{MemorySlots};

    ghost Value = { MemorySlots };

    ghost view = { λ k. record {
      slots = record { zero_slot = k.zero; one_slot = k.one };
      load_fails = k.load_fails;
      save_fails = k.save_fails;
      loads = k.loads;
      saves = k.saves;
      load_faults = k.load_faults;
      save_faults = k.save_faults;
      attempted = k.attempted.items;
    } };
}

impl MemKeeper {
    /// Makes a keeper with these slots. `load_fails` and `save_fails` have the numbers of the loads and saves that
    /// fail, counted from 1. Fails if there is no memory.
    pub fn new(
        alloc: Global,
        zero: Option<Bytes>,
        one: Option<Bytes>,
        load_fails: NumList,
        save_fails: NumList,
    ) -> Result<MemKeeper, Memory>
        ensures { IfOk result (λ k. k ≡ record {
          slots = record { zero_slot = option_map (λ b. b.items) zero; one_slot = option_map (λ b. b.items) one };
          load_fails = load_fails;
          save_fails = save_fails;
          loads = 0;
          saves = 0;
          load_faults = 0;
          save_faults = 0;
          attempted = [];
        }) }
    {
        Ok(MemKeeper {
            zero: MemSlot::new(alloc, zero)?,
            one: MemSlot::new(alloc, one)?,
            load_fails,
            save_fails,
            loads: 0,
            saves: 0,
            load_faults: 0,
            save_faults: 0,
            attempted: Attempts::new(),
        })
    }

    fn at(&self, slot: u8) -> &MemSlot
        requires { slot < 2 }
        ensures { result.now ≡ stored self.now.slots slot }
    {
        match slot {
            0 => &self.zero,
            _ => &self.one,
        }
    }

    /// Returns the contents of a slot, or `None` if it is empty.
    pub fn slot(&self, slot: u8) -> Option<&[u8]>
        requires { slot < 2 }
        ensures { option_map (λ b. b.now) result ≡ stored self.now.slots slot }
    {
        self.at(slot).bytes()
    }

    // Records a failed save attempt that wrote the first `kept` bytes, or all bytes if there are fewer. The counts of
    // saves and failures do not change.
    pub(crate) fn leave_part(&mut self, slot: u8, bytes: &[u8], kept: u32)
        requires slot { slot < 2 }
        requires few { length bytes.now ≤ most_saved_bytes }
        ensures { self.new ≡ with_part self.old slot bytes.now kept }
    {
        self.attempted = self.attempted.and(&Save {
            slot,
            bytes,
            succeeded: false,
        });
        let part = &bytes[..bytes.len().min(kept as usize)];
        match slot {
            0 => self.zero.save(part),
            _ => self.one.save(part),
        }
    }

    // Records a failed save attempt that wrote nothing. The counts of saves and failures do not change.
    pub(crate) fn leave_none(&mut self, slot: u8, bytes: &[u8])
        ensures { self.new ≡ with_try self.old slot bytes.now }
    {
        self.attempted = self.attempted.and(&Save {
            slot,
            bytes,
            succeeded: false,
        });
    }
}

impl Keeper for MemKeeper {
    ghost state = { λ k. record { slots = Some k.slots; attempted = Some k.attempted; load_faults = record { all = k.load_faults; taken = 0 }; save_faults = k.save_faults } };

    fn load(&mut self, slot: u8, limit: u64, room: &mut Bytes) -> Result<bool, LoadError>
        requires { slot < 2 }
        ensures found { Loads (stored self.old.slots slot) limit room.new.items result }
        ensures within { LoadsWithin limit room.new.items result }
        ensures slots { self.new.slots ≡ self.old.slots }
        ensures cause { HasLoadCause (record { all = self.old.load_faults; taken = 0 }) (record { all = self.new.load_faults; taken = 0 }) result }
        ensures saves { self.new.save_faults ≡ self.old.save_faults }
        ensures attempted { self.new.attempted ≡ self.old.attempted }
        ensures fails { (result ≡ Err LoadError.Failed) ↔ Contains self.old.load_fails self.new.loads }
        ensures calls { self.new.loads ≡ min (self.old.loads + 1) (2 ^ 64 - 1) }
        ensures same { (self.new.load_fails ≡ self.old.load_fails) × (self.new.save_fails ≡ self.old.save_fails) × (self.new.saves ≡ self.old.saves) }
    {
        self.loads = self.loads.saturating_add(1);
        if self.load_fails.as_slice().contains(&self.loads) {
            self.load_faults = self.load_faults.saturating_add(1);
            room.clear();
            return Err(LoadError::Failed);
        }
        self.at(slot).load(limit, room)
    }

    fn save(&mut self, slot: u8, bytes: &[u8]) -> Result<(), Failed>
        requires slot { slot < 2 }
        requires few { length bytes.now ≤ most_saved_bytes }
        ensures saved { OnOk result (HoldsBytes (Some self.new.slots) slot bytes.now) }
        ensures other { KeepsOther (Some self.old.slots) (Some self.new.slots) slot }
        ensures cause { HasCause self.old.save_faults self.new.save_faults result }
        ensures loads { self.new.load_faults ≡ self.old.load_faults }
        ensures attempted { self.new.attempted ≡ self.old.attempted ++ try_of slot bytes.now (is_ok result) ∷ [] }
        ensures fails { IsErr result ↔ Contains self.old.save_fails self.new.saves }
        ensures half { OnErr result (stored self.new.slots slot ≡ Some (take (length bytes.now / 2) bytes.now)) }
        ensures calls { self.new.saves ≡ min (self.old.saves + 1) (2 ^ 64 - 1) }
        ensures same { (self.new.load_fails ≡ self.old.load_fails) × (self.new.save_fails ≡ self.old.save_fails) × (self.new.loads ≡ self.old.loads) }
    {
        self.saves = self.saves.saturating_add(1);
        let fails = self.save_fails.as_slice().contains(&self.saves);
        let kept = if fails { bytes.len() / 2 } else { bytes.len() };
        match slot {
            0 => self.zero.save(&bytes[..kept]),
            _ => self.one.save(&bytes[..kept]),
        }
        self.attempted = self.attempted.and(&Save {
            slot,
            bytes,
            succeeded: !fails,
        });
        if fails {
            self.save_faults = self.save_faults.saturating_add(1);
            return Err(Failed);
        }
        Ok(())
    }
}
