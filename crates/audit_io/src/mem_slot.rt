//! One slot in memory.

ghost use Rattle.std.specs.Prelude.{◌≡◌, ◌≤◌, length, IfOk, Some, option_map};
ghost use Rattle.audit_io.specs.Loads.{Loads, LoadsWithin, IsFaultless};
ghost use Rattle.audit_model.specs.Limits.{most_saved_bytes};

use crate::keeper::LoadError;
use audit_model::buffers::Bytes;
use audit_model::memory::Memory;
use std::alloc::Global;
use std::marker::Model;

/// The largest number of bytes of a save: the size of the largest checkpoint.
pub const MOST_SAVED: usize = 8_000_084;

/// A slot in memory: empty, or a list of bytes. Its buffer has capacity for every save, so a save
/// cannot fail.
#[derive(Drop)]
pub struct MemSlot {
    there: bool,
    bytes: Bytes,
}

impl Model for MemSlot {
    ghost use Rattle.std.specs.Prelude.{◌+◌, ◌≤◌, length};
    ghost use Rattle.audit_model.specs.Pair.{Stored, stored_if};
    ghost use Rattle.audit_model.specs.Limits.{most_saved_bytes};

    ghost Value = { Stored };

    ghost view = { λ s. stored_if s.there s.bytes.items };

    ghost invariant = { λ s. most_saved_bytes ≤ length s.bytes.items + s.bytes.spare };
}

impl MemSlot {
    /// Makes a slot with these contents. Fails if there is no memory.
    pub fn new(alloc: Global, given: Option<Bytes>) -> Result<MemSlot, Memory>
        ensures { IfOk result (λ s. s ≡ option_map (λ b. b.items) given) }
    {
        match given {
            None => Ok(MemSlot {
                there: false,
                bytes: Bytes::with_room(alloc, MOST_SAVED)?,
            }),
            Some(given) => {
                let mut bytes = Bytes::with_room(alloc, given.len().max(MOST_SAVED))?;
                bytes.append(given.as_slice())?;
                Ok(MemSlot { there: true, bytes })
            }
        }
    }

    /// Returns the contents of the slot, or `None` if it is empty.
    pub fn bytes(&self) -> Option<&[u8]>
        ensures { option_map (λ b. b.now) result ≡ self.now }
    {
        if self.there {
            Some(self.bytes.as_slice())
        } else {
            None
        }
    }

    /// Clears `room` and copies the slot's bytes into it. Returns false if the slot is empty, and
    /// `Long` if it has more than `limit` bytes.
    pub fn load(&self, limit: u64, room: &mut Bytes) -> Result<bool, LoadError>
        ensures found { Loads self.now limit room.new.items result }
        ensures within { LoadsWithin limit room.new.items result }
        ensures faultless { IsFaultless result }
    {
        room.clear();
        if !self.there {
            return Ok(false);
        }
        let bytes = self.bytes.as_slice();
        if bytes.len() as u64 > limit {
            return Err(LoadError::Long(limit));
        }
        match room.append(bytes) {
            Ok(()) => Ok(true),
            Err(_) => Err(LoadError::Memory),
        }
    }

    /// Replaces the contents of the slot with these bytes.
    pub fn save(&mut self, bytes: &[u8])
        requires { length bytes.now ≤ most_saved_bytes }
        ensures { self.new ≡ Some bytes.now }
    {
        self.there = true;
        self.bytes.clear();
        match self.bytes.append(bytes) {
            Ok(()) => {}
            Err(_) => unreachable!(),
        }
    }
}
