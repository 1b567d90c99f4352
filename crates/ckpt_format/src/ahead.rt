//! The digest of the next checkpoint, hashed in part before the checkpoint is complete.

ghost use Rattle.std.specs.Prelude.{◌≡◌};
ghost use Rattle.sha2.specs.Hashers.{Holds256};
ghost use Rattle.sha2.specs.Sha256.{sha256};

use crate::encode::{append_head, append_outcome};
use crate::places::{OUTCOMES, outcome_size};
use audit_model::buffers::Bytes;
use audit_model::memory::Memory;
use audit_model::outcome::Outcome;
use sha2::{Digest, Sha256};
use std::alloc::Global;
use std::mem;

/// A prediction of the first bytes of the next checkpoint, and a hasher that was fed with them. If the checkpoint
/// begins with the prediction, only its other bytes remain to be hashed. Otherwise the checkpoint is hashed from its
/// first byte. A wrong prediction thus only costs time, and the methods need no precondition.
#[derive(Drop)]
pub struct Ahead {
    bytes: Bytes,
    hasher: Sha256,
    ghost taken: { ∥ Holds256 hasher bytes.items ∥₁ },
}

impl Ahead {
    /// Makes an empty prediction with capacity for `count` bytes. Fails if there is no memory. The other methods
    /// allocate nothing.
    pub fn with_room(alloc: Global, count: usize) -> Result<Ahead, Memory> {
        Ok(Ahead {
            bytes: Bytes::with_room(alloc, count)?,
            hasher: Sha256::new(),
        })
    }

    /// Starts a new prediction with the head of a checkpoint in the second version of the format.
    pub fn begin(&mut self, digest: &[u8; 32], generation: u8, count: u32) {
        self.bytes.clear();
        self.hasher = Sha256::new();
        if self.bytes.spare() >= OUTCOMES {
            append_head(&mut self.bytes, 2, digest, generation, count);
            self.hasher.update(self.bytes.as_slice());
        }
    }

    /// Adds an outcome to the prediction, if there is capacity for it.
    pub fn go_on(&mut self, outcome: &Outcome) {
        if self.bytes.spare() >= outcome_size(2) {
            let before = self.bytes.len();
            append_outcome(&mut self.bytes, true, outcome);
            self.hasher.update(&self.bytes.as_slice()[before..]);
        }
    }

    /// Returns the SHA-256 of `bytes`, and clears the prediction. If `bytes` begins with the prediction, only the bytes
    /// after it are hashed.
    pub fn digest_of(&mut self, bytes: &[u8]) -> [u8; 32]
        ensures { result ≡ sha256 bytes.now }
    {
        let mut hasher = mem::replace(&mut self.hasher, Sha256::new());
        let begins = bytes.starts_with(self.bytes.as_slice());
        let taken = self.bytes.len();
        self.bytes.clear();
        if !begins {
            return Sha256::digest(bytes);
        }
        hasher.update(&bytes[taken..]);
        hasher.finalize()
    }
}
