//! The keeper of a run. It counts the saves, and those that hold more outcomes than ids were announced.

ghost use Rattle.std.specs.Prelude.{◌≡◌};

use audit_io::keeper::{Keeper, LoadError};
use audit_io::source::Failed;
use audit_io::stop_keeper::StopKeeper;
use audit_model::buffers::Bytes;
use std::alloc::Global;
use std::sync::Arc;
use std::sync::atomic::{AtomicU64, Ordering};

/// The number of saves, and the number of early ones. A save is early if fewer ids were announced than it has outcomes.
#[derive(Clone, Copy)]
pub struct SaveCounts {
    pub all: u64,
    pub early: u64,
}

/// A keeper that counts saves and early saves. The count of early saves is right if the run saves after each hand-in,
/// because then the n-th save holds n outcomes.
pub struct CountedKeeper<K> {
    inner: K,
    announced: Arc<AtomicU64, Global>,
    /// The counts of saves.
    pub saves: SaveCounts,
}

/// The keeper of a run.
pub type RunKeeper = CountedKeeper<StopKeeper>;

// Written by hand, for the same reason as `Drop` of the gate.
impl<K: Drop> Drop for CountedKeeper<K> {
    fn drop(self) {
        let CountedKeeper {
            inner: _inner,
            announced: _announced,
            saves: _,
        } = self;
    }
}

impl<K> CountedKeeper<K> {
    /// Makes a keeper that has saved nothing, over the count of announced ids.
    pub fn new(inner: K, announced: Arc<AtomicU64, Global>) -> CountedKeeper<K> {
        CountedKeeper {
            inner,
            announced,
            saves: SaveCounts { all: 0, early: 0 },
        }
    }

    /// Returns the wrapped keeper.
    pub fn into_inner(self) -> K {
        let CountedKeeper {
            inner,
            announced: _announced,
            saves: _,
        } = self;
        inner
    }

    // Counts a save.
    fn count(&mut self)
        ensures { self.new.inner ≡ self.old.inner }
    {
        self.saves.all = self.saves.all.wrapping_add(1);
        if self.announced.load(Ordering::SeqCst) < self.saves.all {
            self.saves.early = self.saves.early.wrapping_add(1);
        }
    }
}

impl<K: Keeper> Keeper for CountedKeeper<K> {
    ghost state = { λ k. K.state k.inner };

    ghost lets = { λ k slot bytes. K.lets k slot bytes };

    fn load(&mut self, slot: u8, limit: u64, room: &mut Bytes) -> Result<bool, LoadError> {
        self.inner.load(slot, limit, room)
    }

    fn save(&mut self, slot: u8, bytes: &[u8]) -> Result<(), Failed> {
        self.count();
        self.inner.save(slot, bytes)
    }
}
