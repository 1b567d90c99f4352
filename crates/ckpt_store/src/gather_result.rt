//! The result of a gathering.

ghost use Rattle.std.specs.Prelude.{◌≡◌};
ghost use Rattle.ckpt_store.specs.declared.gather_result.GatherError.TheVariants as ungathered;

use crate::finding::Finding;
use audit_model::lists::PlainList;
use audit_model::memory::Memory;

/// The findings in several folders, in the order of the folders.
pub type FindingList = PlainList<Finding>;

/// The result of a gathering. `own` is the finding in the working folder, and `folders` has the findings in the other
/// folders. `done` is the number of outcomes in the union, and `saved` is true if the union was saved.
#[derive(Drop)]
pub struct GatherResult {
    pub own: Finding,
    pub folders: FindingList,
    pub done: u32,
    pub saved: bool,
}

/// The reason why a gathering failed.
#[derive(Clone, Copy)]
pub enum GatherError {
    /// Out of memory. No save was attempted.
    Memory,
    /// A slot of the working folder could not be loaded. No save was attempted.
    Unread,
    /// A slot of the working folder could not be loaded because another process has locked the folder. No save was
    /// attempted.
    Taken,
    /// The save failed, and its slot may hold anything.
    Unsaved,
}

impl From<Memory> for GatherError {
    ghost from_gives = { λ _ u. u ≡ ungathered.Memory };

    fn from(_: Memory) -> GatherError {
        GatherError::Memory
    }
}
