//! The finding of a gathering in one folder.

ghost use Rattle.std.specs.Prelude.{◌≡◌, IfOk};
ghost use Rattle.audit_model.specs.Run.{total};
ghost use Rattle.ckpt_store.specs.Collected.{IsCovered};
ghost use Rattle.ckpt_store.specs.Findings.{IsFound, is_added, is_start};

use crate::collection::Collection;
use crate::folder_content::{has_broken, newest_content};
use crate::look::{LookFault, look};
use audit_io::keeper::Keeper;
use audit_model::buffers::Bytes;
use audit_model::memory::Memory;
use plan_core::job::Job;
use std::alloc::Global;

/// The finding in a folder: the folder's outcomes were added, or the reason why they were not.
#[derive(Clone, Copy)]
pub enum Finding {
    /// The folder's `count` outcomes were added. Of their ids, `new` were not in the union before. `beside` is true if
    /// the slot beside the newest one is broken.
    Added { count: u32, new: u32, beside: bool },
    /// Both slots are empty.
    Nothing,
    /// The newest checkpoint is another job's.
    OtherJob,
    /// No slot is valid, and at least one is not empty.
    Damaged,
    /// An outcome of the folder contradicts the union, and nothing was added. `id` is the least id at which the folder
    /// contradicts the union. `other` is the number of the first folder whose outcome for `id` was added and
    /// contradicts this folder's. The working folder has the number 0.
    Differs { id: u32, other: usize },
    /// A slot could not be loaded.
    Unread,
    /// A slot could not be loaded because another process has locked the folder.
    Taken,
}

impl Finding {
    /// Returns true if the folder's outcomes were added.
    pub fn is_added(&self) -> bool
        ensures { result ≡ is_added self.now }
    {
        match self {
            Finding::Added { .. } => true,
            Finding::Nothing
            | Finding::OtherJob
            | Finding::Damaged
            | Finding::Differs { .. }
            | Finding::Unread
            | Finding::Taken => false,
        }
    }

    /// Returns true if the folder's outcomes were added, or if both slots of the folder are empty.
    pub fn is_start(&self) -> bool
        ensures { result ≡ is_start self.now }
    {
        match self {
            Finding::Added { .. } | Finding::Nothing => true,
            Finding::OtherJob
            | Finding::Damaged
            | Finding::Differs { .. }
            | Finding::Unread
            | Finding::Taken => false,
        }
    }
}

/// Looks at the slots of the next folder, and adds the outcomes of the newest slot to the collection. If one of these
/// outcomes contradicts the union, nothing is added.
///
/// # Errors
///
/// Out of memory. The collection must not be used any more.
pub fn find_in<F: Keeper>(
    alloc: Global,
    collection: &mut Collection,
    folder: &mut F,
    job: &Job,
    digest: &[u8; 32],
    room: &mut Bytes,
) -> Result<Finding, Memory>
    requires total { collection.old.total ≡ total job.now }
    requires covered { IsCovered collection.old }
    ensures total { IfOk result (λ _. collection.new.total ≡ collection.old.total) }
    ensures covered { IfOk result (λ _. IsCovered collection.new) }
    ensures found { IfOk result (λ f. IsFound job.now digest.now (F.state folder.old) (F.state folder.new) collection.old f collection.new) }
{
    match look(alloc, folder, job, digest, room) {
        Ok(slots) => {
            let beside = has_broken(&slots);
            let given = newest_content(job, digest, slots);
            collection.add(alloc, job, given, beside)
        }
        Err(LookFault::Failed) => collection.leave_out(alloc, Finding::Unread),
        Err(LookFault::Taken) => collection.leave_out(alloc, Finding::Taken),
        Err(LookFault::Memory) => Err(Memory),
    }
}
