//! The folders that the program opens.

ghost use Rattle.std.specs.Prelude.{◌≡◌, Bool, IfOk, List, ℕ, None, length, map, string_bytes};
ghost use Rattle.audit_model.specs.State.{KeeperState};

use audit_io::file_calls::SystemCalls;
use audit_io::folder_keeper::FolderKeeper;
use audit_io::keeper::Keeper;
use std::alloc::{AllocError, Global};

/// Opens folders of checkpoints, which are only read.
pub trait Folders<'a> {
    /// The slots of an opened folder.
    type Slots: Keeper + Drop;

    /// The state of a folder's slots when the folder is opened: by its path, and by whether each load takes its lock.
    ghost opens: { Self → List ℕ → Bool → KeeperState };

    /// Opens the folder with this path. If `locks` is true, each load takes the folder's lock, except in the working
    /// folder.
    fn open(&self, folder: &'a str, locks: bool) -> Self::Slots
        ensures { Self.Slots.state result ≡ opens self.now folder.now locks };
}

/// The folders of the file system.
#[derive(Drop)]
pub struct SystemFolders<'a> {
    rt: &'a HostRuntime,
}

impl<'a> SystemFolders<'a> {
    /// Makes the folders that this runtime may open.
    pub fn new(rt: &'a HostRuntime) -> SystemFolders<'a> {
        SystemFolders { rt }
    }
}

impl<'a> Folders<'a> for SystemFolders<'a> {
    type Slots = FolderKeeper<'a, SystemCalls<'a, HostRuntime>>;

    ghost opens = { λ _ _ _. record { slots = None; attempted = None; load_faults = record { all = 0; taken = 0 }; save_faults = 0 } };

    fn open(&self, folder: &'a str, locks: bool) -> FolderKeeper<'a, SystemCalls<'a, HostRuntime>>
        ensures state { (⟦<FolderKeeper<'a, SystemCalls<'a, HostRuntime>> as Keeper>⟧.state result) ≡ record { slots = None; attempted = None; load_faults = record { all = 0; taken = 0 }; save_faults = 0 } }
        ensures folder { result.place.folder.now ≡ folder.now }
        ensures locks { result.place.locks ≡ locks }
    {
        FolderKeeper::new(SystemCalls::new(self.rt), self.rt.alloc(), folder, locks)
    }
}

/// Opens each of these folders, in order.
pub fn open_all<'a, F: Folders<'a>>(
    alloc: Global,
    folders: &F,
    names: &'a [String],
    locks: bool,
) -> Result<Vec<F::Slots>, AllocError>
    ensures count { IfOk result (λ opened. length opened.items ≡ length names.now) }
    ensures states { IfOk result (λ opened. map (λ k. F.Slots.state k) opened.items ≡ map (λ f. F.opens folders.now f locks) (map string_bytes names.now)) }
{
    let mut opened = Vec::new(alloc);
    for name in names {
        opened.push(folders.open(name.as_str(), locks))?;
    }
    Ok(opened)
}
