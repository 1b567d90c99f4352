//! The call that locks a folder.

ghost use Rattle.std.specs.Prelude.{◌≡◌, None};
ghost use Rattle.audit_io.specs.FileCalls.{called, lock_answer, locked};

use crate::file_calls::{FileCalls, SystemCalls};
use crate::folder_lock::{LockError, lock_folder};
use std::fs::File;
use std::rt::Files;

/// The file-system calls of [`FileCalls`], and one that locks a folder.
pub trait FolderCalls: FileCalls {
    /// A lock of a folder, held until the value is dropped.
    type Lock: Drop;

    /// Takes the exclusive lock of a folder. Returns `None` if the system has no such lock for this
    /// folder.
    ///
    /// # Errors
    ///
    /// - `Taken`: another process holds the lock.
    /// - `Failed`: the attempt failed for another reason.
    fn lock(&mut self, folder: &str) -> Result<Option<Self::Lock>, LockError>
        ensures { Self.calls self.new ≡ called (Self.calls self.old) (locked folder.now (lock_answer result)) None };
}

impl<R: Files<File = File>> FolderCalls for SystemCalls<'_, R> {
    type Lock = File;

    fn lock(&mut self, folder: &str) -> Result<Option<File>, LockError> {
        lock_folder(self.files, folder)
    }
}
