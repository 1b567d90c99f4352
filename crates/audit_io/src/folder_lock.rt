//! The lock of a folder, which one process at a time can hold.

ghost use Rattle.std.specs.Prelude.{◌≡◌, ◌≢◌, ◌↔◌, ◌⊎◌, IsTrue, None, Some, Ok, Err, IsOk, IsErrAnd, pos};
ghost use Rattle.std.specs.IoError.{error_kind, raw_os_error};
ghost use Rattle.audit_io.specs.FileCalls.{MeansNoLocks};
ghost use Rattle.audit_io.specs.Keepers.{load_error_of};

use crate::keeper::LoadError;
use std::fs::{File, TryLockError};
use std::io;
use std::io::ErrorKind;
use std::rt::Files;

// The number of the error `ENOLCK` of Linux, which has no kind of its own.
const NO_LOCKS: i32 = 37;

/// The reason why the lock of a folder could not be taken.
#[derive(Clone, Copy)]
pub enum LockError {
    /// Another process holds the lock.
    Taken,
    /// The attempt failed, and not because the system has no such lock for the folder.
    Failed,
}

impl LockError {
    /// Converts the error to that of a load.
    pub fn load_error(self) -> LoadError
        ensures { result ≡ load_error_of self }
    {
        match self {
            LockError::Taken => LoadError::Taken,
            LockError::Failed => LoadError::Failed,
        }
    }
}

/// Returns true if the error says that the system has no such lock for a folder. Its number is then that of `ENOLCK`,
/// `EOPNOTSUPP` or `ENOSYS`. The last two are of the kind `Unsupported`.
pub fn has_no_locks(error: &io::Error) -> bool
    ensures { IsTrue result ↔ ((error_kind error.now ≡ ErrorKind.Unsupported) ⊎ (raw_os_error error.now ≡ Some (pos 37))) }
{
    error.kind() == ErrorKind::Unsupported || error.raw_os_error() == Some(NO_LOCKS)
}

/// Interprets the result of an attempt to lock an opened folder. `WouldBlock` means that another process holds the
/// lock. The result is `None` if the system has no such lock for this folder.
pub fn owner_of(
    opened: File,
    attempted: Result<(), TryLockError>,
) -> Result<Option<File>, LockError>
    ensures taken { (result ≡ Err LockError.Taken) ↔ (attempted ≡ Err TryLockError.WouldBlock) }
    ensures own { IsOk attempted → result ≡ Ok (Some opened) }
    ensures unlocked { IsErrAnd attempted MeansNoLocks → result ≡ Ok None }
    ensures failed { IsErrAnd attempted (λ e. (e ≢ TryLockError.WouldBlock) × (¬ MeansNoLocks e)) → result ≡ Err LockError.Failed }
{
    match attempted {
        Ok(()) => Ok(Some(opened)),
        Err(TryLockError::WouldBlock) => Err(LockError::Taken),
        Err(TryLockError::Error(error)) => {
            if has_no_locks(&error) {
                return Ok(None);
            }
            Err(LockError::Failed)
        }
    }
}

/// Takes the exclusive lock of a folder. The lock is held until the returned folder is dropped, and leaves no file
/// behind. Returns `None` if the system has no such lock for this folder, or if there is no such folder.
///
/// # Errors
///
/// - `Taken`: another process holds the lock.
/// - `Failed`: the folder could not be opened or locked for another reason.
pub fn lock_folder<R: Files<File = File>>(
    files: &R,
    folder: &str,
) -> Result<Option<File>, LockError> {
    match File::open(files, folder) {
        Ok(opened) => {
            let attempted = opened.try_lock();
            owner_of(opened, attempted)
        }
        Err(error) => {
            if error.kind() == ErrorKind::NotFound {
                return Ok(None);
            }
            Err(LockError::Failed)
        }
    }
}
