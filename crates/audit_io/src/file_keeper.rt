//! The checkpoint store of a run: two files in the working folder.

ghost use Rattle.std.specs.Prelude.{◌≡◌, ◌⊎◌, ◌↔◌, ◌<◌, false, true, [], None, Ok, Err, IsOk, IsErrAnd, OnOk, is_none, is_ok, is_some};
ghost use Rattle.std.specs.IoError.{error_kind};
ghost use Rattle.std.specs.Io.KnownBytes.{Appends};
ghost use Rattle.audit_model.specs.Faults.{HasCause};
ghost use Rattle.audit_model.specs.Pair.{HoldsBytes};
ghost use Rattle.audit_io.specs.Files.{ReadsWithin};
ghost use Rattle.audit_io.specs.Keepers.{HasKept, HasLoadedSlot, HasTakenFolder, LoadsOpened, load_error_of};
ghost use Rattle.audit_io.specs.Loads.{HasLoadCause, LoadsWithin};

use crate::folder_calls::FolderCalls;
use crate::folder_lock::LockError;
use crate::keeper::{Keeper, LoadError};
use crate::load_count::LoadCount;
use crate::looks::open_slot;
use crate::retry_on_eintr::read_uninterrupted;
use crate::slot_files::{Known, save_slot};
use crate::source::Failed;
use audit_model::buffers::Bytes;
use std::io;
use std::io::{ErrorKind, Read};

// The largest number of bytes that one read asks for.
const PIECE: usize = 4096;

/// A keeper with two slots, the files `audit-0.ckpt` and `audit-1.ckpt` of the working folder.
///
/// A save returns `Ok` only after the system has stored the file and, if the file is new, the folder with the file's
/// name. We trust the file system to keep stored bytes, to return them, and to leave the other file alone. Because this
/// is trust and not proof, the contents of the slots are not observable.
///
/// The first call takes the lock of the working folder, if the system has such locks. The keeper holds the lock until
/// it is dropped. If another process holds the lock, or the attempt to lock fails, the call fails and touches no file.
///
/// A slot must be a plain file or a link to one, and the two slots must be different files. If a slot is a folder, a
/// pipe, a device, a dangling link or a link to the other slot, the call fails without opening it.
///
/// An earlier process may have been killed before it stored its newest file. The first save of this process therefore
/// stores the other slot's file and the folder before it writes.
///
/// The clauses `done` of the methods list each file-system call, in order.
#[derive(Drop)]
pub struct FileKeeper<D: FolderCalls + Drop> {
    disk: D,
    folder: Folder<D::Lock>,
    known: Known,
    load_faults: LoadCount,
    save_faults: u64,
}

/// The lock of the working folder.
#[derive(Drop)]
struct Folder<L: Drop> {
    // True once a call has taken the lock, or has learned that the system has no such locks.
    is_own: bool,
    // The opened folder, which holds the lock. `None` if the system has no such locks.
    lock: Option<L>,
}

impl<D: FolderCalls + Drop> FileKeeper<D> {
    /// Makes a keeper that uses these file-system calls. No load or save has failed yet, and the slots are not
    /// observable.
    pub fn new(disk: D) -> FileKeeper<D>
        ensures slots { (⟦<FileKeeper<D> as Keeper>⟧.state result).slots ≡ None }
        ensures attempted { (⟦<FileKeeper<D> as Keeper>⟧.state result).attempted ≡ None }
        ensures load_faults { (⟦<FileKeeper<D> as Keeper>⟧.state result).load_faults ≡ record { all = 0; taken = 0 } }
        ensures save_faults { (⟦<FileKeeper<D> as Keeper>⟧.state result).save_faults ≡ 0 }
        ensures folder { result.folder.is_own ≡ false }
        ensures lock { is_none result.folder.lock ≡ true }
        ensures newest { result.known.newest ≡ false }
        ensures names { result.known.names ≡ false }
    {
        FileKeeper {
            disk,
            folder: Folder {
                is_own: false,
                lock: None,
            },
            known: Known::new(),
            load_faults: LoadCount::new(),
            save_faults: 0,
        }
    }
}

impl<D: FolderCalls + Drop> Keeper for FileKeeper<D> {
    ghost state = { λ k. record { slots = None; attempted = None; load_faults = k.load_faults; save_faults = k.save_faults } };

    /// Returns false exactly if opening the slot's file reports that there is no such file. Any file that can be read
    /// is the slot's contents, whatever its length.
    ///
    /// # Errors
    ///
    /// - `Taken`: another process holds the lock of the folder.
    /// - `Memory`: the program or the system is out of memory.
    /// - `Long`: the file has more than `limit` bytes.
    /// - `Failed`: any other error.
    fn load(&mut self, slot: u8, limit: u64, room: &mut Bytes) -> Result<bool, LoadError>
        requires { slot < 2 }
        ensures done { HasLoadedSlot (D.calls self.old.disk) (D.calls self.new.disk) self.old.folder.is_own (is_some self.old.folder.lock) (is_some self.new.folder.lock) slot D.Opened.remaining limit room.new.items result }
        ensures within { LoadsWithin limit room.new.items result }
        ensures cause { HasLoadCause self.old.load_faults self.new.load_faults result }
        ensures saves { self.new.save_faults ≡ self.old.save_faults }
        ensures folder { self.old.folder.is_own ≡ true → self.new.folder.is_own ≡ true }
        ensures known { self.new.known ≡ self.old.known }
    {
        let loaded = load_by(&mut self.disk, &mut self.folder, slot, limit, room);
        self.load_faults.count(loaded)
    }

    /// Creates the slot's file if there is none, and writes no other file. All errors are `Failed`, also out of memory.
    fn save(&mut self, slot: u8, bytes: &[u8]) -> Result<(), Failed>
        requires slot { slot < 2 }
        ensures saved { OnOk result (HoldsBytes None slot bytes.now) }
        ensures done { HasKept (D.calls self.old.disk) (D.calls self.new.disk) self.old.folder.is_own (is_some self.old.folder.lock) (is_some self.new.folder.lock) self.old.known.newest self.new.known.newest self.old.known.names slot bytes.now (is_ok result) }
        ensures cause { HasCause self.old.save_faults self.new.save_faults result }
        ensures loads { self.new.load_faults ≡ self.old.load_faults }
        ensures folder { self.old.folder.is_own ≡ true → self.new.folder.is_own ≡ true }
    {
        let saved = keep(
            &mut self.disk,
            &mut self.folder,
            slot,
            bytes,
            &mut self.known,
        );
        if saved {
            return Ok(());
        }
        self.save_faults = self.save_faults.saturating_add(1);
        Err(Failed)
    }
}

// Takes the lock of the working folder, unless the keeper has it already.
fn take_folder<D: FolderCalls>(disk: &mut D, folder: &mut Folder<D::Lock>) -> Result<(), LockError>
    ensures done { HasTakenFolder (D.calls disk.old) (D.calls disk.new) folder.old.is_own (is_some folder.old.lock) (is_some folder.new.lock) result }
    ensures own { is_ok result ≡ true → folder.new.is_own ≡ true }
    ensures taken { folder.old.is_own ≡ true → folder.new.is_own ≡ true }
{
    if folder.is_own {
        return Ok(());
    }
    match disk.lock(".") {
        Ok(lock) => {
            folder.is_own = true;
            folder.lock = lock;
            Ok(())
        }
        Err(why) => Err(why),
    }
}

// Takes the lock of the working folder if necessary, then loads a slot.
fn load_by<D: FolderCalls>(
    disk: &mut D,
    folder: &mut Folder<D::Lock>,
    slot: u8,
    limit: u64,
    room: &mut Bytes,
) -> Result<bool, LoadError>
    requires { slot < 2 }
    ensures done { HasLoadedSlot (D.calls disk.old) (D.calls disk.new) folder.old.is_own (is_some folder.old.lock) (is_some folder.new.lock) slot D.Opened.remaining limit room.new.items result }
    ensures within { LoadsWithin limit room.new.items result }
    ensures folder { folder.old.is_own ≡ true → folder.new.is_own ≡ true }
{
    match take_folder(disk, folder) {
        Ok(()) => load_opened(open_slot(disk, slot), limit, room),
        Err(why) => refuse(why, room),
    }
}

// Takes the lock of the working folder if necessary, then saves in a slot. Returns true if the save succeeded.
fn keep<D: FolderCalls>(
    disk: &mut D,
    folder: &mut Folder<D::Lock>,
    slot: u8,
    bytes: &[u8],
    known: &mut Known,
) -> bool
    requires { slot < 2 }
    ensures done { HasKept (D.calls disk.old) (D.calls disk.new) folder.old.is_own (is_some folder.old.lock) (is_some folder.new.lock) known.old.newest known.new.newest known.old.names slot bytes.now result }
    ensures folder { folder.old.is_own ≡ true → folder.new.is_own ≡ true }
{
    match take_folder(disk, folder) {
        Ok(()) => save_slot(disk, slot, bytes, known).is_ok(),
        Err(_) => false,
    }
}

// Clears the buffer and returns the error of the lock.
fn refuse(why: LockError, room: &mut Bytes) -> Result<bool, LoadError>
    ensures room { room.new.items ≡ [] }
    ensures why { result ≡ Err (load_error_of why) }
{
    room.clear();
    Err(why.load_error())
}

// Maps an out-of-memory error of the system to `Memory`, and any other error to `Failed`.
fn cause_of(error: &io::Error) -> LoadError
    ensures cause { (result ≡ LoadError.Memory) ⊎ (result ≡ LoadError.Failed) }
    ensures memory { (result ≡ LoadError.Memory) ↔ (error_kind error.now ≡ ErrorKind.OutOfMemory) }
{
    if error.kind() == ErrorKind::OutOfMemory {
        return LoadError::Memory;
    }
    LoadError::Failed
}

// Reads all bytes into the empty buffer. Returns `Long` as soon as the buffer has more than `limit` bytes.
fn read_within<T: Read>(from: &mut T, limit: u64, room: &mut Bytes) -> Result<(), LoadError>
    requires { room.old.items ≡ [] }
    ensures { ReadsWithin (T.remaining from.old) limit room.new.items result }
{
    let mut buffer = [0u8; PIECE];
    'pieces: while room.len() as u64 <= limit {
        let wanted = (limit - room.len() as u64).min(PIECE as u64 - 1) as usize + 1;
        let piece = &mut buffer[..wanted];
        match read_uninterrupted(from, piece) {
            Err(error) => return Err(cause_of(&error)),
            Ok(count) => {
                if count == 0 {
                    return Ok(());
                }
                match room.append(&piece[..count]) {
                    Ok(()) => {}
                    Err(_) => return Err(LoadError::Memory),
                }
            }
        }
    }
    Err(LoadError::Long(limit))
}

/// Reads a slot's file after an attempt to open it. Returns false exactly if there is no such file, and true if all its
/// bytes were read. After an error the buffer is empty.
pub fn load_opened<F: Read + Drop>(
    opened: io::Result<F>,
    limit: u64,
    room: &mut Bytes,
) -> Result<bool, LoadError>
    ensures within { LoadsWithin limit room.new.items result }
    ensures absent { (result ≡ Ok false) ↔ IsErrAnd opened (λ e. error_kind e ≡ ErrorKind.NotFound) }
    ensures present { result ≡ Ok true → IsOk opened }
    ensures done { LoadsOpened F.remaining limit room.new.items result opened }
{
    room.clear();
    match opened {
        Ok(mut file) => match read_within(&mut file, limit, room) {
            Ok(()) => Ok(true),
            Err(error) => {
                room.clear();
                Err(error)
            }
        },
        Err(error) => {
            if error.kind() == ErrorKind::NotFound {
                return Ok(false);
            }
            Err(cause_of(&error))
        }
    }
}
