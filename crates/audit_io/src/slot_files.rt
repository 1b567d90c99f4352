//! Saving a slot to its file in the working folder.
//!
//! A file is *stored* once the system has written its bytes and its length to the device, as `fsync` does. A new file
//! survives a power cut only if its folder is stored, too.

ghost use Rattle.std.specs.Prelude.{◌≡◌, ◌<◌, ◌++◌, ◌&&◌, not, false, true, OnOk, is_ok};
ghost use Rattle.audit_io.specs.FileCalls.{HasDone, HasFolderAfter, HasMade, HasSavedFile, HasSavedSlot, HasStoredOther, error_of, folder_steps, names_steps, no_folder_error, writing_steps};
ghost use Rattle.audit_io.specs.Looks.{HasSaved, KnowsStored};

use crate::file_calls::FileCalls;
use crate::looks::{check_place, is_unstored, name_of};
use std::io;
use std::io::ErrorKind;

/// The files that are known to be stored.
#[derive(Drop)]
pub struct Known {
    // True once a save of this process has stored the file that an earlier process may have left in the other slot.
    newest: bool,
    // True while the folder is stored with the names of all files that this process has created.
    names: bool,
}

impl Known {
    /// Makes a record in which nothing is known to be stored.
    pub fn new() -> Known
        ensures newest { result.newest ≡ false }
        ensures names { result.names ≡ false }
    {
        Known {
            newest: false,
            names: false,
        }
    }
}

// Interprets the result of storing a folder. Some systems cannot store folders and report this as an error, which is
// ignored.
fn accept_unsupported(stored: io::Result<()>) -> io::Result<()>
    ensures { is_ok result ≡ no_folder_error (error_of stored) }
{
    match stored {
        Ok(()) => Ok(()),
        Err(error) => match error.kind() {
            ErrorKind::Unsupported => Ok(()),
            ErrorKind::InvalidInput => Ok(()),
            _ => Err(error),
        },
    }
}

/// Waits until the system has stored the working folder, that is, the names of its files.
fn store_folder<D: FileCalls>(disk: &mut D) -> io::Result<()>
    ensures { HasDone (D.calls disk.old) (D.calls disk.new) folder_steps (is_ok result) }
{
    match disk.store(".") {
        Ok(stored) => accept_unsupported(stored),
        Err(error) => Err(error),
    }
}

// Stores the working folder if `stored` is `Ok`, and returns the error otherwise.
fn folder_after<D: FileCalls>(disk: &mut D, stored: io::Result<()>) -> io::Result<()>
    ensures { HasFolderAfter stored (D.calls disk.old) (D.calls disk.new) (is_ok result) }
{
    match stored {
        Ok(()) => store_folder(disk),
        Err(error) => Err(error),
    }
}

// Waits until the system has stored this file and the working folder. If the file is gone, there is nothing to wait
// for.
fn store_found<D: FileCalls>(disk: &mut D, name: &str) -> io::Result<()>
    ensures { HasStoredOther true name.now (D.calls disk.old) (D.calls disk.new) (is_ok result) }
{
    match disk.store(name) {
        Ok(stored) => folder_after(disk, stored),
        Err(error) => match error.kind() {
            ErrorKind::NotFound => Ok(()),
            _ => Err(error),
        },
    }
}

// Stores the other slot's file and the working folder if `found` is true.
fn store_other<D: FileCalls>(disk: &mut D, name: &str, found: bool) -> io::Result<()>
    ensures { HasStoredOther found name.now (D.calls disk.old) (D.calls disk.new) (is_ok result) }
{
    if found {
        return store_found(disk, name);
    }
    Ok(())
}

// Writes all bytes, and waits until the system has stored the file.
fn write_file<D: FileCalls>(disk: &mut D, file: &mut D::Made, bytes: &[u8]) -> io::Result<()>
    ensures { HasDone (D.calls disk.old) (D.calls disk.new) (writing_steps bytes.now) (is_ok result) }
{
    match disk.write_all(file, bytes) {
        Ok(()) => disk.store_made(file),
        Err(error) => Err(error),
    }
}

// Creates a file for writing, or opens and empties the file that exists. The flag is true if the file is new.
fn make_file<D: FileCalls>(disk: &mut D, name: &str) -> io::Result<(D::Made, bool)>
    ensures { HasMade name.now (D.calls disk.old) (D.calls disk.new) result }
{
    match disk.make(name) {
        Ok(file) => Ok((file, true)),
        Err(error) => match error.kind() {
            ErrorKind::AlreadyExists => match disk.empty(name) {
                Ok(file) => Ok((file, false)),
                Err(error) => Err(error),
            },
            _ => Err(error),
        },
    }
}

// Stores the working folder, unless it is known to be stored with the names of all new files. Sets the flag.
fn store_names<D: FileCalls>(disk: &mut D, names: &mut bool) -> io::Result<()>
    ensures done { HasDone (D.calls disk.old) (D.calls disk.new) (names_steps names.old) (is_ok result) }
    ensures names { OnOk result (names.new ≡ true) }
{
    if *names {
        return Ok(());
    }
    match store_folder(disk) {
        Ok(()) => {
            *names = true;
            Ok(())
        }
        Err(error) => Err(error),
    }
}

// Writes the bytes to a file that was just opened, stores the file, and then the folder if necessary.
fn fill_file<D: FileCalls>(
    disk: &mut D,
    file: &mut D::Made,
    bytes: &[u8],
    names: &mut bool,
) -> io::Result<()>
    ensures done { HasDone (D.calls disk.old) (D.calls disk.new) (writing_steps bytes.now ++ names_steps names.old) (is_ok result) }
    ensures names { OnOk result (names.new ≡ true) }
{
    match write_file(disk, file, bytes) {
        Ok(()) => store_names(disk, names),
        Err(error) => Err(error),
    }
}

// Returns true if the folder is still known to be stored with the names of all files. The name of a new file is not
// stored yet.
fn keeps_names(names: bool, is_new: bool) -> bool
    ensures { result ≡ (not is_new && names) }
{
    if is_new {
        return false;
    }
    names
}

/// Replaces the contents of a file with these bytes, and waits until the system has stored the file. Stores the folder,
/// too, unless it is known to be stored with the names of all new files. The clause `done` lists each file-system call
/// in order, and the errors that are ignored.
pub fn save_file<D: FileCalls>(
    disk: &mut D,
    name: &str,
    bytes: &[u8],
    names: &mut bool,
) -> io::Result<()>
    ensures done { HasSavedFile names.old name.now bytes.now (D.calls disk.old) (D.calls disk.new) (is_ok result) }
    ensures names { OnOk result (names.new ≡ true) }
{
    match make_file(disk, name) {
        Ok((mut file, is_new)) => {
            *names = keeps_names(*names, is_new);
            fill_file(disk, &mut file, bytes, names)
        }
        Err(error) => Err(error),
    }
}

/// Saves bytes in a slot's file, as `save_file` does. If the other slot's file was found, stores that file and the
/// folder first. The clause `done` lists each file-system call in order, and the errors that are ignored.
pub fn save_by<D: FileCalls>(
    disk: &mut D,
    slot: u8,
    bytes: &[u8],
    known: &mut Known,
    found: bool,
) -> io::Result<()>
    requires { slot < 2 }
    ensures done { HasSavedSlot found known.old.names slot bytes.now (D.calls disk.old) (D.calls disk.new) (is_ok result) }
    ensures stored { KnowsStored (D.calls disk.old) (D.calls disk.new) found slot known.old.newest known.new.newest }
    ensures known { OnOk result ((known.new.newest ≡ true) × (known.new.names ≡ true)) }
{
    match store_other(disk, name_of(1 - slot), found) {
        Ok(()) => {
            known.newest = true;
            save_file(disk, name_of(slot), bytes, &mut known.names)
        }
        Err(error) => Err(error),
    }
}

/// Saves bytes in a slot's file, as `save_by` does, after a check of the slot's path. The other slot's file may be the
/// newest checkpoint, read by this process but not yet stored. Until this process has stored that file, each save
/// therefore stores it first. The clause `done` lists each file-system call in order.
pub fn save_slot<D: FileCalls>(
    disk: &mut D,
    slot: u8,
    bytes: &[u8],
    known: &mut Known,
) -> io::Result<()>
    requires { slot < 2 }
    ensures done { HasSaved (D.calls disk.old) (D.calls disk.new) known.old.newest known.new.newest known.old.names slot bytes.now (is_ok result) }
    ensures known { OnOk result ((known.new.newest ≡ true) × (known.new.names ≡ true)) }
{
    match check_place(disk, slot) {
        Ok(()) => match is_unstored(disk, 1 - slot, known.newest) {
            Ok(found) => save_by(disk, slot, bytes, known, found),
            Err(error) => Err(error),
        },
        Err(error) => Err(error),
    }
}
