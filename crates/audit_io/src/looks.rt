//! Tests of a slot's path, made before the slot is opened or written.

ghost use Rattle.std.specs.Prelude.{◌≡◌, ◌<◌, false, is_err, is_ok};
ghost use Rattle.std.specs.IoError.{error_kind};
ghost use Rattle.audit_io.specs.FileCalls.{answered, error_of};
ghost use Rattle.audit_io.specs.Files.{file_name};
ghost use Rattle.audit_io.specs.Looks.{HasCheckedPlace, HasCompared, HasLookedFor, HasOpened, HasOpenedSlot, HasSeen, HasSeenLink, are_one, kinds};

use crate::file_calls::{FileCalls, FileEntry};
use std::io;
use std::io::ErrorKind;

// Returns the file name of a slot.
pub(crate) fn name_of(slot: u8) -> &'static str
    requires { slot < 2 }
    ensures { result.now ≡ file_name slot }
{
    match slot {
        0 => "audit-0.ckpt",
        _ => "audit-1.ckpt",
    }
}

// Looks whether a path that was not found is a dangling link. Returns `InvalidInput` if it is, else the given error.
fn refuse_link<D: FileCalls>(disk: &mut D, name: &str, error: io::Error) -> io::Result<FileEntry>
    ensures { HasSeenLink (D.calls disk.old) (D.calls disk.new) name.now (error_kind error) (kinds result) }
{
    match disk.look_at_link(name) {
        Ok(()) => Err(io::Error::from(ErrorKind::InvalidInput)),
        Err(_) => Err(error),
    }
}

// Returns the plain file that a path or its link names. Returns `InvalidInput` for anything else, such as a folder or a
// dangling link, and `NotFound` if nothing is there.
fn plain_file<D: FileCalls>(disk: &mut D, name: &str) -> io::Result<FileEntry>
    ensures { HasSeen (D.calls disk.old) (D.calls disk.new) name.now (kinds result) }
{
    match disk.look(name) {
        Ok(found) => {
            if found.is_plain {
                return Ok(found);
            }
            Err(io::Error::from(ErrorKind::InvalidInput))
        }
        Err(error) => match error.kind() {
            ErrorKind::NotFound => refuse_link(disk, name, error),
            _ => Err(error),
        },
    }
}

/// Opens a plain file for reading. Nothing else is opened: opening a pipe may block forever, and a folder, a device or
/// a dangling link is no slot.
pub fn open_plain<D: FileCalls>(disk: &mut D, name: &str) -> io::Result<D::Opened>
    ensures { HasOpened (D.calls disk.old) (D.calls disk.new) name.now (error_of result) }
{
    match plain_file(disk, name) {
        Ok(_) => disk.open(name),
        Err(error) => Err(error),
    }
}

// Returns true if both paths were found and name the same file.
pub(crate) fn are_same(first: &io::Result<FileEntry>, second: &io::Result<FileEntry>) -> bool
    ensures { result ≡ are_one (kinds first.now) (kinds second.now) }
{
    match (first, second) {
        (Ok(first), Ok(second)) => first.device == second.device && first.node == second.node,
        _ => false,
    }
}

// Returns true if both slots are the same file.
fn are_one<D: FileCalls>(disk: &mut D) -> bool
    ensures { HasCompared (D.calls disk.old) (D.calls disk.new) result }
{
    let first = plain_file(disk, name_of(0));
    let second = plain_file(disk, name_of(1));
    are_same(&first, &second)
}

/// Opens the file of a slot for reading. Fails if both slots are the same file.
pub(crate) fn open_slot<D: FileCalls>(disk: &mut D, slot: u8) -> io::Result<D::Opened>
    requires { slot < 2 }
    ensures { HasOpenedSlot (D.calls disk.old) (D.calls disk.new) slot (error_of result) }
{
    if are_one(disk) {
        return Err(io::Error::from(ErrorKind::InvalidInput));
    }
    open_plain(disk, name_of(slot))
}

// Returns an error if both slots are the same file.
fn check_apart<D: FileCalls>(disk: &mut D) -> io::Result<()>
    ensures { HasCompared (D.calls disk.old) (D.calls disk.new) (is_err result) }
{
    if are_one(disk) {
        return Err(io::Error::from(ErrorKind::InvalidInput));
    }
    Ok(())
}

// Checks that a slot may be written: there is no such file, or it is a plain file other than the other slot's.
pub(crate) fn check_place<D: FileCalls>(disk: &mut D, slot: u8) -> io::Result<()>
    requires { slot < 2 }
    ensures { HasCheckedPlace (D.calls disk.old) (D.calls disk.new) slot (is_ok result) }
{
    match plain_file(disk, name_of(slot)) {
        Ok(_) => check_apart(disk),
        Err(error) => match error.kind() {
            ErrorKind::NotFound => check_apart(disk),
            _ => Err(error),
        },
    }
}

// Returns true if the file of a slot exists.
fn is_there<D: FileCalls>(disk: &mut D, slot: u8) -> io::Result<bool>
    requires { slot < 2 }
    ensures { HasLookedFor (D.calls disk.old) (D.calls disk.new) false slot (answered result) }
{
    match plain_file(disk, name_of(slot)) {
        Ok(_) => Ok(true),
        Err(error) => match error.kind() {
            ErrorKind::NotFound => Ok(false),
            _ => Err(error),
        },
    }
}

// Returns true if the file of a slot exists and is not known to be stored. Makes no call if `is_stored` is true.
pub(crate) fn is_unstored<D: FileCalls>(disk: &mut D, slot: u8, is_stored: bool) -> io::Result<bool>
    requires { slot < 2 }
    ensures { HasLookedFor (D.calls disk.old) (D.calls disk.new) is_stored slot (answered result) }
{
    if is_stored {
        return Ok(false);
    }
    is_there(disk, slot)
}
