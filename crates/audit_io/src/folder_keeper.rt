//! A read-only checkpoint store: the slots of a folder that another run may write.

ghost use Rattle.std.specs.Prelude.{◌≡◌, ◌<◌, [], None, Err, IfOk};
ghost use Rattle.audit_io.specs.Keepers.{HasComparedHere, HasReadFolder, HasReadLocked, HasReadSlot, within};
ghost use Rattle.audit_io.specs.Loads.{HasLoadCause, LoadsWithin};

use crate::file_calls::FileCalls;
use crate::file_keeper::load_opened;
use crate::folder_calls::FolderCalls;
use crate::keeper::{Keeper, LoadError};
use crate::load_count::LoadCount;
use crate::looks::{are_same, name_of, open_plain};
use crate::source::Failed;
use audit_model::buffers::Bytes;
use audit_model::memory::Memory;
use audit_model::text::Text;
use std::alloc::Global;

/// The two slots of a folder, the files `audit-0.ckpt` and `audit-1.ckpt`. The slots are not observable, and the keeper
/// never saves. The clause `done` of `load` lists each file-system call, in order.
#[derive(Drop)]
pub struct FolderKeeper<'a, D: FolderCalls + Drop> {
    disk: D,
    /// The folder, and whether its lock is taken for a load.
    pub place: FolderPlace<'a>,
    load_faults: LoadCount,
    save_faults: u64,
}

/// A folder to read.
#[derive(Clone, Copy)]
pub struct FolderPlace<'a> {
    alloc: Global,
    /// The path of the folder.
    pub folder: &'a str,
    /// True if a load takes the folder's lock. The working folder is never locked, because this program may hold its
    /// lock already.
    pub locks: bool,
}

impl<'a, D: FolderCalls + Drop> FolderKeeper<'a, D> {
    /// Makes a keeper of the folder with this path. With `locks`, each load takes the folder's lock, except in the
    /// working folder. If another process holds the lock, or the attempt to lock fails, the load fails.
    pub fn new(disk: D, alloc: Global, folder: &'a str, locks: bool) -> FolderKeeper<'a, D>
        ensures folder { result.place.folder.now ≡ folder.now }
        ensures locks { result.place.locks ≡ locks }
        ensures slots { (⟦<FolderKeeper<'a, D> as Keeper>⟧.state result).slots ≡ None }
        ensures attempted { (⟦<FolderKeeper<'a, D> as Keeper>⟧.state result).attempted ≡ None }
        ensures load_faults { (⟦<FolderKeeper<'a, D> as Keeper>⟧.state result).load_faults ≡ record { all = 0; taken = 0 } }
        ensures save_faults { (⟦<FolderKeeper<'a, D> as Keeper>⟧.state result).save_faults ≡ 0 }
    {
        FolderKeeper {
            disk,
            place: FolderPlace {
                alloc,
                folder,
                locks,
            },
            load_faults: LoadCount::new(),
            save_faults: 0,
        }
    }
}

impl<D: FolderCalls + Drop> Keeper for FolderKeeper<'_, D> {
    ghost state = { λ k. record { slots = None; attempted = None; load_faults = k.load_faults; save_faults = k.save_faults } };

    fn load(&mut self, slot: u8, limit: u64, room: &mut Bytes) -> Result<bool, LoadError>
        requires { slot < 2 }
        ensures done { HasReadFolder (D.calls self.old.disk) (D.calls self.new.disk) self.old.place.locks self.old.place.folder.now slot D.Opened.remaining limit room.new.items result }
        ensures within { LoadsWithin limit room.new.items result }
        ensures cause { HasLoadCause self.old.load_faults self.new.load_faults result }
        ensures saves { self.new.save_faults ≡ self.old.save_faults }
    {
        let loaded = read_folder(&mut self.disk, self.place, slot, limit, room);
        self.load_faults.count(loaded)
    }

    /// Fails. No caller reaches this function: the contracts of the callers permit no save.
    fn save(&mut self, _slot: u8, _bytes: &[u8]) -> Result<(), Failed> {
        self.save_faults = self.save_faults.saturating_add(1);
        Err(Failed)
    }
}

// Returns the path of a file in a folder.
fn path_of(alloc: Global, folder: &str, name: &str) -> Result<Text, Memory>
    ensures { IfOk result (λ path. path ≡ within folder.now name.now) }
{
    let mut path = Text::new(alloc);
    path.push_str(folder)?;
    path.push_str("/")?;
    path.push_str(name)?;
    Ok(path)
}

// Returns true if the path names the working folder.
fn is_working_folder<D: FileCalls>(disk: &mut D, folder: &str) -> bool
    ensures { HasComparedHere (D.calls disk.old) (D.calls disk.new) folder.now result }
{
    let one = disk.look(folder);
    let here = disk.look(".");
    are_same(&one, &here)
}

// Loads a slot. Takes the folder's lock if `place.locks` is true and the folder is not the working folder.
fn read_folder<D: FolderCalls>(
    disk: &mut D,
    place: FolderPlace<'_>,
    slot: u8,
    limit: u64,
    room: &mut Bytes,
) -> Result<bool, LoadError>
    requires { slot < 2 }
    ensures done { HasReadFolder (D.calls disk.old) (D.calls disk.new) place.entry.locks place.entry.folder.now slot D.Opened.remaining limit room.new.items result }
    ensures within { LoadsWithin limit room.new.items result }
{
    if !place.locks {
        return read_slot(disk, place, slot, limit, room);
    }
    if is_working_folder(disk, place.folder) {
        return read_slot(disk, place, slot, limit, room);
    }
    read_locked(disk, place, slot, limit, room)
}

// Takes the folder's lock, loads a slot, and releases the lock.
fn read_locked<D: FolderCalls>(
    disk: &mut D,
    place: FolderPlace<'_>,
    slot: u8,
    limit: u64,
    room: &mut Bytes,
) -> Result<bool, LoadError>
    requires { slot < 2 }
    ensures done { HasReadLocked (D.calls disk.old) (D.calls disk.new) place.entry.folder.now slot D.Opened.remaining limit room.new.items result }
    ensures within { LoadsWithin limit room.new.items result }
{
    match path_of(place.alloc, place.folder, ".") {
        Ok(path) => match disk.lock(path.as_str()) {
            Ok(_lock) => read_slot(disk, place, slot, limit, room),
            Err(why) => refuse(why.load_error(), room),
        },
        Err(_) => refuse(LoadError::Memory, room),
    }
}

// Loads a slot of the folder, without regard to locks.
fn read_slot<D: FileCalls>(
    disk: &mut D,
    place: FolderPlace<'_>,
    slot: u8,
    limit: u64,
    room: &mut Bytes,
) -> Result<bool, LoadError>
    requires { slot < 2 }
    ensures done { HasReadSlot (D.calls disk.old) (D.calls disk.new) place.entry.folder.now slot D.Opened.remaining limit room.new.items result }
    ensures within { LoadsWithin limit room.new.items result }
{
    match path_of(place.alloc, place.folder, name_of(slot)) {
        Ok(path) => load_opened(open_plain(disk, path.as_str()), limit, room),
        Err(_) => refuse(LoadError::Memory, room),
    }
}

// Clears the buffer and returns the error.
fn refuse(why: LoadError, room: &mut Bytes) -> Result<bool, LoadError>
    ensures room { room.new.items ≡ [] }
    ensures why { result ≡ Err why }
{
    room.clear();
    Err(why)
}
