//! The file-system calls of a checkpoint store.
//!
//! A file is *stored* once the system has written its bytes and its length to the device, as `fsync` does.

ghost use Rattle.std.specs.Prelude.{◌≡◌, Option, List, None, OnOk};
ghost use Rattle.std.specs.Io.KnownBytes.{Appends};
ghost use Rattle.audit_io.specs.FileCalls.{Call, answered, called, called_all, emptied, error_of, looked, looked_at_link, made, opened, stored_made, storing, wrote};

use std::fs::{File, Metadata, OpenFile};
use std::io::{Read, Write};
use std::os::unix::fs::MetadataExt;
use std::rt::Files;
use std::{fs, io};

/// The result of looking at a path: the kind and the identity of the file that the path names.
#[derive(Clone, Copy)]
pub struct FileEntry {
    /// True if the file is a plain (regular) file: no folder, device or pipe.
    pub is_plain: bool,
    /// The number of the device on which the file is.
    pub device: u64,
    /// The inode number of the file. Two paths name the same file if device and inode are equal.
    pub node: u64,
}

/// The file-system calls that a checkpoint store may make. A function that is generic over this trait can make no other
/// call, so its contract can list every call that it makes.
pub trait FileCalls {
    /// A file that is open for writing.
    type Made: Drop;

    /// A file that is open for reading.
    type Opened: Read + Drop;

    /// The calls made so far, in order, each with the kind of its error. `None` if the calls are not observable.
    ghost calls: { Self → Option (List Call) };

    /// Returns the kind and the identity of the file that a path names. Follows symbolic links.
    fn look(&mut self, name: &str) -> io::Result<FileEntry>
        ensures { calls self.new ≡ called (calls self.old) (looked name.now (answered result)) (error_of result) };

    /// Returns `Ok` if the path exists, even if it is a dangling symbolic link.
    fn look_at_link(&mut self, name: &str) -> io::Result<()>
        ensures { calls self.new ≡ called (calls self.old) (looked_at_link name.now) (error_of result) };

    /// Opens a file for reading.
    fn open(&mut self, name: &str) -> io::Result<Self::Opened>
        ensures { calls self.new ≡ called (calls self.old) (opened name.now) (error_of result) };

    /// Opens a file for reading, waits until the system has stored it, and closes it. The outer error is that of
    /// opening, the inner error that of the wait.
    fn store(&mut self, name: &str) -> io::Result<io::Result<()>>
        ensures { calls self.new ≡ called_all (calls self.old) (storing name.now result) };

    /// Creates a file and opens it for writing. Fails if the path exists.
    fn make(&mut self, name: &str) -> io::Result<Self::Made>
        ensures { calls self.new ≡ called (calls self.old) (made name.now) (error_of result) };

    /// Opens a file for writing and removes its contents. Creates the file if there is none.
    fn empty(&mut self, name: &str) -> io::Result<Self::Made>
        ensures { calls self.new ≡ called (calls self.old) (emptied name.now) (error_of result) };

    /// Writes all bytes to the file.
    fn write_all(&mut self, file: &mut Self::Made, bytes: &[u8]) -> io::Result<()>
        ensures { calls self.new ≡ called (calls self.old) (wrote bytes.now) (error_of result) };

    /// Waits until the system has stored the file's bytes and its length.
    fn store_made(&mut self, file: &mut Self::Made) -> io::Result<()>
        ensures { calls self.new ≡ called (calls self.old) stored_made (error_of result) };
}

/// The file-system calls of std, on the files that `files` may open. Proofs know nothing of these calls. Each method
/// makes one call of std, except `store`, which opens a file and then waits until it is stored.
#[derive(Drop)]
pub struct SystemCalls<'a, R: Files> {
    pub(crate) files: &'a R,
}

impl<'a, R: Files> SystemCalls<'a, R> {
    /// Makes file-system calls through this part of the runtime.
    pub fn new(files: &'a R) -> SystemCalls<'a, R> {
        SystemCalls { files }
    }
}

// Extracts the kind and the identity of a file from its metadata.
fn entry_of(found: Metadata) -> FileEntry {
    FileEntry {
        is_plain: found.is_file(),
        device: found.dev(),
        node: found.ino(),
    }
}

impl<R: Files> FileCalls for SystemCalls<'_, R> {
    type Made = R::File;

    type Opened = R::File;

    ghost calls = { λ _. None };

    fn look(&mut self, name: &str) -> io::Result<FileEntry> {
        match fs::metadata(self.files, name) {
            Ok(found) => Ok(entry_of(found)),
            Err(error) => Err(error),
        }
    }

    fn look_at_link(&mut self, name: &str) -> io::Result<()> {
        match fs::symlink_metadata(self.files, name) {
            Ok(_) => Ok(()),
            Err(error) => Err(error),
        }
    }

    fn open(&mut self, name: &str) -> io::Result<R::File> {
        fs::open(self.files, name)
    }

    fn store(&mut self, name: &str) -> io::Result<io::Result<()>> {
        match fs::open(self.files, name) {
            Ok(file) => Ok(file.sync_all()),
            Err(error) => Err(error),
        }
    }

    fn make(&mut self, name: &str) -> io::Result<R::File> {
        File::create_new(self.files, name)
    }

    fn empty(&mut self, name: &str) -> io::Result<R::File> {
        fs::create(self.files, name)
    }

    fn write_all(&mut self, file: &mut R::File, bytes: &[u8]) -> io::Result<()>
        ensures { OnOk result (Appends (R.File.contents file.old) (R.File.contents file.new) bytes.now) }
    {
        file.write_all(bytes)
    }

    fn store_made(&mut self, file: &mut R::File) -> io::Result<()> {
        file.sync_all()
    }
}
