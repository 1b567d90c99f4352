//! Reads and writes of std that are repeated if a signal interrupts them (`EINTR`).

ghost use Rattle.std.specs.Prelude.{◌≢◌, IfErr};
ghost use Rattle.std.specs.Io.{ReadsAtMost, WritesAtMost};
ghost use Rattle.std.specs.Io.KnownBytes.{ReadConsumes, WriteAppends};
ghost use Rattle.std.specs.IoError.{error_kind};

use std::io;
use std::io::{ErrorKind, Read, Write};

/// Reads once. Repeats the call if a signal interrupts it, so that the returned error is never
/// `Interrupted`.
pub(crate) fn read_uninterrupted<T: Read>(from: &mut T, into: &mut [u8]) -> io::Result<usize>
    ensures amount { ReadsAtMost result into.new }
    ensures bytes { ReadConsumes (T.remaining from.old) (T.remaining from.new) result into.new }
    ensures uninterrupted { IfErr result (λ e. error_kind e ≢ ErrorKind.Interrupted) }
{
    for _ in 0..u64::MAX {
        match from.read(into) {
            Ok(count) => return Ok(count),
            Err(error) => {
                if error.kind() != ErrorKind::Interrupted {
                    return Err(error);
                }
            }
        }
    }
    Err(io::Error::from(ErrorKind::TimedOut))
}

/// Writes once. Repeats the call if a signal interrupts it, so that the returned error is never
/// `Interrupted`.
pub(crate) fn write_uninterrupted<T: Write>(to: &mut T, bytes: &[u8]) -> io::Result<usize>
    ensures amount { WritesAtMost result bytes.now }
    ensures bytes { WriteAppends (T.contents to.old) (T.contents to.new) result bytes.now }
    ensures uninterrupted { IfErr result (λ e. error_kind e ≢ ErrorKind.Interrupted) }
{
    for _ in 0..u64::MAX {
        match to.write(bytes) {
            Ok(count) => return Ok(count),
            Err(error) => {
                if error.kind() != ErrorKind::Interrupted {
                    return Err(error);
                }
            }
        }
    }
    Err(io::Error::from(ErrorKind::TimedOut))
}
