//! Readers and writers whose calls are repeated if they would block.

ghost use Rattle.std.specs.Prelude.{◌≡◌, ◌≢◌, IfErr};
ghost use Rattle.std.specs.Io.{ReadsAtMost, WritesAtMost};
ghost use Rattle.std.specs.Io.KnownBytes.{ReadConsumes, WriteAppends};
ghost use Rattle.std.specs.IoError.{error_kind};

use std::io::{ErrorKind, Read, Write};
use std::time::{Clock, Duration};
use std::{io, thread};

// The pause before a call is repeated, in milliseconds.
const PAUSE: u64 = 1;

/// A reader or a writer, and a clock. A call that fails with `WouldBlock`, for instance on a non-blocking pipe, is
/// repeated after a pause.
#[derive(Drop)]
pub struct RetryOnWouldBlock<T: Drop, C: Clock + Drop> {
    inner: T,
    clock: C,
}

impl<T: Read + Drop, C: Clock + Drop> RetryOnWouldBlock<T, C> {
    /// Wraps a reader. Proofs know as much of the wrapper's remaining bytes as of the reader's.
    pub fn of_reader(inner: T, clock: C) -> RetryOnWouldBlock<T, C>
        ensures left { ⟦<RetryOnWouldBlock<T, C> as Read>⟧.remaining result ≡ T.remaining inner }
    {
        RetryOnWouldBlock { inner, clock }
    }
}

impl<T: Write + Drop, C: Clock + Drop> RetryOnWouldBlock<T, C> {
    /// Wraps a writer. Proofs know as much of the wrapper's written bytes as of the writer's.
    pub fn of_writer(inner: T, clock: C) -> RetryOnWouldBlock<T, C>
        ensures taken { ⟦<RetryOnWouldBlock<T, C> as Write>⟧.contents result ≡ T.contents inner }
    {
        RetryOnWouldBlock { inner, clock }
    }
}

fn pause<C: Clock>(clock: &C) {
    thread::sleep(clock, Duration::from_millis(PAUSE));
}

impl<T: Read + Drop, C: Clock + Drop> Read for RetryOnWouldBlock<T, C> {
    ghost remaining = { λ p. T.remaining p.inner };

    fn read(&mut self, into: &mut [u8]) -> io::Result<usize> {
        read_until_ready(&mut self.inner, &self.clock, into)
    }
}

impl<T: Write + Drop, C: Clock + Drop> Write for RetryOnWouldBlock<T, C> {
    ghost contents = { λ p. T.contents p.inner };

    fn write(&mut self, bytes: &[u8]) -> io::Result<usize> {
        write_until_ready(&mut self.inner, &self.clock, bytes)
    }

    fn flush(&mut self) -> io::Result<()> {
        self.inner.flush()
    }
}

// Reads once. Repeats the call while it would block, so that the returned error is never `WouldBlock`.
fn read_until_ready<T: Read, C: Clock>(
    from: &mut T,
    clock: &C,
    into: &mut [u8],
) -> io::Result<usize>
    ensures amount { ReadsAtMost result into.new }
    ensures bytes { ReadConsumes (T.remaining from.old) (T.remaining from.new) result into.new }
    ensures waits { IfErr result (λ e. error_kind e ≢ ErrorKind.WouldBlock) }
{
    for _ in 0..u64::MAX {
        match from.read(into) {
            Ok(count) => return Ok(count),
            Err(error) => {
                if error.kind() != ErrorKind::WouldBlock {
                    return Err(error);
                }
                pause(clock);
            }
        }
    }
    Err(io::Error::from(ErrorKind::TimedOut))
}

// Writes once. Repeats the call while it would block, so that the returned error is never `WouldBlock`.
fn write_until_ready<T: Write, C: Clock>(to: &mut T, clock: &C, bytes: &[u8]) -> io::Result<usize>
    ensures amount { WritesAtMost result bytes.now }
    ensures bytes { WriteAppends (T.contents to.old) (T.contents to.new) result bytes.now }
    ensures waits { IfErr result (λ e. error_kind e ≢ ErrorKind.WouldBlock) }
{
    for _ in 0..u64::MAX {
        match to.write(bytes) {
            Ok(count) => return Ok(count),
            Err(error) => {
                if error.kind() != ErrorKind::WouldBlock {
                    return Err(error);
                }
                pause(clock);
            }
        }
    }
    Err(io::Error::from(ErrorKind::TimedOut))
}
