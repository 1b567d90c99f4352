//! Starting the threads of the workers.

ghost use Rattle.std.specs.Fork.{AcceptsEach, ChangesEach};

use std::thread;
use std::thread::Threads;

/// Calls `work` once for each worker, with the worker's index and the worker. Each call has its own
/// thread, if one can be started. Otherwise a running thread makes the call.
pub fn run_workers<R: Threads + Sync, W: Send, F: Fn(usize, &mut W) + Sync>(
    threads: &R,
    workers: &mut [W],
    work: &F,
)
    requires accepts { AcceptsEach F.Fn work.now workers.old }
    ensures { ChangesEach F.Fn work.now workers.old workers.new }
{
    let count = workers.len().max(1);
    thread::for_each_mut(threads, workers, count, work);
}
