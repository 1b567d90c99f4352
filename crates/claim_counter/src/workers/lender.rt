//! The lender of a run's threads and gate, which records that they were lent.

use crate::workers::Runtime;
use std::alloc::Global;
use std::marker::Model;

/// The threads, the allocator and the gate of a call that may run out of memory. `lend` is the only way to its threads
/// and its gate, and it leaves a mark that nothing removes. So a contract can say that a call ended before its first
/// walk: the lender is as it was.
#[derive(Drop)]
pub struct Lender<'a, R, G> {
    runtime: Runtime<'a, R, G>,
    has_lent: bool,
}

impl<'a, R, G> Model for Lender<'a, R, G> {
    ghost use Rattle.std.specs.Prelude.{Bool};

    ghost Value = { Bool };

    ghost view = { λ l. l.has_lent };
}

impl<'a, R, G> Lender<'a, R, G> {
    ghost use Rattle.std.specs.Prelude.{◌≡◌, false, true};

    /// Makes a lender that has lent nothing.
    pub fn new(threads: &'a R, alloc: Global, gate: &'a G) -> Lender<'a, R, G>
        ensures { result ≡ false }
    {
        Lender {
            runtime: Runtime {
                threads,
                alloc,
                gate,
            },
            has_lent: false,
        }
    }

    /// Returns the allocator.
    pub fn alloc(&self) -> Global {
        self.runtime.alloc
    }

    /// Returns true if the threads and the gate were lent.
    pub fn has_lent(&self) -> bool
        ensures { result ≡ self.now }
    {
        self.has_lent
    }

    /// Lends the threads and the gate. The caller has allocated all memory of its walks.
    pub fn lend(&mut self) -> Runtime<'a, R, G>
        ensures { self.new ≡ true }
    {
        self.has_lent = true;
        Runtime {
            threads: self.runtime.threads,
            alloc: self.runtime.alloc,
            gate: self.runtime.gate,
        }
    }
}
