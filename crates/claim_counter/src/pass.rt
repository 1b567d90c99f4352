//! The pass, a worker's right to draw numbers from a counter.
ghost use Rattle.std.specs.Prelude.{◌≡◌, ◌<◌, []};

use crate::record::View;
use atomic_table::Seat;

/// The right to draw numbers from a counter. A pass may move to another thread.
#[derive(Drop)]
pub struct Pass {
    pub(crate) seat: Seat<(), View>,
    pub(crate) spare: u32,
    pub(crate) ended: bool,
    ghost empty_handed: { seat.me.1 ≡ [] },
    ghost spare_is: { seat.me.0.own.spare ≡ spare },
    ghost ended_is: { seat.me.0.own.ended ≡ ended },
    ghost live: { 0 < seat.me.0.own.weight },
}

impl Pass {
    ghost use Rattle.std.specs.Prelude.{◌≡◌};
    ghost use Rattle.claim_counter.specs.Passes.{own};

    /// Returns true if the pass, and each pass joined into it, has made a draw that found no number left.
    pub fn ended(&self) -> bool
        ensures { result ≡ (own self.now).ended }
    {
        self.ended
    }

    /// Returns the number of passes that can still be split off this one.
    pub fn spare(&self) -> u32
        ensures { result ≡ (own self.now).spare }
    {
        self.spare
    }
}
