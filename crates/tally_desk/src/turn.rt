//! The turn of another pass, as a read of the table found it.

ghost use Rattle.std.specs.Prelude.{◌≡◌, ◌%◌, ◌^◌};

use crate::rule::OneTally;
use crate::state::RunState;
use crate::view::{DeskArguments, DeskView};
use atomic_table::Shared;
use audit_io::keeper::Keeper;
use std::marker::Model;

/// A turn of another pass. Only a read of the table makes one, and each sleep until the turn's end takes one. So no
/// pass sleeps on a ticket that it knows from an earlier read.
#[derive(Drop)]
pub(crate) struct OtherTurn {
    ticket: u64,
}

impl Model for OtherTurn {
    ghost use Rattle.std.specs.Prelude.{ℕ};

    ghost Value = { ℕ };

    ghost view = { λ t. t.ticket };
}

impl OtherTurn {
    /// Reads the turn of the ticket that is out. Returns `None` if no ticket is out.
    pub fn read<C: Keeper>(
        words: &Shared<RunState<C>, DeskView, DeskArguments<C>, OneTally<C>>,
    ) -> Option<OtherTurn>
        requires { words.now.table_id.words ≡ 3 }
    {
        let served = words.peek(2);
        if words.peek(1) == served {
            None
        } else {
            Some(OtherTurn { ticket: served })
        }
    }

    /// Returns the ticket.
    pub fn ticket(&self) -> u64
        ensures { result ≡ self.now }
    {
        self.ticket
    }

    /// Returns the lower half of the ticket.
    pub fn low_half(&self) -> u32
        ensures { result ≡ self.now % 2 ^ 32 }
    {
        (self.ticket % (1 << 32)) as u32
    }
}
