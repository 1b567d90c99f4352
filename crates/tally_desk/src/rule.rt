//! The rule of a desk's table, and the effect of each step.

ghost use Rattle.std.specs.Prelude.{ℕ};

use crate::state::RunState;
use crate::view::{DeskArguments, DeskView};
use atomic_table::{Join, Play, Split, TableRule};
use audit_io::keeper::Keeper;
use std::marker::{Brand, PhantomData};

/// The rule of a desk: no place is drawn twice, and no claim is posted twice.
pub struct OneTally<C> {
    keeper: PhantomData<C>,
}

impl<C: Keeper> TableRule<RunState<C>, DeskView, DeskArguments<C>> for OneTally<C> {
    ghost use Rattle.tally_desk.specs.Desks.{Tallied, first_view};
    ghost use Rattle.tally_desk.specs.DeskStart.{parts_of};
    ghost use Rattle.tally_desk.specs.Homes.{HomeAs};

    ghost holds = { λ key. Tallied (HomeAs C.state C.lets) (parts_of C.state key) };

    ghost first = { λ key. first_view (parts_of C.state key) };
}

/// The step of a claim: a draw of the next place.
pub(crate) struct NextPlace;

impl<C> Play<RunState<C>, DeskView> for NextPlace {
    ghost use Rattle.tally_desk.specs.Desks.{DrawsPlace};

    ghost then = { DrawsPlace };
}

/// The id that a pass posts, in proofs only.
pub(crate) trait Posting {
    ghost id: { ℕ };
}

impl Posting for Brand {
    ghost id = { 0 };
}

/// The step of an attempt to take a ticket for a post.
pub(crate) struct Take<B> {
    id: PhantomData<B>,
}

impl<C, B: Posting> Play<RunState<C>, DeskView> for Take<B> {
    ghost use Rattle.tally_desk.specs.Desks.{AttemptsTicket};

    ghost then = { AttemptsTicket B.id };
}

/// A read of the ticket whose turn it is.
pub(crate) struct PollTicket;

impl<C: Keeper> Play<RunState<C>, DeskView> for PollTicket {
    ghost use Rattle.tally_desk.specs.Desks.{LooksForTurn};
    ghost use Rattle.tally_desk.specs.Homes.{HomeAs};

    ghost then = { LooksForTurn (HomeAs C.state C.lets) };
}

/// The step that ends a turn.
pub(crate) struct Serve;

impl<C> Play<RunState<C>, DeskView> for Serve {
    ghost use Rattle.tally_desk.specs.Desks.{Serves};

    ghost then = { Serves };
}

/// The step of a read of the counter, after two passes are joined.
pub(crate) struct See;

impl<C> Play<RunState<C>, DeskView> for See {
    ghost use Rattle.tally_desk.specs.Desks.{SeesSeats};

    ghost then = { SeesSeats };
}

/// The step of splitting a pass, or of joining two.
pub(crate) struct DeskSplit;

impl Split<DeskView> for DeskSplit {
    ghost use Rattle.tally_desk.specs.Desks.{left_view, right_view};

    ghost left = { left_view };

    ghost right = { right_view };
}

impl Join<DeskView> for DeskSplit {
    ghost use Rattle.tally_desk.specs.Desks.{joined_view};
    ghost use Rattle.tally_desk.specs.Views.{spent_view};

    ghost both = { joined_view };

    ghost spent = { spent_view };
}
