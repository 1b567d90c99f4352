//! A worker's permission at a desk.
ghost use Rattle.std.specs.Prelude.{◌≡◌, ◌<◌, ◌∷◌, []};
ghost use Rattle.tally_desk.specs.Views.{no_turn, view_in};

use crate::state::RunState;
use crate::view::DeskView;
use atomic_table::{Badge, Seat};
use std::mem;

/// The permission to claim ids at a desk and to post their outcomes. It takes a few bytes, and may cross threads.
#[derive(Drop)]
pub struct DeskPass {
    pub(crate) badge: Badge<DeskView>,
    pub(crate) spare: u32,
    pub(crate) ended: bool,
    ghost one_view: { badge.views ≡ view_in badge.views ∷ [] },
    ghost idle: { (view_in badge.views).turn ≡ no_turn },
    ghost spare_is: { (view_in badge.views).own.spare ≡ spare },
    ghost ended_is: { (view_in badge.views).own.ended ≡ ended },
    ghost live: { 0 < (view_in badge.views).own.weight },
}

impl DeskPass {
    ghost use Rattle.std.specs.Prelude.{◌≡◌};
    ghost use Rattle.tally_desk.specs.Passes.{view_of};

    /// Returns true if this pass, and each pass that was joined to it, has found no id left.
    pub fn ended(&self) -> bool
        ensures { result ≡ (view_of self.now).own.ended }
    {
        self.ended
    }

    /// Returns the number of passes that can still be split off.
    pub fn spare(&self) -> u32
        ensures { result ≡ (view_of self.now).own.spare }
    {
        self.spare
    }
}

// Takes the seat out of a badge, and leaves an empty badge.
pub(crate) fn take_out<C>(badge: &mut Badge<DeskView>) -> Seat<RunState<C>, DeskView>
    requires { badge.old.views ≡ view_in badge.old.views ∷ [] }
    ensures table { result.table_id ≡ badge.old.table_id }
    ensures view { result.me ≡ (view_in badge.old.views, []) }
{
    mem::replace(badge, Badge::blank()).into_seat()
}
