//! The last save of a run, after its desk is closed.

ghost use Rattle.std.specs.Prelude.{◌≡◌, ◌<◌, AllPairs, IsPermutation, false};
ghost use Rattle.outcome_book.specs.Booked.{IsBook};
ghost use Rattle.audit_model.specs.Run.{by_id};
ghost use Rattle.ckpt_store.specs.Places.{IsPlace};
ghost use Rattle.tally_desk.specs.Entries.{ends_saved};
ghost use Rattle.tally_desk.specs.Rooms.{HasSaveRoom};
ghost use Rattle.tally_desk.specs.Saves.{MakesLastSave};
ghost use Rattle.tally_desk.specs.Saving.{LetsSave};

use crate::state::RunState;
use audit_io::keeper::Keeper;
use audit_io::source::Failed;
use ckpt_store::save;

/// Sorts all outcomes by rising id. Saves their checkpoint, unless a save with the last post succeeded. Only the keeper
/// may allocate.
pub fn save_rest<C: Keeper>(state: &mut RunState<C>) -> Result<(), Failed>
    requires place { IsPlace state.old.place }
    requires room { HasSaveRoom state.old.book.total state.old.sorted state.old.room }
    requires lets { ends_saved state.old.posted.items ≡ false → LetsSave C.state C.lets state.old }
    ensures book { IsBook state.old.book }
    ensures sorted { state.new.sorted.items ≡ by_id state.old.book.total state.old.book.outcomes }
    ensures all { IsPermutation state.old.book.outcomes state.new.sorted.items }
    ensures rising { AllPairs (λ a b. a.id < b.id) state.new.sorted.items }
    ensures rest { MakesLastSave C.state state.old state.new result }
{
    // This call only tells the proof that the book is within its capacity.
    let _count = state.book.len();
    state.book.sorted_into(&mut state.sorted);
    if state.has_saved_last() {
        return Ok(());
    }
    save::save(
        &mut state.keeper,
        &mut state.place,
        &state.digest,
        state.sorted.as_slice(),
        &mut state.room,
    )
}
