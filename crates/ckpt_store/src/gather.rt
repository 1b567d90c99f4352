//! Adding a folder's outcomes to a union, and saving the union.

ghost use Rattle.std.specs.Prelude.{◌≡◌, ◌≤◌, IfErr, IfOk, OnErr, OnOk, length, count_by, not};
ghost use Rattle.audit_model.specs.Limits.{most_trajectories};
ghost use Rattle.audit_model.specs.Run.{has_id, total};
ghost use Rattle.ckpt_store.specs.Fitting.{AreFit};
ghost use Rattle.ckpt_store.specs.Places.{IsPlace};
ghost use Rattle.audit_statement.specs.Due.{LetsCheckpoint};
ghost use Rattle.ckpt_store.specs.Whole.{IsSavedUnion, IsUnsaved, IsUnsavedUnion};
ghost use Rattle.outcome_book.specs.Union.{AreAgreed, AreById, IsFirstDifference, IsUnion};

use crate::gather_result::GatherError;
use crate::save::save;
use audit_io::keeper::Keeper;
use audit_model::buffers::Bytes;
use audit_model::outcome::Outcome;
use audit_model::place::Place;
use outcome_book::gathering::Gathering;
use plan_core::job::Job;
use std::alloc::Global;

/// Adds the outcomes of a folder to the union. Returns the number of these outcomes whose ids were new in the union.
///
/// # Errors
///
/// The least id at which `found` contradicts the union. In this case nothing is added.
pub fn add(gathering: &mut Gathering, job: &Job, found: &[Outcome]) -> Result<u32, u32>
    requires total { gathering.old.total ≡ total job.now }
    requires fit { AreFit job.now found.now }
    ensures total { gathering.new.total ≡ gathering.old.total }
    ensures union { OnOk result (IsUnion gathering.old.outcomes found.now gathering.new.outcomes) }
    ensures agreed { OnOk result (AreAgreed gathering.old.outcomes found.now) }
    ensures count { IfOk result (λ n. n ≡ count_by (λ o. not (has_id gathering.old.outcomes o.id)) found.now) }
    ensures differs { IfErr result (IsFirstDifference gathering.old.outcomes found.now) }
    ensures kept { OnErr result (gathering.new ≡ gathering.old) }
{
    gathering.merge(found)
}

/// Saves the checkpoint of these outcomes at `place`. The outcomes must be in the order of rising ids.
///
/// # Errors
///
/// - `Memory`: out of memory for the bytes. No save was attempted.
/// - `Unsaved`: the keeper failed. One save was attempted, and its slot may hold anything.
pub fn save_list<C: Keeper>(
    alloc: Global,
    keeper: &mut C,
    place: Place,
    digest: &[u8; 32],
    outcomes: &[Outcome],
) -> Result<(), GatherError>
    requires place { IsPlace place }
    requires few { length outcomes.now ≤ most_trajectories }
    requires rising { AreById outcomes.now }
    requires lets { LetsCheckpoint C.lets (C.state keeper.old) digest.now place.slot place.generation outcomes.now }
    ensures saved { OnOk result (IsSavedUnion digest.now (place.slot, place.generation) outcomes.now (C.state keeper.old) (C.state keeper.new)) }
    ensures cause { IfErr result (IsUnsaved (IsUnsavedUnion digest.now (place.slot, place.generation) outcomes.now (C.state keeper.old) (C.state keeper.new))
        (C.state keeper.old) (C.state keeper.new)) }
{
    let mut place = place;
    match Bytes::with_room(alloc, 84 + 80 * outcomes.len()) {
        Ok(mut room) => match save(keeper, &mut place, digest, outcomes, &mut room) {
            Ok(()) => Ok(()),
            Err(_) => Err(GatherError::Unsaved),
        },
        Err(_) => Err(GatherError::Memory),
    }
}
