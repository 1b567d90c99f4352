//! Saving a checkpoint.

ghost use Rattle.std.specs.Prelude.{◌≡◌, ◌+◌, ◌-◌, ◌*◌, ◌%◌, ◌<◌, ◌≤◌, length, map, OnErr, OnOk};
ghost use Rattle.audit_statement.specs.Checkpoint.{AreRising, empty_length};
ghost use Rattle.audit_statement.specs.Due.{LetsCheckpoint};
ghost use Rattle.ckpt_store.specs.Saved.{SavesThese};
ghost use Rattle.audit_model.specs.Limits.{most_trajectories};

use crate::slots::generation_after;
use audit_io::keeper::Keeper;
use audit_io::source::Failed;
use audit_model::buffers::Bytes;
use audit_model::outcome::Outcome;
use audit_model::place::Place;
use ckpt_format::ahead::Ahead;
use ckpt_format::encode::encode_with;

/// Saves the checkpoint of these outcomes at `place`, in the second version of the format. After a save that succeeds,
/// `place` is the other slot with the next generation. This function allocates nothing, but the keeper may.
///
/// The keeper must permit the save by its relation `lets`, which exists in proofs only. A save that is permitted may
/// still fail.
///
/// # Errors
///
/// The keeper failed. `place` is unchanged, and its slot may hold anything.
pub fn save<C: Keeper>(
    keeper: &mut C,
    place: &mut Place,
    digest: &[u8; 32],
    outcomes: &[Outcome],
    room: &mut Bytes,
) -> Result<(), Failed>
    requires slot { place.old.slot < 2 }
    requires generation { place.old.generation < 3 }
    requires few { length outcomes.now ≤ most_trajectories }
    requires rising { AreRising (map (λ o. o.id) outcomes.now) }
    requires room { empty_length + 80 * length outcomes.now ≤ length room.old.items + room.old.spare }
    requires lets { LetsCheckpoint C.lets (C.state keeper.old) digest.now place.old.slot place.old.generation outcomes.now }
    ensures saves { SavesThese C.state keeper.old keeper.new place.old digest.now outcomes.now result }
    ensures moved { OnOk result (place.new ≡ record { slot = 1 - place.old.slot; generation = (place.old.generation + 1) % 3 }) }
    ensures kept { OnErr result (place.new ≡ place.old) }
    ensures room { length room.new.items + room.new.spare ≡ length room.old.items + room.old.spare }
{
    save_with(keeper, place, digest, outcomes, room, None)
}

/// Saves as `save` does. `ahead`, if given, has hashed a prediction of the checkpoint's first bytes in advance. If the
/// prediction is right, only the other bytes remain to be hashed, which saves time. A wrong prediction changes no
/// result.
///
/// # Errors
///
/// The keeper failed. `place` is unchanged, and its slot may hold anything.
pub fn save_with<C: Keeper>(
    keeper: &mut C,
    place: &mut Place,
    digest: &[u8; 32],
    outcomes: &[Outcome],
    room: &mut Bytes,
    ahead: Option<&mut Ahead>,
) -> Result<(), Failed>
    requires slot { place.old.slot < 2 }
    requires generation { place.old.generation < 3 }
    requires few { length outcomes.now ≤ most_trajectories }
    requires rising { AreRising (map (λ o. o.id) outcomes.now) }
    requires room { empty_length + 80 * length outcomes.now ≤ length room.old.items + room.old.spare }
    requires lets { LetsCheckpoint C.lets (C.state keeper.old) digest.now place.old.slot place.old.generation outcomes.now }
    ensures saves { SavesThese C.state keeper.old keeper.new place.old digest.now outcomes.now result }
    ensures moved { OnOk result (place.new ≡ record { slot = 1 - place.old.slot; generation = (place.old.generation + 1) % 3 }) }
    ensures kept { OnErr result (place.new ≡ place.old) }
    ensures room { length room.new.items + room.new.spare ≡ length room.old.items + room.old.spare }
{
    encode_with(digest, place.generation, outcomes, room, ahead);
    keeper.save(place.slot, room.as_slice())?;
    *place = Place {
        slot: 1 - place.slot,
        generation: generation_after(place.generation),
    };
    Ok(())
}
