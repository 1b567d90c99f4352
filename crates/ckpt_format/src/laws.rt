//! Laws of checkpoints. Each law is the contract of a function with an empty body.

ghost use Rattle.ckpt_format.specs.Laws.{FaultlessAreCheckpoints, CheckpointsAreRead, CheckpointsAreDetermined, CheckpointsHaveLength, RisingPairsRise};

/// Shows that bytes have no fault exactly if they are the checkpoint of some version, digest, generation and outcomes.
pub fn faultless_bytes_are_checkpoints()
    ensures { FaultlessAreCheckpoints }
{}

/// Shows that decoding inverts encoding: each part of a checkpoint is read from the offset at which it was written.
pub fn checkpoints_are_read()
    ensures { CheckpointsAreRead }
{}

/// Shows that the bytes of a checkpoint determine its version, digest, generation and outcomes.
pub fn checkpoints_are_determined()
    ensures { CheckpointsAreDetermined }
{}

/// Shows the size of a checkpoint: 84 bytes, and for each outcome 44 bytes in the first version or 80 in the second.
/// The largest has 8,000,084 bytes.
pub fn checkpoints_have_a_length()
    ensures { CheckpointsHaveLength }
{}

/// Shows that ids rise in the sense of `encode` if each id is smaller than all later ones.
pub fn rising_pairs_rise()
    ensures { RisingPairsRise }
{}
