//! Encoding a checkpoint.

ghost use Rattle.std.specs.Prelude.{◌≡◌, ◌+◌, ◌*◌, ◌^◌, ◌<◌, ◌≤◌, IsTrue, length, map, flat_map, FitsSigned};
ghost use Rattle.std.specs.List.{AllByRecursion, list_all};
ghost use Rattle.std.specs.Int.{w32, w64, to_be_bytes, cast_unsigned};
ghost use Rattle.sha2.specs.Sha256.{sha256};
ghost use Rattle.audit_model.specs.Run.{has_no_histogram};
ghost use Rattle.audit_statement.specs.Checkpoint.{AreRising, AreHistogramsStorable, IsCheckpoint, IsOutcome, bin_bytes, checkpoint, outcome_bytes, outcome_size, empty_length, outcomes_place};
ghost use Rattle.ckpt_format.specs.Written.{AppendsBytes, bytes_by, head_bytes, size_by};
ghost use Rattle.audit_model.specs.Limits.{most_trajectories};

use crate::ahead::Ahead;
use crate::piece::OutcomeBytes;
use audit_model::buffers::Bytes;
use audit_model::outcome::Outcome;
use sha2::{Digest, Sha256};

/// The format's name, with which each checkpoint begins.
pub(crate) const MAGIC: [u8; 8] = *b"DISTCKPT";

/// Fills `out` with the checkpoint of these outcomes, in the second version of the format. Allocates nothing.
pub fn encode(digest: &[u8; 32], generation: u8, outcomes: &[Outcome], out: &mut Bytes)
    requires generation { generation < 3 }
    requires few { length outcomes.now ≤ most_trajectories }
    requires rising { AreRising (map (λ o. o.id) outcomes.now) }
    requires room { empty_length + 80 * length outcomes.now ≤ length out.old.items + out.old.spare }
    ensures bytes { out.new.items ≡ checkpoint 2 digest.now generation outcomes.now }
    ensures length { length out.new.items ≡ empty_length + 80 * length outcomes.now }
    ensures room { length out.new.items + out.new.spare ≡ length out.old.items + out.old.spare }
    ensures sound { IsCheckpoint out.new.items 2 digest.now generation outcomes.now }
{
    encode_with(digest, generation, outcomes, out, None);
}

/// Fills `out` as `encode` does. With `ahead`, the checkpoint's digest is finished from the hash that `ahead` has
/// begun, which saves time if the prediction was right.
pub fn encode_with(
    digest: &[u8; 32],
    generation: u8,
    outcomes: &[Outcome],
    out: &mut Bytes,
    ahead: Option<&mut Ahead>,
)
    requires generation { generation < 3 }
    requires few { length outcomes.now ≤ most_trajectories }
    requires rising { AreRising (map (λ o. o.id) outcomes.now) }
    requires room { empty_length + 80 * length outcomes.now ≤ length out.old.items + out.old.spare }
    ensures bytes { out.new.items ≡ checkpoint 2 digest.now generation outcomes.now }
    ensures length { length out.new.items ≡ empty_length + 80 * length outcomes.now }
    ensures room { length out.new.items + out.new.spare ≡ length out.old.items + out.old.spare }
    ensures sound { IsCheckpoint out.new.items 2 digest.now generation outcomes.now }
{
    encode_as(2, digest, generation, outcomes, out, ahead);
}

/// Fills `out` with the checkpoint of these outcomes, which have no histograms, in the first version of the format.
/// Allocates nothing.
pub fn encode_old(digest: &[u8; 32], generation: u8, outcomes: &[Outcome], out: &mut Bytes)
    requires generation { generation < 3 }
    requires few { length outcomes.now ≤ most_trajectories }
    requires rising { AreRising (map (λ o. o.id) outcomes.now) }
    requires without_histogram { IsTrue (list_all has_no_histogram outcomes.now) }
    requires room { empty_length + 44 * length outcomes.now ≤ length out.old.items + out.old.spare }
    ensures bytes { out.new.items ≡ checkpoint 1 digest.now generation outcomes.now }
    ensures length { length out.new.items ≡ empty_length + 44 * length outcomes.now }
    ensures room { length out.new.items + out.new.spare ≡ length out.old.items + out.old.spare }
    ensures sound { IsCheckpoint out.new.items 1 digest.now generation outcomes.now }
{
    encode_as(1, digest, generation, outcomes, out, None);
}

/// Fills `out` with a checkpoint in this version of the format. Only the second version stores histograms.
fn encode_as(
    version: u32,
    digest: &[u8; 32],
    generation: u8,
    outcomes: &[Outcome],
    out: &mut Bytes,
    ahead: Option<&mut Ahead>,
)
    requires generation { generation < 3 }
    requires few { length outcomes.now ≤ most_trajectories }
    requires rising { AreRising (map (λ o. o.id) outcomes.now) }
    requires room { empty_length + outcome_size version * length outcomes.now ≤ length out.old.items + out.old.spare }
    ensures bytes { out.new.items ≡ checkpoint version digest.now generation outcomes.now }
    ensures length { length out.new.items ≡ empty_length + outcome_size version * length outcomes.now }
    ensures room { length out.new.items + out.new.spare ≡ length out.old.items + out.old.spare }
    ensures each { AllByRecursion IsOutcome outcomes.now }
    ensures sound { AreHistogramsStorable version outcomes.now → IsCheckpoint out.new.items version digest.now generation outcomes.now }
{
    out.clear();
    append_head(out, version, digest, generation, outcomes.len() as u32);
    append_outcomes(out, version, outcomes);
    append_digest(out, ahead);
}

/// Appends the head of a checkpoint, which comes before the outcomes: name, version, digest of the job, generation, and
/// number of outcomes.
pub(crate) fn append_head(
    out: &mut Bytes,
    version: u32,
    digest: &[u8; 32],
    generation: u8,
    count: u32,
)
    requires { outcomes_place ≤ out.old.spare }
    ensures { AppendsBytes out.old out.new (head_bytes version digest.now generation count) }
{
    let mut piece = OutcomeBytes::new();
    piece.append(&MAGIC);
    append_u32(&mut piece, version);
    piece.append(digest);
    append_u32(&mut piece, u32::from(generation));
    append_u32(&mut piece, count);
    append(out, piece.as_slice());
}

fn append_outcomes(out: &mut Bytes, version: u32, outcomes: &[Outcome])
    requires { outcome_size version * length outcomes.now ≤ out.old.spare }
    ensures bytes { AppendsBytes out.old out.new (flat_map (outcome_bytes version) outcomes.now) }
    ensures sound { AllByRecursion IsOutcome outcomes.now }
{
    for outcome in outcomes {
        append_outcome(out, version == 2, outcome);
    }
}

/// Appends an outcome: its id, moves and values, and its histogram in the second version of the format.
pub(crate) fn append_outcome(out: &mut Bytes, with_histogram: bool, outcome: &Outcome)
    requires { size_by with_histogram ≤ out.old.spare }
    ensures bytes { AppendsBytes out.old out.new (bytes_by with_histogram outcome.now) }
    ensures sound { IsOutcome outcome.now }
{
    let mut piece = OutcomeBytes::new();
    append_u32(&mut piece, outcome.id);
    append_u64(&mut piece, outcome.moved);
    append_values(&mut piece, &outcome.values);
    append_histogram(&mut piece, with_histogram, &outcome.bins);
    append(out, piece.as_slice());
}

fn append_histogram(piece: &mut OutcomeBytes, with_histogram: bool, bins: &[u32; 9])
    requires { IsTrue with_histogram → 36 ≤ piece.old.spare }
    ensures bytes { AppendsBytes piece.old piece.new (bin_bytes with_histogram bins.now) }
    ensures sound { AllByRecursion (λ n. n < 2 ^ 32) bins.now }
{
    if with_histogram {
        append_numbers(piece, bins);
    }
}

fn append_numbers(piece: &mut OutcomeBytes, numbers: &[u32])
    requires { 4 * length numbers.now ≤ piece.old.spare }
    ensures { AppendsBytes piece.old piece.new (flat_map (to_be_bytes w32) numbers.now) }
{
    for number in numbers {
        append_u32(piece, *number);
    }
}

fn append_values(piece: &mut OutcomeBytes, values: &[i64])
    requires { 8 * length values.now ≤ piece.old.spare }
    ensures bytes { AppendsBytes piece.old piece.new (flat_map (λ v. to_be_bytes w64 (cast_unsigned w64 v)) values.now) }
    ensures sound { AllByRecursion (FitsSigned w64) values.now }
{
    for value in values {
        append_i64(piece, *value);
    }
}

fn append_u32(piece: &mut OutcomeBytes, number: u32)
    requires { 4 ≤ piece.old.spare }
    ensures { AppendsBytes piece.old piece.new (to_be_bytes w32 number) }
{
    piece.append(&number.to_be_bytes());
}

fn append_u64(piece: &mut OutcomeBytes, number: u64)
    requires { 8 ≤ piece.old.spare }
    ensures { AppendsBytes piece.old piece.new (to_be_bytes w64 number) }
{
    piece.append(&number.to_be_bytes());
}

fn append_i64(piece: &mut OutcomeBytes, number: i64)
    requires { 8 ≤ piece.old.spare }
    ensures { AppendsBytes piece.old piece.new (to_be_bytes w64 (cast_unsigned w64 number)) }
{
    piece.append(&number.to_be_bytes());
}

/// Appends the SHA-256 of all bytes so far.
fn append_digest(out: &mut Bytes, ahead: Option<&mut Ahead>)
    requires { 32 ≤ out.old.spare }
    ensures { AppendsBytes out.old out.new (sha256 out.old.items) }
{
    let digest = match ahead {
        Some(ahead) => ahead.digest_of(out.as_slice()),
        None => Sha256::digest(out.as_slice()),
    };
    append(out, &digest);
}

fn append(out: &mut Bytes, bytes: &[u8])
    requires { length bytes.now ≤ out.old.spare }
    ensures { AppendsBytes out.old out.new bytes.now }
{
    // The capacity is reserved: appending allocates nothing and cannot fail.
    let _ = out.append(bytes);
}
