//! The offsets of a checkpoint's fields, and reading a field at an offset. All numbers are
//! big-endian.

ghost use Rattle.std.specs.Prelude.{◌≡◌, ◌+◌, ◌*◌, ◌≤◌, IsTrue, length, slice_range};
ghost use Rattle.std.specs.Int.{w32, w64, cast_signed};
ghost use Rattle.audit_model.specs.Below.{map_below};
ghost use Rattle.audit_statement.specs.Checkpoint.{number_at, outcome_size, outcome_start, stated_version, digest_place};
ghost use Rattle.audit_statement.specs.Slots.{histogram_at, outcome_at, outcome_in};

use audit_model::outcome::Outcome;

/// The offset of the version. The format's name comes before it.
pub(crate) const VERSION: usize = 8;

/// The offset of the job's digest.
pub(crate) const DIGEST: usize = 12;

/// The offset of the generation.
pub(crate) const GENERATION: usize = 44;

/// The offset of the number of outcomes.
pub(crate) const COUNT: usize = 48;

/// The offset of the first outcome.
pub(crate) const OUTCOMES: usize = 52;

/// Returns the `N` bytes at an offset.
pub(crate) fn array_at<const N: usize>(bytes: &[u8], at: usize) -> [u8; N]
    requires { at + N ≤ length bytes.now }
    ensures { result ≡ slice_range bytes.now at (at + N) }
{
    let mut part = [0; N];
    part.copy_from_slice(&bytes[at..at + N]);
    part
}

/// Returns the number in the four bytes at an offset.
pub(crate) fn u32_at(bytes: &[u8], at: usize) -> u32
    requires { at + 4 ≤ length bytes.now }
    ensures { result ≡ number_at w32 at bytes.now }
{
    u32::from_be_bytes(array_at(bytes, at))
}

/// Returns the number of bytes of an outcome, by the version of the format.
pub(crate) fn outcome_size(version: u32) -> usize
    ensures value { result ≡ outcome_size version }
    ensures few { result ≤ 80 }
{
    if version == 2 { 80 } else { 44 }
}

/// Returns the offset of the outcome with this index.
pub(crate) fn outcome_start(bytes: &[u8], place: u32) -> usize
    requires { digest_place ≤ length bytes.now }
    ensures { result ≡ outcome_start bytes.now place }
{
    OUTCOMES + outcome_size(u32_at(bytes, VERSION)) * place as usize
}

/// Returns the outcome with this index, counted from 0.
pub(crate) fn outcome_in(bytes: &[u8], place: u32) -> Outcome
    requires { outcome_start bytes.now (place + 1) ≤ length bytes.now }
    ensures { result ≡ outcome_in bytes.now place }
{
    outcome_at(bytes, outcome_start(bytes, place))
}

/// Returns the number in the eight bytes at an offset.
fn u64_at(bytes: &[u8], at: usize) -> u64
    requires { at + 8 ≤ length bytes.now }
    ensures { result ≡ number_at w64 at bytes.now }
{
    u64::from_be_bytes(array_at(bytes, at))
}

/// Returns the signed number in the eight bytes at an offset, in two's complement.
fn i64_at(bytes: &[u8], at: usize) -> i64
    requires { at + 8 ≤ length bytes.now }
    ensures { result ≡ cast_signed w64 (number_at w64 at bytes.now) }
{
    u64_at(bytes, at).cast_signed()
}

fn outcome_at(bytes: &[u8], at: usize) -> Outcome
    requires version { digest_place ≤ length bytes.now }
    requires room { at + outcome_size (stated_version bytes.now) ≤ length bytes.now }
    ensures { result ≡ outcome_at bytes.now at }
{
    Outcome {
        id: u32_at(bytes, at),
        moved: u64_at(bytes, at + 4),
        values: [
            i64_at(bytes, at + 12),
            i64_at(bytes, at + 20),
            i64_at(bytes, at + 28),
            i64_at(bytes, at + 36),
        ],
        bins: histogram_of(bytes, u32_at(bytes, VERSION) == 2, at + 44),
    }
}

/// Returns the histogram at an offset, or zeros if there is none.
fn histogram_of(bytes: &[u8], present: bool, at: usize) -> [u32; 9]
    requires { IsTrue present → at + 36 ≤ length bytes.now }
    ensures { result ≡ histogram_at present bytes.now at }
{
    if present {
        histogram_at(bytes, at)
    } else {
        [0; 9]
    }
}

/// Returns the nine numbers of four bytes each at an offset.
fn histogram_at(bytes: &[u8], at: usize) -> [u32; 9]
    requires { at + 36 ≤ length bytes.now }
    ensures { result ≡ map_below 9 (λ k. number_at w32 (at + 4 * k) bytes.now) }
{
    [
        u32_at(bytes, at),
        u32_at(bytes, at + 4),
        u32_at(bytes, at + 8),
        u32_at(bytes, at + 12),
        u32_at(bytes, at + 16),
        u32_at(bytes, at + 20),
        u32_at(bytes, at + 24),
        u32_at(bytes, at + 28),
        u32_at(bytes, at + 32),
    ]
}
