//! The capacity that a report needs.

ghost use Rattle.std.specs.Prelude.{◌≡◌, ◌+◌, ◌*◌, ◌^◌, ◌≤◌, ℕ, List, length, Option, None, Some, IfSome, OnOk, OnErr, sum};
ghost use Rattle.audit_model.specs.declared.outcome.Outcome.{Outcome};
ghost use Rattle.report.specs.Outcomes.{AreOutcomesOf, AreStopsOf, IsSerialOf};
ghost use Rattle.report.specs.Parts.{names_length, source_line};
ghost use Rattle.audit_statement.specs.Report as definition;

use crate::asks::ask_count;
use audit_model::buffers::Bytes;
use audit_model::memory::Memory;
use audit_model::origin::Origin;
use audit_model::setting::Setting;
use plan_core::job::Job;
use std::alloc::Global;

/// An upper bound on the total bytes of all lines except those of asks and of the origin.
const FRAME_ROOM: usize = 3000;

/// An upper bound on the bytes of one line of an ask.
const LINE_ROOM: usize = 200;

/// An upper bound on the bytes of the source line without the digest.
const SOURCE_ROOM: usize = 100;

/// An upper bound on the bytes of the columns line without the names.
const COLUMNS_ROOM: usize = 70;

/// The greatest number of bytes that a JSON string takes for one byte of a name.
const ESCAPE_ROOM: usize = 6;

/// Reserves capacity for any report on the job, whatever the outcomes are. The contents of `out` are unchanged.
///
/// # Errors
///
/// `Memory`: out of memory. `out` is unchanged.
pub fn reserve(alloc: Global, job: &Job, out: &mut Bytes) -> Result<(), Memory>
    ensures bytes { out.new.items ≡ out.old.items }
    ensures room { OnOk result ((outcomes : List Outcome) (stops : List (List ℕ)) (serial : Option (ℕ × List ℕ)) →
        AreOutcomesOf job.now outcomes → AreStopsOf job.now stops → IsSerialOf job.now serial →
        length (definition.report job.now outcomes stops serial) ≤ out.new.spare) }
    ensures err { OnErr result (out.new ≡ out.old) }
{
    let room = report_room(job).ok_or(Memory)?;
    if room <= out.spare() {
        return Ok(());
    }
    let bytes = out.as_slice();
    let count = bytes.len().checked_add(room).ok_or(Memory)?;
    let mut roomy = Bytes::with_room(alloc, count)?;
    roomy.append(bytes)?;
    *out = roomy;
    Ok(())
}

/// Returns an upper bound on the bytes of any report on the job. Returns `None` if the bound does not fit in `usize`,
/// for which the column names must have 2^61 bytes or more.
fn report_room(job: &Job) -> Option<usize>
    ensures enough { IfSome result (λ room. (outcomes : List Outcome) (stops : List (List ℕ)) (serial : Option (ℕ × List ℕ)) →
        AreOutcomesOf job.now outcomes → AreStopsOf job.now stops → IsSerialOf job.now serial →
        length (definition.report job.now outcomes stops serial) ≤ room) }
    ensures none { result ≡ None → 2 ^ 61 ≤ names_length job.now.setting.columns job.now.setting.region }
{
    lines_room(job).checked_add(origin_room(job)?)
}

/// Returns an upper bound on the bytes of any report on the job, without the lines of its origin.
fn lines_room(job: &Job) -> usize
    ensures enough { (outcomes : List Outcome) (stops : List (List ℕ)) (serial : Option (ℕ × List ℕ)) →
        AreOutcomesOf job.now outcomes → AreStopsOf job.now stops → IsSerialOf job.now serial →
        length (definition.report job.now outcomes stops serial) ≤ result + length (definition.origin_lines job.now job.now.origin) }
    ensures few { result ≤ 130000000 }
{
    let walks = job.setting().walks as usize;
    let lines_of_ask = walks + walks / 2 + 2;
    FRAME_ROOM + lines_of_ask * ask_count(job) * LINE_ROOM
}

/// Returns an upper bound on the bytes of the lines of the job's origin.
fn origin_room(job: &Job) -> Option<usize>
    ensures enough { IfSome result (λ room. length (definition.origin_lines job.now job.now.origin) ≤ room) }
    ensures no_origin { job.now.origin ≡ None → result ≡ Some 0 }
    ensures few { IfSome result (λ room. room ≤ names_length job.now.setting.columns job.now.setting.region * 6 + 300) }
    ensures none { result ≡ None → 2 ^ 61 ≤ names_length job.now.setting.columns job.now.setting.region }
{
    match job.origin() {
        None => Some(0),
        Some(origin) => columns_room(job.setting())?.checked_add(source_room(&origin)),
    }
}

/// Returns an upper bound on the bytes of the source line.
fn source_room(origin: &Origin) -> usize
    ensures enough { length (source_line origin.now) ≤ result }
    ensures few { result ≤ 200 }
{
    SOURCE_ROOM + 2 * digest_len(&origin.sha256)
}

/// Returns the number of bytes of a digest.
fn digest_len(digest: &[u8; 32]) -> usize
    ensures value { result ≡ length digest.now }
    ensures few { result ≡ 32 }
{
    digest.len()
}

/// Returns an upper bound on the bytes of the columns line.
fn columns_room(setting: &Setting) -> Option<usize>
    ensures enough { IfSome result (λ room. length (definition.columns_line setting.now.columns setting.now.region) ≤ room) }
    ensures few { IfSome result (λ room. room ≤ names_length setting.now.columns setting.now.region * 6 + 100) }
    ensures none { result ≡ None → 2 ^ 61 ≤ names_length setting.now.columns setting.now.region }
{
    names_len(setting)?
        .checked_mul(ESCAPE_ROOM)?
        .checked_add(COLUMNS_ROOM)
}

/// Returns the total number of bytes of the column names.
fn names_len(setting: &Setting) -> Option<usize>
    ensures value { IfSome result (λ count. count ≡ names_length setting.now.columns setting.now.region) }
    ensures none { result ≡ None → 2 ^ 61 ≤ names_length setting.now.columns setting.now.region }
{
    let columns = &setting.columns;
    checked_sum(&[
        columns.population.len(),
        columns.first.len(),
        columns.second.len(),
        columns.district.len(),
        columns.group.len(),
        columns.whole.len(),
        columns.frozen.len(),
        columns.length.len(),
        setting.region.len(),
    ])
}

/// Returns the sum, if it fits in `usize`.
#[tactic(auto, using(std::proofs::lemmas::List::Sums::sum_by_more_le))]
fn checked_sum(numbers: &[usize]) -> Option<usize>
    ensures value { IfSome result (λ total. total ≡ sum numbers.now) }
    ensures none { result ≡ None → 2 ^ 64 ≤ sum numbers.now }
{
    let mut total: usize = 0;
    for number in numbers {
        total = total.checked_add(*number)?;
    }
    Some(total)
}
