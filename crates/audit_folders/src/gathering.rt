//! Gathering folders, and the report on a gathering.

ghost use Rattle.std.specs.Prelude.{◌≡◌, ◌++◌, ◌≤◌, List, ℕ, ◌||◌, length, false, map, not, string_bytes, true};
ghost use Rattle.audit_model.specs.Limits.{most_trajectories};
ghost use Rattle.audit_model.specs.Run.{total};
ghost use Rattle.audit_statement.specs.Accepted.{no_columns};
ghost use Rattle.audit_statement.specs.Checkpoint.{job_digest};
ghost use Rattle.audit_statement.specs.Endings.{AddsLine};
ghost use Rattle.audit_statement.specs.Note as terms;
ghost use Rattle.ckpt_store.specs.Whole.{LetsGathering};
ghost use Rattle.audit_folders.specs.FolderLines.{folder_line, folder_refusal, of_each, own_refusal, refusals, observed_text};
ghost use Rattle.audit_folders.specs.Gatherings.{EndsGathering, IsCutOff, IsNoted, IsWhole, Outputs, WritesFindings, WritesGathering, ending_of, failed_status, refused_status};
ghost use Rattle.report.specs.AddedText.{AddsText, HasAdded, LetsNext};
ghost use Rattle.audit_statement.specs.DueText.{LetsText};
ghost use Rattle.audit_folders.specs.DueFolders.{LetsFindings, LetsGatherLine};

use crate::lines::{add_folder_line, add_own_line};
use audit_io::keeper::Keeper;
use audit_io::sink::Sink;
use ckpt_store::finding::Finding;
use ckpt_store::gather_result::{GatherError, GatherResult};
use ckpt_store::whole::gather;
use plan_core::job::Job;
use report::ended::Ended;
use report::note::{add_line, write_diagnostic};
use report::piece::Piece::{Number, Text};
use std::alloc::Global;

/// The exit status if a folder cannot be gathered.
pub const REFUSED: u8 = 10;

/// The job whose folders are gathered, the names of the folders, and whether their union is saved.
#[derive(Clone, Copy)]
pub struct GatherRequest<'a> {
    pub job: &'a Job,
    pub names: &'a [String],
    pub saves: bool,
}

/// Gathers folders into the slots of `keeper` and reports the findings. A request that does not save only looks at the
/// folders. Returns the exit status.
///
/// The findings go to `out` if the union is saved, or if the request does not save. If the request saves but a folder
/// is refused, a line on `note` gives the reason for each refused folder, and the status is `REFUSED`. If the gathering
/// fails or a write to `out` fails, the diagnostic and the status are those of an audit that fails for the same reason.
pub fn gather_and_report<C: Keeper, F: Keeper, O: Sink, N: Sink>(
    alloc: Global,
    request: &GatherRequest<'_>,
    keeper: &mut C,
    folders: &mut [F],
    out: &mut O,
    note: &mut N,
) -> u8
    requires few { total request.now.job.now ≤ most_trajectories }
    requires names { length request.now.names.now ≡ length folders.old }
    requires lets { LetsGathering C.lets request.now.job.now (job_digest request.now.job.now) request.now.saves (C.state keeper.old).slots (C.state keeper.old).attempted (map (λ k. F.state k) folders.old) }
    requires text { LetsFindings O.lets request.now.job.now request.now.saves (map string_bytes request.now.names.now) (C.state keeper.old) (map (λ k. F.state k) folders.old) (O.state out.old) }
    requires note { LetsGatherLine N.lets request.now.job.now request.now.saves (map string_bytes request.now.names.now) (C.state keeper.old) (map (λ k. F.state k) folders.old) (N.state note.old) }
    ensures { EndsGathering request.now.job.now request.now.saves (map string_bytes request.now.names.now) (C.state keeper.old) (C.state keeper.new) (map (λ k. F.state k) folders.old) (map (λ k. F.state k) folders.new)
        (record { out = O.state out.old; note = N.state note.old }) (record { out = O.state out.new; note = N.state note.new }) result }
{
    match gather(alloc, keeper, folders, request.job, request.saves) {
        Ok(observed) => write_findings(request, &observed, out, note),
        Err(why) => write_failure(why, note),
    }
}

// Writes the diagnostic of a failed gathering and returns its status.
fn write_failure<N: Sink>(why: GatherError, note: &mut N) -> u8
    requires { LetsText N.lets (N.state note.old) (terms.note no_columns (ending_of why)) }
    ensures status { result ≡ failed_status why }
    ensures observed { AddsLine (N.state note.old) (N.state note.new) (terms.note no_columns (ending_of why)) }
{
    match why {
        GatherError::Memory => write_diagnostic(&Ended::NoMemory, note),
        GatherError::Unread => write_diagnostic(&Ended::LoadFault, note),
        GatherError::Taken => write_diagnostic(&Ended::FolderTaken, note),
        GatherError::Unsaved => write_diagnostic(&Ended::SaveFault, note),
    }
}

// Writes the findings, or the reasons why nothing was saved. Returns the status.
fn write_findings<O: Sink, N: Sink>(
    request: &GatherRequest<'_>,
    observed: &GatherResult,
    out: &mut O,
    note: &mut N,
) -> u8
    requires text { (not request.now.saves || observed.now.saved) ≡ true → LetsText O.lets (O.state out.old) (observed_text (map string_bytes request.now.names.now) observed.now (total request.now.job.now)) }
    requires unsaved { (not request.now.saves || observed.now.saved) ≡ false → LetsText N.lets (N.state note.old) (refusals (map string_bytes request.now.names.now) observed.now) }
    requires note { LetsText N.lets (N.state note.old) (terms.note no_columns terms.write_fault) }
    ensures { WritesFindings (not request.now.saves || observed.now.saved) (map string_bytes request.now.names.now) (total request.now.job.now) observed.now
        (record { out = O.state out.old; note = N.state note.old }) (record { out = O.state out.new; note = N.state note.new }) result }
{
    if request.saves && !observed.saved {
        write_refusals(request.names, observed, note);
        return REFUSED;
    }
    if write_observed(request.job.total(), request.names, observed, out) {
        return 0;
    }
    write_diagnostic(&Ended::WriteFault, note)
}

// Writes the findings. Returns true if no write failed.
fn write_observed<O: Sink>(
    total: u32,
    names: &[String],
    observed: &GatherResult,
    out: &mut O,
) -> bool
    requires { LetsText O.lets (O.state out.old) (observed_text (map string_bytes names.now) observed.now total) }
    ensures { HasAdded (O.state out.old) (O.state out.new) (observed_text (map string_bytes names.now) observed.now total) result }
{
    let going = add_own_line(out, true, &[], &observed.own);
    let going = add_folders(names, observed.folders.as_slice(), going, out);
    let done = Number(u64::from(observed.done));
    let total = Number(u64::from(total));
    add_line(
        out,
        going,
        &[],
        &[Text("done: "), done, Text(" of "), total],
    )
}

// Writes a line for each folder if `going` is true. Returns true if no write has failed.
fn add_folders<O: Sink>(names: &[String], findings: &[Finding], going: bool, out: &mut O) -> bool
    requires { LetsNext O.lets (O.state out.old) going (of_each (folder_line (map string_bytes names.now)) (map string_bytes names.now) findings.now) }
    ensures { AddsText (O.state out.old) (O.state out.new) going (of_each (folder_line (map string_bytes names.now)) (map string_bytes names.now) findings.now) result }
{
    let mut going = going;
    let count = names.len().min(findings.len());
    for place in 0..count {
        let name = names[place].as_str();
        going = add_folder_line(out, going, &[], names, name, &findings[place]);
    }
    going
}

fn write_refusals<N: Sink>(names: &[String], observed: &GatherResult, note: &mut N)
    requires { LetsText N.lets (N.state note.old) (refusals (map string_bytes names.now) observed.now) }
    ensures { AddsLine (N.state note.old) (N.state note.new) (refusals (map string_bytes names.now) observed.now) }
{
    let going = add_own_refusal(&observed.own, note);
    // These lines are the last output, so nothing depends on the result.
    let _ended = add_refusals(names, observed.folders.as_slice(), going, note);
}

// Writes the reason why the working folder cannot take the union, if there is one. Returns true if no write failed.
fn add_own_refusal<N: Sink>(own: &Finding, note: &mut N) -> bool
    requires { LetsNext N.lets (N.state note.old) true (own_refusal own.now) }
    ensures { AddsText (N.state note.old) (N.state note.new) true (own_refusal own.now) result }
{
    if own.is_start() {
        return true;
    }
    add_own_line(note, true, &[Text("gather: ")], own)
}

// Writes a line for each folder that cannot be gathered, if `going` is true. Returns true if no write has failed.
fn add_refusals<N: Sink>(names: &[String], findings: &[Finding], going: bool, note: &mut N) -> bool
    requires { LetsNext N.lets (N.state note.old) going (of_each (folder_refusal (map string_bytes names.now)) (map string_bytes names.now) findings.now) }
    ensures { AddsText (N.state note.old) (N.state note.new) going (of_each (folder_refusal (map string_bytes names.now)) (map string_bytes names.now) findings.now) result }
{
    let mut going = going;
    let count = names.len().min(findings.len());
    for place in 0..count {
        let name = names[place].as_str();
        going = add_refusal(names, name, &findings[place], going, note);
    }
    going
}

// Writes the reason why a folder cannot be gathered, if there is one and `going` is true.
fn add_refusal<'x, N: Sink>(
    names: &'x [String],
    name: &'x str,
    finding: &Finding,
    going: bool,
    note: &mut N,
) -> bool
    requires { LetsNext N.lets (N.state note.old) going (folder_refusal (map string_bytes names.now) name.now finding.now) }
    ensures { AddsText (N.state note.old) (N.state note.new) going (folder_refusal (map string_bytes names.now) name.now finding.now) result }
{
    if finding.is_added() {
        return going;
    }
    add_folder_line(note, going, &[Text("gather: ")], names, name, finding)
}
