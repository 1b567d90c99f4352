//! The end of a run after its walks.

ghost use Rattle.std.specs.Prelude.{◌≡◌, ◌≢◌, ◌≤◌, List};
ghost use Rattle.audit_model.specs.declared.outcome.Outcome as model;
ghost use Rattle.audit_model.specs.Serially.{serial_observed};
ghost use Rattle.audit_statement.specs.Draw.{draw};
ghost use Rattle.audit_statement.specs.Report.{report};
ghost use Rattle.audit_statement.specs.Status.{status_of};
ghost use Rattle.report.specs.Ended.{ending_of};
ghost use Rattle.report.specs.Outcomes.{reported};
ghost use Rattle.audit_statement.specs.Endings.{AreInitialOutcomes, saves};
ghost use Rattle.audit_statement.specs.DueText.{LetsText};
ghost use Rattle.plan_runs.specs.Ending.{SavedBy, ended_as, ended_by, stopped_by};
ghost use Rattle.plan_runs.specs.Found.{HasFound, IsReportable, listed_in, observed_in};
ghost use Rattle.plan_runs.specs.Serially.{IsTester};
ghost use Rattle.audit_laws.specs.Calls.{Finishes};
ghost use Rattle.audit_model.specs.State.{KeeperState};

use crate::found::{Found, first_outcomes, first_stops};
use crate::serially::test_serially;
use audit_io::sink::Sink;
use audit_io::source::Failed;
use audit_model::buffers::Bytes;
use flip_guard::judge::Judge;
use plan_core::job::Job;
use report::ended::Ended;
use report::writing::write_all;
use walker::walker::Walker;

/// The ways in which a run can end after its walks. Out of memory is not among them, because the run allocates all
/// memory before its walks.
#[derive(Clone, Copy)]
pub enum Finished {
    /// The report was written in full.
    Done,
    /// The report was not written in full.
    WriteFault,
    /// `done` of `total` trajectories have outcomes. Another run can walk the rest.
    Stopped { done: u32, total: u32 },
    /// A save failed.
    SaveFault,
}

impl Finished {
    /// Converts the end of the run to the reason why the call ends.
    pub fn ended(self) -> Ended
        ensures ended { result ≡ ended_as self }
        ensures other { status_of (ending_of result) ≢ 3 }
    {
        match self {
            Finished::Done => Ended::Done,
            Finished::WriteFault => Ended::WriteFault,
            Finished::Stopped { done, total } => Ended::Stopped { done, total },
            Finished::SaveFault => Ended::SaveFault,
        }
    }
}

// Returns the end of a run that leaves trajectories pending.
fn stop(done: u32, total: u32, saved: Result<(), Failed>) -> Finished
    ensures { result ≡ stopped_by done total saved }
{
    match saved {
        Ok(()) => Finished::Stopped { done, total },
        Err(_) => Finished::SaveFault,
    }
}

/// Returns the end of a run that wrote its report, in full or in part. A failed write comes before a failed save, since
/// only one of them can be reported.
pub fn end(written: Result<(), Failed>, saved: Result<(), Failed>) -> Finished
    ensures { result ≡ ended_by written saved }
{
    match (written, saved) {
        (Err(_), _) => Finished::WriteFault,
        (Ok(()), Err(_)) => Finished::SaveFault,
        (Ok(()), Ok(())) => Finished::Done,
    }
}

// Returns the number of outcomes that the report needs.
fn count_reported(job: &Job) -> u32
    ensures { result ≡ reported job.now }
{
    if job.setting().stop == 0 {
        job.total()
    } else {
        job.setting().walks
    }
}

/// Makes the serial test if it was requested, and the report on the outcomes. Allocates nothing.
pub fn text_of<J: Judge>(job: &Job, found: Found, tester: Option<Walker<J>>) -> Bytes
    requires reportable { IsReportable job.now found }
    requires whole { reported job.now ≤ found.listed }
    requires tester { IsTester job.now tester }
    ensures { result.items ≡ report job.now (listed_in found) (observed_in found) (serial_observed job.now (draw job.now.setting.key)) }
{
    let Found {
        sorted,
        listed,
        stops,
        observed,
        mut text,
    } = found;
    let outcomes = first_outcomes(sorted.as_slice(), listed);
    let places = first_stops(&stops, observed);
    let serial = test_serially(job, tester);
    report::text(job, outcomes, places, serial, &mut text);
    text
}

/// Ends a run with these outcomes. If no trajectory is pending, makes the serial test if it was requested, and writes
/// the report. Allocates nothing.
pub fn end_run<K: Sink, J: Judge>(
    job: &Job,
    found: Found,
    tester: Option<Walker<J>>,
    saved: Result<(), Failed>,
    out: &mut K,
) -> Finished
    requires reportable { IsReportable job.now found }
    requires tester { IsTester job.now tester }
    requires text { reported job.now ≤ found.listed → LetsText K.lets (K.state out.old) (report job.now (listed_in found) (observed_in found) (serial_observed job.now (draw job.now.setting.key))) }
    ensures { (initial_outcomes : List model.Outcome) (before after : KeeperState) → AreInitialOutcomes job.now before.slots initial_outcomes → HasFound job.now initial_outcomes found
        → SavedBy (saves job.now.setting) job.now initial_outcomes before after saved
        → Finishes job.now (K.state out.old) (K.state out.new) before after (ended_as result) }
{
    let due = count_reported(job);
    if found.listed < due as usize {
        return stop(found.listed as u32, due, saved);
    }
    let text = text_of(job, found, tester);
    let written = write_all(out, text.as_slice());
    end(written, saved)
}
