//! The report of an audit.

ghost use Rattle.std.specs.Prelude.{◌≡◌, ◌+◌, ◌∷◌, ◌≤◌, ◌++◌, [], length};
ghost use Rattle.report.specs.Lines.{AppendsText};
ghost use Rattle.report.specs.Outcomes.{AreOutcomesOf, AreStopsOf, IsSerialOf};
ghost use Rattle.report.specs.Parts.{head, job_lines, key_line, report_by_parts};
ghost use Rattle.audit_statement.specs.Report as definition;

use crate::check::push_plan_lines;
use crate::lines::{Word, push_line};
use crate::origin::push_origin_lines;
use crate::pairs::push_pair_lines;
use crate::serial::push_serial_lines;
use crate::shift::push_shift_line;
use crate::stops::push_test_lines;
use crate::walks::{push_moved_lines, push_walk_lines};
use audit_model::buffers::Bytes;
use audit_model::memory::Memory;
use audit_model::outcome::Outcome;
use plan_core::job::Job;

/// Appends the report on outcomes in the order of their ids. These are all outcomes, or only those of the outlier walks
/// if the parallel test stops early. `stops` has a stopping place and the numerator and denominator of a p-value for
/// each ask. `serial` has the start plan's position in the serial test's run and a rank for each ask. Allocates
/// nothing, because `reserve` has allocated the capacity.
pub fn text(
    job: &Job,
    sorted: &[Outcome],
    stops: &[[u32; 3]],
    serial: Option<(u32, [u64; 4])>,
    out: &mut Bytes,
)
    requires outcomes { AreOutcomesOf job.now sorted.now }
    requires stops { AreStopsOf job.now stops.now }
    requires serial { IsSerialOf job.now serial }
    requires room { length (definition.report job.now sorted.now stops.now serial) ≤ out.old.spare }
    ensures items { out.new.items ≡ out.old.items ++ definition.report job.now sorted.now stops.now serial }
    ensures spare { out.new.spare + length (definition.report job.now sorted.now stops.now serial) ≡ out.old.spare }
{
    push_report(job, sorted, stops, serial, out).unwrap();
}

fn push_report(
    job: &Job,
    sorted: &[Outcome],
    stops: &[[u32; 3]],
    serial: Option<(u32, [u64; 4])>,
    out: &mut Bytes,
) -> Result<(), Memory>
    requires outcomes { AreOutcomesOf job.now sorted.now }
    requires stops { AreStopsOf job.now stops.now }
    requires serial { IsSerialOf job.now serial }
    ensures { AppendsText out.old out.new (definition.report job.now sorted.now stops.now serial) result }
{
    if job.setting().blind {
        push_blind_report(job, sorted, out)
    } else {
        push_open_report(job, sorted, stops, serial, out)
    }
}

/// Appends the report of a blind run, which has nothing of any score.
fn push_blind_report(job: &Job, sorted: &[Outcome], out: &mut Bytes) -> Result<(), Memory>
    requires { AreOutcomesOf job.now sorted.now }
    ensures { AppendsText out.old out.new (definition.blind_report job.now sorted.now) result }
{
    push_head(job, out)?;
    push_moved_lines(job, sorted, out)?;
    push_line(out, &[Word::Text("end")])
}

/// Appends the report with all findings.
fn push_open_report(
    job: &Job,
    sorted: &[Outcome],
    stops: &[[u32; 3]],
    serial: Option<(u32, [u64; 4])>,
    out: &mut Bytes,
) -> Result<(), Memory>
    requires outcomes { AreOutcomesOf job.now sorted.now }
    requires stops { AreStopsOf job.now stops.now }
    requires serial { IsSerialOf job.now serial }
    ensures { AppendsText out.old out.new (report_by_parts job.now sorted.now stops.now serial) result }
{
    push_head(job, out)?;
    push_walk_lines(job, sorted, out)?;
    push_pair_lines(job, sorted, out)?;
    push_shift_line(job, sorted, out)?;
    push_test_lines(job, sorted, stops, out)?;
    push_serial_lines(job, serial, out)?;
    push_line(out, &[Word::Text("end")])
}

/// Appends the lines that come before the results.
fn push_head(job: &Job, out: &mut Bytes) -> Result<(), Memory>
    ensures { AppendsText out.old out.new (head job.now) result }
{
    push_title_line(job, out)?;
    push_job_lines(job, out)?;
    push_stop_line(job, out)
}

/// Appends the lines of a job that a report and a trace share.
pub fn push_job_lines(job: &Job, out: &mut Bytes) -> Result<(), Memory>
    ensures { AppendsText out.old out.new (job_lines job.now) result }
{
    push_origin_lines(job, out)?;
    push_key_line(job, out)?;
    push_plan_lines(job, out)?;
    push_setting_line(job, out)
}

/// Appends the title line.
fn push_title_line(job: &Job, out: &mut Bytes) -> Result<(), Memory>
    ensures { AppendsText out.old out.new (definition.title_by job.now.setting.blind job.now.setting.shift) result }
{
    let setting = job.setting();
    push_line(out, &[Word::Text(title_of(setting.blind, setting.shift))])
}

/// Returns the title of a report. Version 2 is for reports with the line of the seats histogram.
fn title_of(blind: bool, shift: bool) -> &'static str
    ensures { definition.line (result.now ∷ []) ≡ definition.title_by blind shift }
{
    if blind {
        "walk-pilot 1"
    } else if shift {
        "district-audit 2"
    } else {
        "district-audit 1"
    }
}

/// Appends the line with the key.
fn push_key_line(job: &Job, out: &mut Bytes) -> Result<(), Memory>
    ensures { AppendsText out.old out.new (key_line job.now) result }
{
    push_line(out, &[Word::Text("key"), Word::Key(&job.setting().key)])
}

/// Appends the line with the counts and lengths of the trajectories.
fn push_setting_line(job: &Job, out: &mut Bytes) -> Result<(), Memory>
    ensures { AppendsText out.old out.new (definition.setting_line job.now) result }
{
    let setting = job.setting();
    push_line(
        out,
        &[
            Word::Text("walks"),
            Word::Number(u64::from(setting.walks)),
            Word::Text("steps"),
            Word::Number(u64::from(setting.steps)),
            Word::Text("ends"),
            Word::Number(u64::from(setting.ends)),
            Word::Text("hub-steps"),
            Word::Number(u64::from(setting.hub_steps)),
        ],
    )
}

/// Appends the line with the number of endpoints in the tail at which a test stops, if tests stop early.
fn push_stop_line(job: &Job, out: &mut Bytes) -> Result<(), Memory>
    ensures { AppendsText out.old out.new (definition.stop_line job.now.setting.stop) result }
{
    let enough = job.setting().stop;
    if enough == 0 {
        return Ok(());
    }
    push_line(out, &[Word::Text("stop"), Word::Number(u64::from(enough))])
}
