//! The lines of the parallel test, over all endpoints or with an early stop.

ghost use Rattle.std.specs.Prelude.{◌<◌, length, zip, flat_map};
ghost use Rattle.report.specs.Lines.{AppendsText};
ghost use Rattle.report.specs.Outcomes.{AreOutcomesOf, AreStopsOf, AreStops, IsStopOf};
ghost use Rattle.report.specs.Parts.{ask_at};
ghost use Rattle.audit_statement.specs.Report as definition;

use crate::asks::{ask_count, ask_words};
use crate::ends::push_ends_lines;
use crate::lines::{Word, push_line};
use audit_model::buffers::Bytes;
use audit_model::memory::Memory;
use audit_model::outcome::Outcome;
use outlier_tests::p_value;
use plan_core::job::Job;

/// Appends a line for each ask, if there are endpoint trajectories.
pub fn push_test_lines(
    job: &Job,
    sorted: &[Outcome],
    stops: &[[u32; 3]],
    out: &mut Bytes,
) -> Result<(), Memory>
    requires outcomes { AreOutcomesOf job.now sorted.now }
    requires stops { AreStopsOf job.now stops.now }
    ensures { AppendsText out.old out.new (definition.test_lines job.now.setting.stop job.now sorted.now stops.now) result }
{
    if job.setting().stop == 0 {
        return push_ends_lines(job, sorted, out);
    }
    push_stops(job, stops, out)
}

fn push_stops(job: &Job, stops: &[[u32; 3]], out: &mut Bytes) -> Result<(), Memory>
    requires { AreStops job.now stops.now }
    ensures { AppendsText out.old out.new (flat_map (definition.stopped_line job.now) (zip job.now.setting.asks stops.now)) result }
{
    for k in 0..ask_count(job) {
        push_stopped_line(job, k, stops[k], out)?;
    }
    Ok(())
}

/// Appends the line of the ask with the index `k`. `stop` has the stopping place and the numerator
/// and denominator of the p-value.
fn push_stopped_line(job: &Job, k: usize, stop: [u32; 3], out: &mut Bytes) -> Result<(), Memory>
    requires asked { k < length job.now.setting.asks }
    requires stop { IsStopOf job.now.setting.ends stop }
    ensures { AppendsText out.old out.new (definition.stopped_line job.now (ask_at job.now k, stop)) result }
{
    let [place, top, of] = stop;
    let words = ask_words(job, k);
    push_line(
        out,
        &[
            Word::Text("stop"),
            words.score,
            words.tail,
            Word::Text("start"),
            words.start,
            Word::Text("place"),
            Word::Number(u64::from(place)),
            Word::Text("value"),
            Word::Fraction(i64::from(top), u64::from(of)),
            Word::Text("p"),
            Word::Billionths(p_value(u64::from(top), u64::from(of))),
        ],
    )
}
