//! The command `trace`: its constraint, and the walk that writes the plans.

ghost use Rattle.std.specs.Prelude.{◌≡◌, ◌<◌, ◌≤◌, []};
ghost use Rattle.audit_laws.specs.Calls.{Finishes};
ghost use Rattle.audit_model.specs.JobOf.{IsJob};
ghost use Rattle.audit_model.specs.Limits.{most_trajectories};
ghost use Rattle.audit_model.specs.State.{KeeperState};
ghost use Rattle.audit_model.specs.declared.setting.Command.TheVariants.{Trace};
ghost use Rattle.audit_statement.specs.DueText.{LetsText};
ghost use Rattle.plan_runs.specs.Tracers.{TracesJob, text_of_range};
ghost use Rattle.audit_statement.specs.Draw.{draw};
ghost use Rattle.audit_statement.specs.Trace as definition;

use audit_io::sink::Sink;
use audit_model::outcome::SumsView;
use plan_core::job::Job;
use plan_runs::judges::guards;
use plan_runs::{TraceRange, trace};
use region_guard::judges::region_guards;
use report::ended::Ended;
use std::alloc::Global;

fn range_of(job: &Job) -> TraceRange
    ensures value { result ≡ record { first = job.now.setting.first_id; last = job.now.setting.last_id; thin = job.now.setting.thin } }
    ensures sound { IsJob job.now }
{
    let setting = job.setting();
    TraceRange {
        first: setting.first_id,
        last: setting.last_id,
        thin: setting.thin,
    }
}

// Writes the trace of a job without regions, required majorities or frozen units. The constraint on cut edges is enough
// for it.
fn trace_cut<K: Sink>(alloc: Global, job: &Job, range: TraceRange, out: &mut K) -> Ended
    requires thin { 0 < range.thin }
    requires order { range.first ≤ range.last }
    requires few { range.last < most_trajectories }
    requires no_regions { job.now.regions ≡ [] }
    requires no_group { job.now.setting.group_districts ≡ 0 }
    requires no_frozen { job.now.frozen ≡ [] }
    requires text { LetsText K.lets (K.state out.old) (text_of_range job.now range) }
    ensures { TracesJob job.now range (K.state out.old) (K.state out.new) result }
{
    let rules = job.rules();
    let max_cut = rules.max_cut;
    match guards(alloc, move |sums: &SumsView| sums.cut <= max_cut, rules, 1) {
        Ok(mut judges) => trace(alloc, job, judges.remove(0), range, out),
        Err(_) => Ended::NoMemory,
    }
}

// Writes the trace of a job with the constraint of all rules.
fn trace_ruled<K: Sink>(alloc: Global, job: &Job, range: TraceRange, out: &mut K) -> Ended
    requires thin { 0 < range.thin }
    requires order { range.first ≤ range.last }
    requires few { range.last < most_trajectories }
    requires text { LetsText K.lets (K.state out.old) (text_of_range job.now range) }
    ensures { TracesJob job.now range (K.state out.old) (K.state out.new) result }
{
    let rules = job.rules();
    let cut_limit = rules.max_cut;
    let split_limit = rules.max_split;
    match region_guards(
        alloc,
        move |sums: &SumsView| sums.cut <= cut_limit,
        move |width: u32| width <= split_limit,
        rules,
        job.districts(),
        1,
    ) {
        Ok(mut judges) => trace(alloc, job, judges.remove(0), range, out),
        Err(_) => Ended::NoMemory,
    }
}

// Allocates all memory of a trace, then walks this range and writes its plans while walking.
fn trace_range<K: Sink>(alloc: Global, job: &Job, range: TraceRange, out: &mut K) -> Ended
    requires thin { 0 < range.thin }
    requires order { range.first ≤ range.last }
    requires few { range.last < most_trajectories }
    requires text { LetsText K.lets (K.state out.old) (text_of_range job.now range) }
    ensures { TracesJob job.now range (K.state out.old) (K.state out.new) result }
{
    if job.rules().regions.len() == 0
        && job.rules().group_districts == 0
        && job.rules().frozen.len() == 0
    {
        trace_cut(alloc, job, range, out)
    } else {
        trace_ruled(alloc, job, range, out)
    }
}

/// Allocates all memory of a trace, then walks the range that the arguments name and writes its plans while walking.
pub fn trace_job<K: Sink>(alloc: Global, job: &Job, out: &mut K) -> Ended
    requires trace { job.now.setting.command ≡ Trace }
    requires text { LetsText K.lets (K.state out.old) (definition.trace_text job.now (draw job.now.setting.key) job.now.setting.first_id job.now.setting.last_id job.now.setting.thin) }
    ensures { (keeper : KeeperState) → Finishes job.now (K.state out.old) (K.state out.new) keeper keeper result }
{
    trace_range(alloc, job, range_of(job), out)
}
