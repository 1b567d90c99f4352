//! Trajectories whose plans are written while they are walked.

ghost use Rattle.std.specs.Prelude.{◌≡◌, ◌+◌, ◌-◌, ◌++◌, ◌<◌, ◌≤◌, ℕ, List, length, IfOk, Ok};
ghost use Rattle.audit_model.specs.Limits.{most_trajectories};
ghost use Rattle.audit_model.specs.Rounded.{quotient_up};
ghost use Rattle.audit_model.specs.State.{Stream};
ghost use Rattle.audit_model.specs.Trajectory.{hub as hub_of};
ghost use Rattle.audit_statement.specs.Along.{ask_values};
ghost use Rattle.audit_statement.specs.Draw.{draw};
ghost use Rattle.audit_statement.specs.Trace as definition;
ghost use Rattle.flip_kernel.specs.Judged.{IsJudgeFor};
ghost use Rattle.plan_runs.specs.LineBuffers.{IsLineBuffer};
ghost use Rattle.plan_runs.specs.Tracers.{IsCurrentAt, AreTraceBuffersFor, IsTracer, LetsLines, TracesJob, all_lines, end_line, lines_of_range, text_of_range};
ghost use Rattle.report.specs.AddedText.{WritesAllOf};
ghost use Rattle.audit_statement.specs.DueText.{LetsText};
ghost use Rattle.walker.specs.Walked.{IsUnderWay};

use crate::line_buffer::{LineBuffer, make_line_buffer, put_plan, start_trajectory};
use audit_io::sink::Sink;
use audit_io::source::Failed;
use audit_model::buffers::Bytes;
use audit_model::lists::UnitList;
use audit_model::memory::Memory;
use flip_guard::judge::Judge;
use plan_core::job::Job;
use report::ended::Ended;
use report::trace::{push_trace_head, steps_of};
use report::writing::write_all;
use std::alloc::Global;
use walker::walker::Walker;
use walker::way::Way;

/// The ids of the first and the last trajectory of a trace, and the number of steps between two traced plans.
#[derive(Clone, Copy)]
pub struct TraceRange {
    pub first: u32,
    pub last: u32,
    pub thin: u32,
}

/// One trajectory of a trace, and the number of steps between two traced plans.
#[derive(Clone, Copy)]
pub struct Traced {
    pub id: u32,
    pub thin: u32,
}

/// A walker, and the next line to write.
#[derive(Drop)]
pub struct Tracer<J: Judge> {
    pub walker: Walker<J>,
    pub line_buffer: LineBuffer,
}

/// All memory of a trace, allocated before its first write.
#[derive(Drop)]
pub struct TraceBuffers<J: Judge> {
    pub tracer: Tracer<J>,
    pub hub: UnitList,
    pub head: Bytes,
}

/// Returns the lines before the first trajectory.
fn make_head(alloc: Global, job: &Job) -> Result<Bytes, Memory>
    ensures { IfOk result (λ h. h.items ≡ definition.trace_head job.now) }
{
    let mut head = Bytes::new(alloc);
    push_trace_head(job, &mut head)?;
    Ok(head)
}

fn make_tracer<J: Judge>(alloc: Global, job: &Job, judge: J) -> Result<Tracer<J>, Memory>
    requires judge { IsJudgeFor job.now (J.judging judge) }
    ensures { IfOk result (λ t. IsTracer job.now t) }
{
    let walker = Walker::new(alloc, job, judge)?;
    let line_buffer = make_line_buffer(alloc, job)?;
    Ok(Tracer {
        walker,
        line_buffer,
    })
}

fn make_hub(job: &Job) -> Result<UnitList, Memory>
    ensures { IfOk result (λ h. length h ≡ job.now.graph.units) }
{
    job.start().copy()
}

fn make_buffers<J: Judge>(alloc: Global, job: &Job, judge: J) -> Result<TraceBuffers<J>, Memory>
    requires judge { IsJudgeFor job.now (J.judging judge) }
    ensures { IfOk result (λ r. AreTraceBuffersFor job.now r) }
{
    let tracer = make_tracer(alloc, job, judge)?;
    let hub = make_hub(job)?;
    let head = make_head(alloc, job)?;
    Ok(TraceBuffers { tracer, hub, head })
}

/// Writes the line of the walker's current plan, after this many steps and moves.
fn write_line<J: Judge, K: Sink>(
    job: &Job,
    walker: &mut Walker<J>,
    step: u32,
    moved: u32,
    line_buffer: &mut LineBuffer,
    out: &mut K,
) -> Result<(), Failed>
    requires made { walker.old.job ≡ job.now }
    requires line_buffer { IsLineBuffer job.now line_buffer.old }
    requires text { LetsText K.lets (K.state out.old) (definition.plan_line step moved (ask_values job.now walker.old.plan) line_buffer.old.before walker.old.plan) }
    ensures line_buffer { IsLineBuffer job.now line_buffer.new }
    ensures before { line_buffer.new.before ≡ walker.old.plan }
    ensures same { walker.new ≡ walker.old }
    ensures written { (id : ℕ) → IsCurrentAt job.now id step walker.old moved
        → WritesAllOf (K.state out.old) (K.state out.new) (definition.line_at job.now (draw job.now.setting.key) id line_buffer.old.before step) result }
{
    put_plan(job, walker, step, moved, line_buffer);
    write_all(out, line_buffer.line.as_slice())
}

/// Returns the number of strides of `thin` steps that make `steps` steps. The last stride may be shorter.
fn strides_of(steps: u32, thin: u32) -> u64
    requires { 0 < thin }
    ensures { result ≡ quotient_up steps thin }
{
    (u64::from(steps) + u64::from(thin) - 1) / u64::from(thin)
}

/// Walks a trajectory in strides of `thin` steps, and writes a line after each stride. The caller has written the line
/// of the first plan.
fn write_strides<J: Judge, K: Sink>(
    job: &Job,
    traced: Traced,
    tracer: &mut Tracer<J>,
    way: &mut Way,
    out: &mut K,
) -> Result<(), Failed>
    requires thin { 0 < traced.thin }
    requires line_buffer { IsLineBuffer job.now tracer.old.line_buffer }
    requires way { IsUnderWay job.now traced.id 0 tracer.old.walker way.old }
    requires before { tracer.old.line_buffer.before ≡ tracer.old.walker.plan }
    requires text { LetsLines K.lets (K.state out.old) job.now traced }
    ensures tracer { IsTracer job.now tracer.new }
    ensures written { (before : Stream) → WritesAllOf before (K.state out.old) (definition.first_lines job.now (draw job.now.setting.key) traced.id traced.thin 1) (Ok tt)
        → WritesAllOf before (K.state out.new) (all_lines job.now traced) result }
{
    // This call only tells the proof that the job is within its limits.
    let _units = job.units();
    let steps = steps_of(job, traced.id);
    let mut step = 0;
    for place in 0..strides_of(steps, traced.thin) {
        let stride = traced.thin.min(steps - step);
        tracer.walker.go_on(job, way, stride);
        step += stride;
        match write_line(
            job,
            &mut tracer.walker,
            step,
            way.move_count(),
            &mut tracer.line_buffer,
            out,
        ) {
            Ok(()) => {}
            Err(_) => return Err(Failed),
        }
    }
    Ok(())
}

/// Writes the lines of a trajectory's plans, from its first plan on.
fn write_lines<J: Judge, K: Sink>(
    job: &Job,
    traced: Traced,
    tracer: &mut Tracer<J>,
    way: &mut Way,
    out: &mut K,
) -> Result<(), Failed>
    requires thin { 0 < traced.thin }
    requires line_buffer { IsLineBuffer job.now tracer.old.line_buffer }
    requires way { IsUnderWay job.now traced.id 0 tracer.old.walker way.old }
    requires before { tracer.old.line_buffer.before ≡ job.now.start }
    requires text { LetsText K.lets (K.state out.old) (all_lines job.now traced) }
    ensures tracer { IsTracer job.now tracer.new }
    ensures written { WritesAllOf (K.state out.old) (K.state out.new) (all_lines job.now traced) result }
{
    match write_line(
        job,
        &mut tracer.walker,
        0,
        way.move_count(),
        &mut tracer.line_buffer,
        out,
    ) {
        Err(_) => Err(Failed),
        Ok(()) => write_strides(job, traced, tracer, way, out),
    }
}

fn write_trajectory<J: Judge, K: Sink>(
    job: &Job,
    traced: Traced,
    tracer: &mut Tracer<J>,
    hub: &[u32],
    out: &mut K,
) -> Result<(), Failed>
    requires thin { 0 < traced.thin }
    requires tracer { IsTracer job.now tracer.old }
    requires hub { job.now.setting.walks ≤ traced.id → hub.now ≡ hub_of job.now (draw job.now.setting.key) }
    requires text { LetsText K.lets (K.state out.old) (definition.trajectory_lines job.now (draw job.now.setting.key) traced.thin traced.id) }
    ensures tracer { IsTracer job.now tracer.new }
    ensures written { WritesAllOf (K.state out.old) (K.state out.new) (definition.trajectory_lines job.now (draw job.now.setting.key) traced.thin traced.id) result }
{
    let mut way = tracer.walker.set_out(job, hub, traced.id);
    start_trajectory(job, traced.id, traced.thin, &mut tracer.line_buffer);
    match write_all(out, tracer.line_buffer.line.as_slice()) {
        Err(_) => Err(Failed),
        Ok(()) => write_lines(job, traced, tracer, &mut way, out),
    }
}

/// Walks the trajectories of the range by rising id, and writes their lines.
fn write_range<J: Judge, K: Sink>(
    job: &Job,
    range: TraceRange,
    tracer: &mut Tracer<J>,
    hub: &[u32],
    out: &mut K,
) -> Result<(), Failed>
    requires thin { 0 < range.thin }
    requires order { range.first ≤ range.last }
    requires few { range.last < most_trajectories }
    requires tracer { IsTracer job.now tracer.old }
    requires hub { job.now.setting.walks ≤ range.last → hub.now ≡ hub_of job.now (draw job.now.setting.key) }
    requires text { LetsText K.lets (K.state out.old) (lines_of_range job.now range (range.last + 1 - range.first)) }
    ensures { WritesAllOf (K.state out.old) (K.state out.new) (lines_of_range job.now range (range.last + 1 - range.first)) result }
{
    for place in 0..range.last + 1 - range.first {
        let traced = Traced {
            id: range.first + place,
            thin: range.thin,
        };
        match write_trajectory(job, traced, tracer, hub, out) {
            Ok(()) => {}
            Err(_) => return Err(Failed),
        }
    }
    Ok(())
}

/// Computes the hub once for the whole range, if the range has an endpoint trajectory.
fn find_hub<J: Judge>(job: &Job, last: u32, walker: &mut Walker<J>, hub: &mut UnitList)
    requires made { walker.old.job ≡ job.now }
    requires units { length hub.old ≡ job.now.graph.units }
    ensures made { walker.new.job ≡ job.now }
    ensures hub { job.now.setting.walks ≤ last → hub.new ≡ hub_of job.now (draw job.now.setting.key) }
{
    if job.setting().walks <= last {
        walker.hub_into(job, hub.as_mut_slice());
    }
}

/// Walks the range, and writes its lines and the line `end`.
fn write_body<J: Judge, K: Sink>(
    job: &Job,
    range: TraceRange,
    buffers: &mut TraceBuffers<J>,
    out: &mut K,
) -> Result<(), Failed>
    requires thin { 0 < range.thin }
    requires order { range.first ≤ range.last }
    requires few { range.last < most_trajectories }
    requires buffers { AreTraceBuffersFor job.now buffers.old }
    requires text { LetsText K.lets (K.state out.old) (lines_of_range job.now range (range.last + 1 - range.first) ++ end_line) }
    ensures { WritesAllOf (K.state out.old) (K.state out.new) (lines_of_range job.now range (range.last + 1 - range.first) ++ end_line) result }
{
    find_hub(
        job,
        range.last,
        &mut buffers.tracer.walker,
        &mut buffers.hub,
    );
    match write_range(job, range, &mut buffers.tracer, buffers.hub.as_slice(), out) {
        Err(_) => Err(Failed),
        Ok(()) => write_all(out, b"end\n"),
    }
}

/// Walks the range and writes its trace, each line as soon as its plan is reached. Allocates nothing.
fn write_trace<J: Judge, K: Sink>(
    job: &Job,
    range: TraceRange,
    buffers: &mut TraceBuffers<J>,
    out: &mut K,
) -> Result<(), Failed>
    requires thin { 0 < range.thin }
    requires order { range.first ≤ range.last }
    requires few { range.last < most_trajectories }
    requires buffers { AreTraceBuffersFor job.now buffers.old }
    requires text { LetsText K.lets (K.state out.old) (definition.trace_text job.now (draw job.now.setting.key) range.first range.last range.thin) }
    ensures { WritesAllOf (K.state out.old) (K.state out.new) (definition.trace_text job.now (draw job.now.setting.key) range.first range.last range.thin) result }
{
    match write_all(out, buffers.head.as_slice()) {
        Err(_) => Err(Failed),
        Ok(()) => write_body(job, range, buffers, out),
    }
}

/// Walks a range of trajectories with this constraint and writes their plans while it walks. Allocates all memory
/// before the first write. Returns the reason why the call ends.
pub fn trace<J: Judge, K: Sink>(
    alloc: Global,
    job: &Job,
    judge: J,
    range: TraceRange,
    out: &mut K,
) -> Ended
    requires judge { IsJudgeFor job.now (J.judging judge) }
    requires thin { 0 < range.thin }
    requires order { range.first ≤ range.last }
    requires few { range.last < most_trajectories }
    requires text { LetsText K.lets (K.state out.old) (text_of_range job.now range) }
    ensures { TracesJob job.now range (K.state out.old) (K.state out.new) result }
{
    match make_buffers(alloc, job, judge) {
        Err(_) => Ended::NoMemory,
        Ok(mut buffers) => match write_trace(job, range, &mut buffers, out) {
            Ok(()) => Ended::Done,
            Err(_) => Ended::WriteFault,
        },
    }
}
