//! The buffer for the next line of a trace.

ghost use Rattle.std.specs.Prelude.{◌≡◌, ◌≤◌, ◌+◌, length, IfOk};
ghost use Rattle.audit_statement.specs.Along.{ask_values};
ghost use Rattle.audit_statement.specs.Trace as definition;
ghost use Rattle.plan_runs.specs.LineBuffers.{IsLineBuffer};

use audit_model::buffers::Bytes;
use audit_model::lists::UnitList;
use audit_model::memory::Memory;
use flip_guard::judge::Judge;
use plan_core::job::Job;
use report::trace::{plan_line, plan_line_room, trajectory_line};
use std::alloc::Global;
use walker::walker::Walker;

/// The previous plan, and a buffer for the next line with capacity for any legal plan.
#[derive(Drop)]
pub struct LineBuffer {
    pub before: UnitList,
    pub line: Bytes,
}

/// Allocates a line buffer whose previous plan is the start plan. Fails only if out of memory.
pub fn make_line_buffer(alloc: Global, job: &Job) -> Result<LineBuffer, Memory>
    ensures { IfOk result (λ p. IsLineBuffer job.now p) }
{
    let line = Bytes::with_room(alloc, plan_line_room(job))?;
    let before = job.start().copy()?;
    Ok(LineBuffer { before, line })
}

/// Copies a plan over another.
fn keep(before: &mut UnitList, plan: &[u32])
    requires { length before.old ≡ length plan.now }
    ensures { before.new ≡ plan.now }
{
    before.as_mut_slice().copy_from_slice(plan);
}

/// Fills the buffer with the line that starts a trajectory. The line of the trajectory's first plan will list the
/// differences from the start plan. Allocates nothing.
pub fn start_trajectory(job: &Job, id: u32, thin: u32, line_buffer: &mut LineBuffer)
    requires { IsLineBuffer job.now line_buffer.old }
    ensures line_buffer { IsLineBuffer job.now line_buffer.new }
    ensures line { line_buffer.new.line.items ≡ definition.trace_id_line job.now id thin }
    ensures before { line_buffer.new.before ≡ job.now.start }
{
    line_buffer.line.clear();
    trajectory_line(job, id, thin, &mut line_buffer.line);
    keep(&mut line_buffer.before, job.start().as_slice());
}

/// Fills the buffer with the line of the walker's current plan, after this many steps and moves. Allocates nothing.
pub fn put_plan<J: Judge>(
    job: &Job,
    walker: &mut Walker<J>,
    step: u32,
    moved: u32,
    line_buffer: &mut LineBuffer,
)
    requires made { walker.old.job ≡ job.now }
    requires line_buffer { IsLineBuffer job.now line_buffer.old }
    ensures line_buffer { IsLineBuffer job.now line_buffer.new }
    ensures line { line_buffer.new.line.items ≡ definition.plan_line step moved (ask_values job.now walker.old.plan) line_buffer.old.before walker.old.plan }
    ensures before { line_buffer.new.before ≡ walker.old.plan }
    ensures same { walker.new ≡ walker.old }
{
    let values = walker.values(job);
    let asks = job.setting().asks.len();
    let plan = walker.plan().as_slice();
    line_buffer.line.clear();
    plan_line(
        step,
        moved,
        &values[..asks],
        line_buffer.before.as_slice(),
        plan,
        &mut line_buffer.line,
    );
    keep(&mut line_buffer.before, plan);
}
