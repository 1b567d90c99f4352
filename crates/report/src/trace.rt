//! The lines of a trace: the head, the line that starts a trajectory, and the line of a plan.

ghost use Rattle.std.specs.Prelude.{◌≡◌, ◌+◌, ◌<◌, ◌≤◌, ◌∷◌, ◌++◌, ℕ, List, length, decimal, flat_map, map, pos};
ghost use Rattle.std.specs.List.{slice_index_or};
ghost use Rattle.std.specs.Fmt.{signed_decimal};
ghost use Rattle.audit_model.specs.Plan.{IsLegal};
ghost use Rattle.audit_model.specs.Stopping.{placed_asks};
ghost use Rattle.audit_statement.specs.Along.{ask_values, own_steps};
ghost use Rattle.audit_statement.specs.Trace as definition;
ghost use Rattle.report.specs.Lines.{AppendsText, spaced};
ghost use Rattle.report.specs.Parts.{ask_at};

use crate::asks::{ask_count, ask_words};
use crate::audit::push_job_lines;
use crate::lines::{Word, push_line, push_next};
use crate::numbers::push_number;
use audit_model::buffers::Bytes;
use audit_model::memory::Memory;
use plan_core::job::Job;

/// An upper bound on the bytes of a plan's line without its units, and of the line that starts a trajectory.
const PLAN_ROOM: usize = 400;

/// The largest number of bytes for a unit and its district, with a space and a colon.
const UNIT_ROOM: usize = 10;

/// Appends the lines before the first trajectory.
pub fn push_trace_head(job: &Job, out: &mut Bytes) -> Result<(), Memory>
    ensures { AppendsText out.old out.new (definition.trace_head job.now) result }
{
    push_line(out, &[Word::Text("district-trace 1")])?;
    push_job_lines(job, out)?;
    push_ask_lines(job, out)
}

/// Returns an upper bound on the bytes of a line of a legal plan, whatever plan came before, and of the line that
/// starts a trajectory.
pub fn plan_line_room(job: &Job) -> usize
    ensures start { (id thin : ℕ) → length (definition.trace_id_line job.now id thin) ≤ result }
    ensures plan { (step moved : ℕ) (before plan : List ℕ) → IsLegal job.now plan → length (definition.plan_line step moved (ask_values job.now plan) before plan) ≤ result }
{
    PLAN_ROOM + job.units() as usize * UNIT_ROOM
}

/// Appends the line of a plan: the step, the moves so far, the numerators of the scores, and the units whose district
/// differs from that in the plan before. Allocates nothing.
pub fn plan_line(
    step: u32,
    moved: u32,
    values: &[i64],
    before: &[u32],
    plan: &[u32],
    out: &mut Bytes,
)
    requires units { length before.now ≡ length plan.now }
    requires room { length (definition.plan_line step moved values.now before.now plan.now) ≤ out.old.spare }
    ensures items { out.new.items ≡ out.old.items ++ definition.plan_line step moved values.now before.now plan.now }
    ensures spare { out.new.spare + length (definition.plan_line step moved values.now before.now plan.now) ≡ out.old.spare }
{
    push_plan_line(step, moved, values, before, plan, out).unwrap();
}

fn push_plan_line(
    step: u32,
    moved: u32,
    values: &[i64],
    before: &[u32],
    plan: &[u32],
    out: &mut Bytes,
) -> Result<(), Memory>
    requires { length before.now ≡ length plan.now }
    ensures { AppendsText out.old out.new (definition.plan_line step moved values.now before.now plan.now) result }
{
    push_number(out, u64::from(step))?;
    push_next(out, &Word::Number(u64::from(moved)))?;
    push_values(values, out)?;
    push_changes(before, plan, out)?;
    out.push(b'\n')
}

fn push_values(values: &[i64], out: &mut Bytes) -> Result<(), Memory>
    ensures { AppendsText out.old out.new (spaced (map signed_decimal values.now)) result }
{
    for place in 0..values.len() {
        push_value(values, place, out)?;
    }
    Ok(())
}

fn push_value(values: &[i64], place: usize, out: &mut Bytes) -> Result<(), Memory>
    requires { place < length values.now }
    ensures { AppendsText out.old out.new (32 ∷ signed_decimal (slice_index_or values.now place (pos 0))) result }
{
    push_next(out, &Word::Signed(values[place]))
}

/// Appends each unit whose district differs from that in the plan before, with its new district.
fn push_changes(before: &[u32], plan: &[u32], out: &mut Bytes) -> Result<(), Memory>
    requires { length before.now ≡ length plan.now }
    ensures { AppendsText out.old out.new (spaced (definition.change_words before.now plan.now)) result }
{
    for unit in 0..plan.len() {
        if plan[unit] != before[unit] {
            push_change(unit as u64, plan[unit], out)?;
        }
    }
    Ok(())
}

/// Appends a space, a unit, a colon and a district.
fn push_change(unit: u64, district: u32, out: &mut Bytes) -> Result<(), Memory>
    ensures { AppendsText out.old out.new (32 ∷ (decimal unit ++ 58 ∷ decimal district)) result }
{
    push_next(out, &Word::Number(unit))?;
    out.push(b':')?;
    push_number(out, u64::from(district))
}

fn push_ask_lines(job: &Job, out: &mut Bytes) -> Result<(), Memory>
    ensures { AppendsText out.old out.new (flat_map (definition.ask_line job.now) (placed_asks job.now)) result }
{
    for place in 0..ask_count(job) {
        push_ask_line(job, place, out)?;
    }
    Ok(())
}

/// Appends the line of the ask with the index `place`.
fn push_ask_line(job: &Job, place: usize, out: &mut Bytes) -> Result<(), Memory>
    requires { place < length job.now.setting.asks }
    ensures { AppendsText out.old out.new (definition.ask_line job.now (place, ask_at job.now place)) result }
{
    let words = ask_words(job, place);
    push_line(
        out,
        &[
            Word::Text("ask"),
            words.score,
            words.tail,
            Word::Text("start"),
            words.start,
        ],
    )
}

/// Appends the line that starts a trajectory: its id, its number of steps, and the number of steps between two traced
/// plans. Allocates nothing.
pub fn trajectory_line(job: &Job, id: u32, thin: u32, out: &mut Bytes)
    requires room { length (definition.trace_id_line job.now id thin) ≤ out.old.spare }
    ensures items { out.new.items ≡ out.old.items ++ definition.trace_id_line job.now id thin }
    ensures spare { out.new.spare + length (definition.trace_id_line job.now id thin) ≡ out.old.spare }
{
    push_trace_id_line(job, id, thin, out).unwrap();
}

fn push_trace_id_line(job: &Job, id: u32, thin: u32, out: &mut Bytes) -> Result<(), Memory>
    ensures { AppendsText out.old out.new (definition.trace_id_line job.now id thin) result }
{
    push_line(
        out,
        &[
            Word::Text("trace"),
            Word::Text("id"),
            Word::Number(u64::from(id)),
            Word::Text("steps"),
            Word::Number(u64::from(steps_of(job, id))),
            Word::Text("thin"),
            Word::Number(u64::from(thin)),
        ],
    )
}

/// Returns the number of steps of the trajectory with this id.
pub fn steps_of(job: &Job, id: u32) -> u32
    ensures { result ≡ own_steps job.now id }
{
    let setting = job.setting();
    if id < setting.walks {
        setting.steps
    } else {
        setting.hub_steps
    }
}
