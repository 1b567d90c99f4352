//! The text of a check.

ghost use Rattle.std.specs.Prelude.{◌≡◌, ◌++◌, OnOk, OnErr};
ghost use Rattle.report.specs.Lines.{AppendsText};
ghost use Rattle.report.specs.Parts.{plan_lines};
ghost use Rattle.audit_statement.specs.Report as definition;

use crate::lines::{Word, push_line};
use crate::origin::push_origin_lines;
use crate::rules::push_rule_lines;
use crate::weight::push_weight_line;
use audit_model::buffers::Bytes;
use audit_model::memory::Memory;
use plan_core::job::Job;
use std::alloc::Global;

/// Appends the text of a check. If out of memory, `out` is unchanged.
pub fn check_text(alloc: Global, job: &Job, out: &mut Bytes) -> Result<(), Memory>
    ensures ok { OnOk result (out.new.items ≡ out.old.items ++ definition.check_text job.now) }
    ensures err { OnErr result (out.new ≡ out.old) }
{
    let mut text = Bytes::new(alloc);
    push_check(job, &mut text)?;
    out.append(text.as_slice())
}

/// Appends the lines of a check.
fn push_check(job: &Job, out: &mut Bytes) -> Result<(), Memory>
    ensures { AppendsText out.old out.new (definition.check_text job.now) result }
{
    push_line(out, &[Word::Text("plan-check 1")])?;
    push_origin_lines(job, out)?;
    push_plan_lines(job, out)?;
    push_line(out, &[Word::Text("end")])
}

/// Appends the lines of the graph, of the population, of the rules and of the weight.
pub(crate) fn push_plan_lines(job: &Job, out: &mut Bytes) -> Result<(), Memory>
    ensures { AppendsText out.old out.new (plan_lines job.now) result }
{
    push_graph_line(job, out)?;
    push_population_line(job, out)?;
    push_rule_lines(job, out)?;
    push_weight_line(job, out)
}

/// Appends the line with the numbers of units, edges and districts.
pub fn push_graph_line(job: &Job, out: &mut Bytes) -> Result<(), Memory>
    ensures { AppendsText out.old out.new (definition.graph_line job.now) result }
{
    push_line(
        out,
        &[
            Word::Text("units"),
            Word::Number(u64::from(job.units())),
            Word::Text("edges"),
            Word::Number(u64::from(job.graph().edges())),
            Word::Text("districts"),
            Word::Number(u64::from(job.districts())),
        ],
    )
}

/// Appends the line with the total population, the slack, and the bounds on a district's population.
pub fn push_population_line(job: &Job, out: &mut Bytes) -> Result<(), Memory>
    ensures { AppendsText out.old out.new (definition.population_line job.now) result }
{
    let (low, high) = job.limits();
    push_line(
        out,
        &[
            Word::Text("population"),
            Word::Number(job.population()),
            Word::Text("slack"),
            Word::Number(u64::from(job.setting().slack)),
            Word::Text("low"),
            Word::Number(low),
            Word::Text("high"),
            Word::Number(high),
        ],
    )
}
