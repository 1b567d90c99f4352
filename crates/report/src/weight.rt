//! The line of the weight on cut edges.

ghost use Rattle.std.specs.Prelude.{◌≡◌, ◌*◌, ◌+◌, ◌^◌, ◌<◌, ◌≤◌};
ghost use Rattle.audit_model.specs.Weight as model;
ghost use Rattle.report.specs.Lines.{AppendsText};
ghost use Rattle.audit_statement.specs.Report as definition;

use crate::lines::{Word, push_line};
use audit_model::buffers::Bytes;
use audit_model::memory::Memory;
use plan_core::job::Job;

/// Appends the line with the weight on cut edges and the largest change of cut edges in one step, if there is a weight.
pub fn push_weight_line(job: &Job, out: &mut Bytes) -> Result<(), Memory>
    ensures { AppendsText out.old out.new (definition.weight_line job.now) result }
{
    let weight = job.setting().cut_weight;
    if weight >= 256 {
        return Ok(());
    }
    let pairs = u64::from(job.units()) * u64::from(job.districts());
    push_line(
        out,
        &[
            Word::Text("cut-weight"),
            Word::Quarters(weight),
            Word::Text("of"),
            Word::Text("64"),
            Word::Text("pieces"),
            Word::Number(u64::from(largest_change(pairs))),
        ],
    )
}

/// Returns the largest change of the number of cut edges in one step.
fn largest_change(pairs: u64) -> u32
    requires { pairs ≤ 20000000 }
    ensures { result ≡ model.largest_change pairs }
{
    let mut most = 0;
    for m in 0..9u32 {
        if u128::from(pairs) * 64u128.pow(m + 2) <= 1u128 << 64 {
            most += 1;
        }
    }
    most
}
