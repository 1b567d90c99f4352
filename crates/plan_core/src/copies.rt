//! Copies of the parts of a job.

ghost use Rattle.std.specs.Prelude.{◌≡◌, IfOk};
ghost use Rattle.audit_model.specs.Job.{home_of};

use audit_model::lists::UnitList;
use audit_model::memory::Memory;
use audit_model::outcome::Counts;
use dual_graph::graph::Graph;

/// Returns a copy of the start plan, whose districts the frozen units keep. Without a column of frozen
/// units the list is empty.
pub fn home_of(frozen: &UnitList, start: &UnitList) -> Result<UnitList, Memory>
    ensures { IfOk result (λ home. home ≡ home_of frozen.now start.now) }
{
    if frozen.len() == 0 {
        frozen.copy()
    } else {
        start.copy()
    }
}

/// Copies a graph and its counts. Fails if there is no memory.
pub fn copy_map(graph: &Graph, counts: &Counts) -> Result<(Graph, Counts), Memory>
    ensures { IfOk result (λ m. (m.0 ≡ graph.now) × (m.1 ≡ counts.now)) }
{
    let graph = graph.copy()?;
    match counts.copy() {
        Ok(counts) => Ok((graph, counts)),
        Err(_) => {
            drop(graph);
            Err(Memory)
        }
    }
}
