//! The ids that a run walks.

ghost use Rattle.std.specs.Prelude.{◌≡◌, ◌≤◌, IfOk};
ghost use Rattle.audit_model.specs.JobOf.{IsJob};
ghost use Rattle.audit_model.specs.Run.{total, is_in_part, run_ids};
ghost use Rattle.claim_counter.specs.Walks.{IsTodo};

use audit_model::lists::UnitList;
use audit_model::memory::Memory;
use audit_model::setting::Setting;
use outcome_book::book::Book;
use plan_core::job::Job;
use std::alloc::Global;

// Returns true if an id lies in the part that the run walks.
fn lies_in_part(setting: &Setting, id: u32) -> bool
    requires { 1 ≤ setting.now.parts }
    ensures { result ≡ is_in_part setting.now.parts setting.now.part id }
{
    id % setting.parts == setting.part
}

/// Returns the pending ids of the part that the run walks, by rising id, at most `budget` of them. An id is pending if
/// `book` has no outcome of it. The only error is out of memory.
pub fn todo_of(alloc: Global, job: &Job, book: &Book, budget: u32) -> Result<UnitList, Memory>
    requires sound { IsJob job.now }
    ensures ids { IfOk result (λ ids. ids ≡ run_ids job.now book.now.outcomes budget) }
    ensures todo { IfOk result (IsTodo job.now book.now.outcomes) }
{
    let total = job.total();
    let in_part = (total / job.setting().parts) as usize + 1;
    let mut ids = UnitList::with_room(alloc, in_part.min(total.min(budget) as usize))?;
    for id in 0..total {
        if ids.len() < budget as usize && !book.has(id) && lies_in_part(job.setting(), id) {
            ids.push(id)?;
        }
    }
    Ok(ids)
}
