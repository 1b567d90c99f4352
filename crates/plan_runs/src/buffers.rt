//! The buffers of a run, filled with its initial outcomes and pending ids.

ghost use Rattle.std.specs.Prelude.{◌≡◌, ◌<◌, IfOk};
ghost use Rattle.audit_model.specs.Run.{total};
ghost use Rattle.plan_runs.specs.RunBuffers.{AreBuffersFor, IsStartOf};

use crate::todo::todo_of;
use audit_model::buffers::{Bytes, OutcomeList};
use audit_model::lists::UnitList;
use audit_model::memory::Memory;
use audit_model::outcome::Outcome;
use outcome_book::book::Book;
use plan_core::job::Job;
use std::alloc::Global;

/// The buffers of a run before its walks: the outcome table with the initial outcomes (`book`), the ids to walk
/// (`todo`), and the capacity for the outcomes by rising id (`sorted`) and for the report (`text`).
#[derive(Drop)]
pub struct RunBuffers {
    pub book: Book,
    pub todo: UnitList,
    pub sorted: OutcomeList,
    pub text: Bytes,
}

// Makes the outcome table of a run that starts with these outcomes.
fn book_of(alloc: Global, job: &Job, outcomes: &[Outcome]) -> Result<Book, Memory>
    requires { IsStartOf job.now outcomes.now }
    ensures total { IfOk result (λ b. b.total ≡ total job.now) }
    ensures outcomes { IfOk result (λ b. b.outcomes ≡ outcomes.now) }
{
    let mut book = Book::with_room(alloc, job.total())?;
    book.merge(outcomes);
    Ok(book)
}

/// Allocates the buffers of a run that starts with these outcomes. The only error is out of memory.
pub fn make_buffers(alloc: Global, job: &Job, outcomes: &[Outcome]) -> Result<RunBuffers, Memory>
    requires { IsStartOf job.now outcomes.now }
    ensures buffers { IfOk result (AreBuffersFor job.now) }
    ensures outcomes { IfOk result (λ r. r.book.outcomes ≡ outcomes.now) }
{
    let book = book_of(alloc, job, outcomes)?;
    let todo = todo_of(alloc, job, &book, job.setting().budget)?;
    let sorted = OutcomeList::with_room(alloc, job.total() as usize)?;
    let mut text = Bytes::new(alloc);
    report::reserve(alloc, job, &mut text)?;
    Ok(RunBuffers {
        book,
        todo,
        sorted,
        text,
    })
}
