//! The union of several folders' outcomes for a job.
//!
//! Folders are numbered in the order in which a gathering looks at them. The working folder has the number 0.

ghost use Rattle.std.specs.Prelude.{◌≡◌, ◌++◌, ◌∷◌, [], ◌<◌, ◌≤◌, ℕ, IfErr, IfNone, IfOk, IfSome, OnOk, count_by, get_or, length, map, not};
ghost use Rattle.audit_model.specs.Limits.{most_trajectories};
ghost use Rattle.audit_model.specs.Run.{has_id, total};
ghost use Rattle.ckpt_store.specs.Collected.{IsCovered, IsFirstOther, no_collected, passed_over};
ghost use Rattle.ckpt_store.specs.Findings.{Finds};
ghost use Rattle.ckpt_store.specs.Fit.{IsFitGiven};
ghost use Rattle.ckpt_store.specs.Fitting.{AreFit};
ghost use Rattle.ckpt_store.specs.Gives.{given_view};
ghost use Rattle.outcome_book.specs.Union.{AgreesWith, AreAgreed, AreById, IsFirstDifference, IsUnion};

use crate::finding::Finding;
use crate::folder_content::FolderContent;
use crate::gather::add;
use audit_model::buffers::OutcomeList;
use audit_model::lists::PlainList;
use audit_model::memory::Memory;
use audit_model::outcome::Outcome;
use outcome_book::agreeing::{agrees_with, outcome_with};
use outcome_book::gathering::Gathering;
use plan_core::job::Job;
use std::alloc::Global;
use std::marker::Model;

/// The union of several folders' outcomes for a job. `lists` has a list for each folder: the folder's outcomes
/// if they were added, else an empty list.
pub struct Collection {
    gathering: Gathering,
    lists: PlainList<OutcomeList>,
}

/// Drops the fields one by one. Written by hand so that a caller's proof has one call here, not one per field.
impl Drop for Collection {
    fn drop(self) {
        let Collection {
            gathering: _gathering,
            lists: _lists,
        } = self;
    }
}

impl Model for Collection {
    ghost use Rattle.std.specs.Prelude.{map};
    ghost use Rattle.ckpt_store.specs.Collected.{Collected};

    ghost Value = { Collected };

    ghost view = { λ c. record { total = c.gathering.total; outcomes = c.gathering.outcomes; lists = map (λ l. l.items) c.lists } };
}

impl Collection {
    /// Makes a collection of no folders, with capacity for an outcome of each id below `total`. Fails if there is no
    /// memory.
    pub fn with_room(alloc: Global, total: u32) -> Result<Collection, Memory>
        requires { total ≤ most_trajectories }
        ensures { IfOk result (λ c. c ≡ no_collected total) }
    {
        let gathering = Gathering::with_room(alloc, total)?;
        Ok(Collection {
            gathering,
            lists: PlainList::new(alloc),
        })
    }

    /// Adds the outcomes of the next folder, unless one of them contradicts the union. Returns the finding in the
    /// folder. `given` is the content of the folder, and `beside` is true if a slot of the folder is broken.
    ///
    /// # Errors
    ///
    /// Out of memory. The collection must not be used any more.
    pub fn add(
        &mut self,
        alloc: Global,
        job: &Job,
        given: FolderContent,
        beside: bool,
    ) -> Result<Finding, Memory>
        requires total { self.old.total ≡ total job.now }
        requires fit { IsFitGiven job.now given }
        requires covered { IsCovered self.old }
        ensures total { IfOk result (λ _. self.new.total ≡ self.old.total) }
        ensures covered { IfOk result (λ _. IsCovered self.new) }
        ensures finds { IfOk result (λ found. Finds self.old (given_view given) beside found self.new) }
    {
        match given {
            FolderContent::Outcomes(list) => self.add_list(alloc, job, list, beside),
            FolderContent::Nothing => self.leave_out(alloc, Finding::Nothing),
            FolderContent::OtherJob => self.leave_out(alloc, Finding::OtherJob),
            FolderContent::Damaged => self.leave_out(alloc, Finding::Damaged),
        }
    }

    /// Records that the next folder adds nothing. Fails if there is no memory.
    pub fn pass_over(&mut self, alloc: Global) -> Result<(), Memory>
        requires covered { IsCovered self.old }
        ensures covered { OnOk result (IsCovered self.new) }
        ensures same { OnOk result (self.new ≡ passed_over self.old) }
    {
        self.lists.push(OutcomeList::new(alloc))
    }

    /// Records that the next folder adds nothing, and returns the finding in it. Fails if there is no memory.
    pub(crate) fn leave_out(&mut self, alloc: Global, finding: Finding) -> Result<Finding, Memory>
        requires covered { IsCovered self.old }
        ensures total { OnOk result (self.new.total ≡ self.old.total) }
        ensures covered { OnOk result (IsCovered self.new) }
        ensures left { IfOk result (λ f. (f ≡ finding) × (self.new ≡ passed_over self.old)) }
    {
        self.pass_over(alloc)?;
        Ok(finding)
    }

    /// Adds the outcomes of the next folder, unless one of them contradicts the union.
    fn add_list(
        &mut self,
        alloc: Global,
        job: &Job,
        found: OutcomeList,
        beside: bool,
    ) -> Result<Finding, Memory>
        requires total { self.old.total ≡ total job.now }
        requires fit { AreFit job.now found.items }
        requires covered { IsCovered self.old }
        ensures total { IfOk result (λ _. self.new.total ≡ self.old.total) }
        ensures covered { IfOk result (λ _. IsCovered self.new) }
        ensures finds { IfOk result (λ what. Finds self.old (given_view (FolderContent.Outcomes found)) beside what self.new) }
    {
        match add(&mut self.gathering, job, found.as_slice()) {
            Ok(new) => {
                let count = found.len() as u32;
                self.lists.push(found)?;
                Ok(Finding::Added { count, new, beside })
            }
            Err(id) => {
                let other = self.other_of(job, found.as_slice(), id);
                drop(found);
                self.leave_out(alloc, Finding::Differs { id, other })
            }
        }
    }

    /// Returns the number of the first folder whose list contradicts the outcome that `found` has for `id`. `id` is the
    /// least id at which `found` contradicts the union.
    fn other_of(&self, job: &Job, found: &[Outcome], id: u32) -> usize
        requires fit { AreFit job.now found.now }
        requires covered { IsCovered self.now }
        requires first { IsFirstDifference self.now.outcomes found.now id }
        ensures { (first : IsFirstDifference self.now.outcomes found.now id) → IsFirstOther self.now.lists first.other result }
    {
        match outcome_with(found, id) {
            Some(outcome) => match first_other(self.lists.as_slice(), &outcome) {
                Some(number) => number,
                // Unreachable: an outcome that contradicts the union contradicts an outcome of some folder.
                None => 0,
            },
            // Unreachable: `found` has an outcome with this id.
            None => 0,
        }
    }

    /// Returns a copy of the union, by rising id. Fails if there is no memory.
    pub fn to_list(&self, alloc: Global) -> Result<OutcomeList, Memory>
        ensures items { IfOk result (λ l. l.items ≡ self.now.outcomes) }
        ensures rising { IfOk result (λ l. AreById l.items) }
        ensures few { IfOk result (λ l. length l.items ≤ most_trajectories) }
    {
        self.gathering.to_list(alloc)
    }
}

// Returns the index of the first list that contradicts the outcome.
fn first_other(lists: &[OutcomeList], outcome: &Outcome) -> Option<usize>
    ensures some { IfSome result (λ number. IsFirstOther (map (λ l. l.items) lists.now) outcome.now number) }
    ensures none { IfNone result ((k : ℕ) → k < length lists.now → AgreesWith (get_or (map (λ l. l.items) lists.now) k []) outcome.now) }
{
    for number in 0..lists.len() {
        if !agrees_with(lists[number].as_slice(), outcome) {
            return Some(number);
        }
    }
    None
}
