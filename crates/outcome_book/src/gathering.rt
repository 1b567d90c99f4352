//! The union of the outcomes that several runs of one job have found.
//!
//! Two outcomes of one id *agree* if they are equal, or if they differ only in that one has no
//! histogram. Otherwise they *contradict* each other.

ghost use Rattle.std.specs.Prelude.{◌≡◌, ◌∷◌, [], ◌≤◌, ◌+◌, ◌<◌, ◌++◌, All, IfErr, IfOk, IfNone, IfSome, OnErr, OnOk, Some, length, replicate, count_by, not, slice_index_or};
ghost use Rattle.std.specs.Bool.{Decides};
ghost use Rattle.audit_model.specs.Limits.{most_trajectories};
ghost use Rattle.audit_model.specs.Run.{has_id};
ghost use Rattle.audit_model.specs.Trajectory.{without_histogram};
ghost use Rattle.outcome_book.specs.Placed.{those_there};
ghost use Rattle.outcome_book.specs.Union.{Agree, AgreeIf, AgreesWith, AreAgreed, AreById, HoldsBoth, IsFirstDifference, IsUnion, MayBeAdded, fuller, fuller_if};

use audit_model::buffers::OutcomeList;
use audit_model::memory::Memory;
use audit_model::outcome::Outcome;
use std::alloc::Global;
use std::marker::Model;

/// A union of outcomes with ids below a total, to which the outcomes of further runs can be added.
#[derive(Drop)]
pub struct Gathering {
    places: Vec<Option<Outcome>>,
}

impl Model for Gathering {
    ghost use Rattle.std.specs.Prelude.{◌≤◌, length};
    ghost use Rattle.audit_model.specs.Limits.{most_trajectories};
    ghost use Rattle.outcome_book.specs.Gathered.{Gathered};
    ghost use Rattle.outcome_book.specs.Placed.{ArePlacedById, those_there};

    ghost Value = { Gathered };

    ghost view = { λ g. record { total = length g.places.items; outcomes = those_there g.places.items } };

    ghost invariant = { λ g. ArePlacedById 0 g.places.items × (length g.places.items ≤ most_trajectories) };
}

impl Gathering {
    /// Allocates an empty union for the ids below `total`, with capacity for an outcome of each.
    /// Fails if there is no memory.
    pub fn with_room(alloc: Global, total: u32) -> Result<Gathering, Memory>
        requires { total ≤ most_trajectories }
        ensures total { IfOk result (λ g. g.total ≡ total) }
        ensures empty { IfOk result (λ g. g.outcomes ≡ []) }
    {
        Ok(Gathering {
            places: vec![in alloc; None; total as usize]?,
        })
    }

    /// Returns the id of the first outcome in `found` that contradicts the union. `found` has
    /// rising ids, so this id is the least.
    pub fn difference(&self, found: &[Outcome]) -> Option<u32>
        requires { MayBeAdded self.now.total found.now }
        ensures none { IfNone result (AreAgreed self.now.outcomes found.now) }
        ensures some { IfSome result (IsFirstDifference self.now.outcomes found.now) }
    {
        for outcome in found {
            if !self.agrees(outcome) {
                return Some(outcome.id);
            }
        }
        None
    }

    /// Returns true if the union has no outcome that contradicts this one.
    fn agrees(&self, outcome: &Outcome) -> bool
        requires { outcome.now.id < self.now.total }
        ensures { Decides result (AgreesWith self.now.outcomes outcome.now) }
    {
        match &self.places[outcome.id as usize] {
            Some(existing) => agree(existing, outcome),
            None => true,
        }
    }

    /// Adds outcomes to the union, and returns the number of them whose ids were not in the union.
    ///
    /// # Errors
    ///
    /// The least id whose outcome contradicts the union. In this case nothing is added.
    pub fn merge(&mut self, found: &[Outcome]) -> Result<u32, u32>
        requires { MayBeAdded self.old.total found.now }
        ensures total { self.new.total ≡ self.old.total }
        ensures union { OnOk result (IsUnion self.old.outcomes found.now self.new.outcomes) }
        ensures agreed { OnOk result (AreAgreed self.old.outcomes found.now) }
        ensures count { IfOk result (λ n. n ≡ count_by (λ o. not (has_id self.old.outcomes o.id)) found.now) }
        ensures differs { IfErr result (IsFirstDifference self.old.outcomes found.now) }
        ensures kept { OnErr result (self.new ≡ self.old) }
    {
        match self.difference(found) {
            Some(id) => Err(id),
            None => {
                let count = self.count_new(found);
                self.add(found);
                Ok(count)
            }
        }
    }

    /// Returns the number of outcomes whose ids are not in the union.
    pub fn count_new(&self, found: &[Outcome]) -> u32
        requires { MayBeAdded self.now.total found.now }
        ensures { result ≡ count_by (λ o. not (has_id self.now.outcomes o.id)) found.now }
    {
        // Reading a field makes the type's invariant known to the prover.
        let _ = &self.places;
        let mut count = 0;
        for outcome in found {
            count = self.count_with(count, outcome);
        }
        count
    }

    /// Returns the count, plus one if the outcome's id is not in the union.
    fn count_with(&self, count: u32, outcome: &Outcome) -> u32
        requires below { outcome.now.id < self.now.total }
        requires few { count < most_trajectories }
        ensures { result ≡ count + count_by (λ o. not (has_id self.now.outcomes o.id)) (outcome.now ∷ []) }
    {
        match self.places[outcome.id as usize] {
            Some(_) => count,
            None => count + 1,
        }
    }

    /// Adds outcomes that do not contradict the union. If two outcomes of one id differ, the one
    /// with a histogram is kept.
    pub fn add(&mut self, found: &[Outcome])
        requires { MayBeAdded self.old.total found.now }
        ensures total { self.new.total ≡ self.old.total }
        ensures union { IsUnion self.old.outcomes found.now self.new.outcomes }
    {
        for outcome in found {
            self.put(outcome);
        }
        // Reading a field makes the type's invariant known to the prover.
        let _ = &self.places;
    }

    /// Adds one outcome that does not contradict the union.
    fn put(&mut self, outcome: &Outcome)
        requires { outcome.now.id < self.old.total }
        ensures total { self.new.total ≡ self.old.total }
        ensures both { HoldsBoth self.old.outcomes (outcome.now ∷ []) self.new.outcomes }
    {
        let place = outcome.id as usize;
        let kept = combine(&self.places[place], outcome);
        self.places[place] = Some(kept);
    }

    /// Copies the outcomes to a new list, by rising id. Fails if there is no memory.
    pub fn to_list(&self, alloc: Global) -> Result<OutcomeList, Memory>
        ensures items { IfOk result (λ l. l.items ≡ self.now.outcomes) }
        ensures rising { IfOk result (λ l. AreById l.items) }
        ensures few { IfOk result (λ l. length l.items ≤ self.now.total) }
        ensures small { IfOk result (λ l. length l.items ≤ most_trajectories) }
    {
        let mut out = OutcomeList::with_room(alloc, self.places.len())?;
        self.copy_into(&mut out);
        Ok(out)
    }

    /// Replaces the contents of `out` by the outcomes, by rising id. Allocates nothing.
    pub fn copy_into(&self, out: &mut OutcomeList)
        requires { length self.now.outcomes ≤ length out.old.items + out.old.spare }
        ensures outcomes { out.new.items ≡ self.now.outcomes }
        ensures rising { AreById out.new.items }
        ensures few { length out.new.items ≤ self.now.total }
        ensures room { length out.new.items + out.new.spare ≡ length out.old.items + out.old.spare }
    {
        out.clear();
        append_all(out, &self.places);
    }
}

// Returns the outcome with an empty histogram.
fn without_histogram(outcome: &Outcome) -> Outcome
    ensures { result ≡ without_histogram outcome.now }
{
    Outcome {
        bins: [0; 9],
        ..*outcome
    }
}

fn is_same(one: &Outcome, other: &Outcome) -> bool
    ensures { Decides result (one.now ≡ other.now) }
{
    *one == *other
}

// Returns true if the first outcome is the second with an empty histogram.
fn is_without_histogram_of(outcome: &Outcome, other: &Outcome) -> bool
    ensures { Decides result (outcome.now ≡ without_histogram other.now) }
{
    is_same(outcome, &without_histogram(other))
}

/// Returns true if both outcomes are equal, or differ only in that one has no histogram.
pub fn agree(one: &Outcome, other: &Outcome) -> bool
    ensures { Decides result (Agree one.now other.now) }
{
    if is_same(one, other) {
        return true;
    }
    if is_without_histogram_of(one, other) {
        return true;
    }
    is_without_histogram_of(other, one)
}

// Returns the first outcome if it has a histogram, else the second.
fn fuller(one: &Outcome, other: &Outcome) -> Outcome
    ensures { result ≡ fuller one.now other.now }
{
    if one.bins == [0; 9] { *other } else { *one }
}

// Returns the outcome that the union keeps for an id: the fuller of the existing one, if any, and
// the new one.
fn combine(existing: &Option<Outcome>, outcome: &Outcome) -> Outcome
    ensures { Some result ≡ fuller_if existing.now (Some outcome.now) }
{
    match existing {
        Some(existing) => fuller(existing, outcome),
        None => *outcome,
    }
}

// Appends the outcomes of all ids that have one. The list has spare capacity for them.
fn append_all(out: &mut OutcomeList, places: &[Option<Outcome>])
    requires { length (those_there places.now) ≤ out.old.spare }
    ensures items { out.new.items ≡ out.old.items ++ those_there places.now }
    ensures room { length out.new.items + out.new.spare ≡ length out.old.items + out.old.spare }
{
    for place in places {
        append_if(out, place);
    }
}

// Appends the outcome of an id, if the id has one. The list has spare capacity for it.
fn append_if(out: &mut OutcomeList, place: &Option<Outcome>)
    requires { length (those_there (place.now ∷ [])) ≤ out.old.spare }
    ensures items { out.new.items ≡ out.old.items ++ those_there (place.now ∷ []) }
    ensures spare { length out.new.items + out.new.spare ≡ length out.old.items + out.old.spare }
{
    if let Some(outcome) = place {
        // The push cannot fail: the list has spare capacity.
        let _ = out.push(*outcome);
    }
}
