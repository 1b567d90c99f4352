//! Majorities of a group, by district.

ghost use Rattle.std.specs.Prelude.{◌≡◌, ◌≢◌, ℕ, ◌+◌, ◌-◌, ◌*◌, ◌^◌, ◌<◌, ◌≤◌, cond, nat_lt, IfOk, length, replicate, slice_index, slice_set};
ghost use Rattle.audit_model.specs.Below.{above_all, count_below};
ghost use Rattle.audit_model.specs.Limits.{most_districts};
ghost use Rattle.audit_model.specs.Meets.{majorities};
ghost use Rattle.region_guard.specs.Standing.{IsFitStep, IsGroupTable, IsStep, IsTallied};

use crate::counting::{refill, shift};
use audit_model::lists::NumList;
use audit_model::memory::Memory;
use audit_model::rules::Group;
use std::alloc::Global;

/// Sums by district: the people of a group (`members`) and its base population (`whole`).
/// `majorities` is the number of districts in which the members are more than `share`, in
/// hundredths of a percent.
#[derive(Drop)]
pub struct GroupTally {
    members: NumList,
    whole: NumList,
    share: u32,
    majorities: u32,
}

impl GroupTally {
    /// Allocates sums of zero. Fails only if out of memory.
    pub(crate) fn zeros(alloc: Global, districts: usize, share: u32) -> Result<GroupTally, Memory>
        ensures { IfOk result (λ t. t ≡ record { members = replicate districts 0; whole = replicate districts 0; share = share; majorities = 0 }) }
    {
        Ok(GroupTally {
            members: NumList::zeros(alloc, districts)?,
            whole: NumList::zeros(alloc, districts)?,
            share,
            majorities: 0,
        })
    }

    /// Returns 1 if the group has a majority in a district, else 0.
    #[inline]
    fn majority_in(&self, district: u32) -> u32
        requires members { district < length self.now.members }
        requires whole { district < length self.now.whole }
        requires few { 10000 * slice_index self.now.members district < 2 ^ 64 }
        requires few_whole { self.now.share * slice_index self.now.whole district < 2 ^ 64 }
        ensures { result ≡ cond (nat_lt (self.now.share * slice_index self.now.whole district) (10000 * slice_index self.now.members district)) 1 0 }
    {
        let place = district as usize;
        majority_of(
            self.share,
            self.members.as_slice()[place],
            self.whole.as_slice()[place],
        )
    }

    /// Returns what [`Self::majority_in`] would return after a unit has left the district.
    #[inline]
    fn majority_without(&self, group: &Group, unit: u32, district: u32) -> u32
        requires members { district < length self.now.members }
        requires whole { district < length self.now.whole }
        requires unit_members { unit < length group.now.members }
        requires unit_whole { unit < length group.now.whole }
        requires some_members { slice_index group.now.members unit ≤ slice_index self.now.members district }
        requires some_whole { slice_index group.now.whole unit ≤ slice_index self.now.whole district }
        requires few { 10000 * slice_index self.now.members district < 2 ^ 64 }
        requires few_whole { self.now.share * (slice_index self.now.whole district - slice_index group.now.whole unit) < 2 ^ 64 }
        ensures { result ≡ cond (nat_lt (self.now.share * (slice_index self.now.whole district - slice_index group.now.whole unit))
            (10000 * (slice_index self.now.members district - slice_index group.now.members unit))) 1 0 }
    {
        let place = district as usize;
        let members = group.members.as_slice()[unit as usize];
        let whole = group.whole.as_slice()[unit as usize];
        majority_of(
            self.share,
            self.members.as_slice()[place] - members,
            self.whole.as_slice()[place] - whole,
        )
    }

    /// Returns what [`Self::majority_in`] would return after a unit has joined the district.
    #[inline]
    fn majority_beside(&self, group: &Group, unit: u32, district: u32) -> u32
        requires members { district < length self.now.members }
        requires whole { district < length self.now.whole }
        requires unit_members { unit < length group.now.members }
        requires unit_whole { unit < length group.now.whole }
        requires few { 10000 * (slice_index self.now.members district + slice_index group.now.members unit) < 2 ^ 64 }
        requires few_sum { slice_index self.now.whole district + slice_index group.now.whole unit < 2 ^ 64 }
        requires few_whole { self.now.share * (slice_index self.now.whole district + slice_index group.now.whole unit) < 2 ^ 64 }
        ensures { result ≡ cond (nat_lt (self.now.share * (slice_index self.now.whole district + slice_index group.now.whole unit))
            (10000 * (slice_index self.now.members district + slice_index group.now.members unit))) 1 0 }
    {
        let place = district as usize;
        let members = group.members.as_slice()[unit as usize];
        let whole = group.whole.as_slice()[unit as usize];
        majority_of(
            self.share,
            self.members.as_slice()[place] + members,
            self.whole.as_slice()[place] + whole,
        )
    }

    /// Returns the number of majorities after a move. `group` must not be empty.
    fn majorities_after(&self, group: &Group, after: &[u32], unit: u32, from: u32) -> u32
        requires table { IsGroupTable group.now (length self.now.members) self.now }
        requires step { IsStep group.now.members (length self.now.members) after.now unit from }
        requires stood { IsTallied group.now (length self.now.members) self.now (slice_set after.now unit from) }
        ensures { result ≡ majorities self.now.share group.now after.now }
    {
        let to = after[unit as usize];
        if to == from {
            return self.majorities;
        }
        let left = self.majority_without(group, unit, from);
        let entered = self.majority_beside(group, unit, to);
        self.majorities + left + entered - self.majority_in(from) - self.majority_in(to)
    }

    /// Returns the number of majorities after a move. `group` may be empty.
    #[inline]
    pub(crate) fn majorities_with(&self, group: &Group, after: &[u32], unit: u32, from: u32) -> u32
        requires table { IsGroupTable group.now (length self.now.members) self.now }
        requires step { IsFitStep group.now.members (length self.now.members) after.now unit from }
        requires stood { IsTallied group.now (length self.now.members) self.now (slice_set after.now unit from) }
        ensures { result ≡ majorities self.now.share group.now after.now }
    {
        if group.members.len() == 0 {
            return self.majorities;
        }
        self.majorities_after(group, after, unit, from)
    }

    /// Updates the sums after a move to another district. `group` must not be empty.
    fn follow(&mut self, group: &Group, after: &[u32], unit: u32, from: u32)
        requires table { IsGroupTable group.now (length self.old.members) self.old }
        requires step { IsStep group.now.members (length self.old.members) after.now unit from }
        requires stood { IsTallied group.now (length self.old.members) self.old (slice_set after.now unit from) }
        requires apart { slice_index after.now unit ≢ from }
        ensures table { IsGroupTable group.now (length self.old.members) self.new }
        ensures share { self.new.share ≡ self.old.share }
        ensures stands { IsTallied group.now (length self.old.members) self.new after.now }
    {
        let majorities = self.majorities_after(group, after, unit, from);
        let to = after[unit as usize];
        shift(&group.members, unit, from, to, &mut self.members);
        shift(&group.whole, unit, from, to, &mut self.whole);
        self.majorities = majorities;
    }

    /// Updates the sums after a move to another district. `group` may be empty.
    pub(crate) fn record_move(&mut self, group: &Group, after: &[u32], unit: u32, from: u32)
        requires table { IsGroupTable group.now (length self.old.members) self.old }
        requires step { IsFitStep group.now.members (length self.old.members) after.now unit from }
        requires stood { IsTallied group.now (length self.old.members) self.old (slice_set after.now unit from) }
        requires apart { slice_index after.now unit ≢ from }
        ensures table { IsGroupTable group.now (length self.old.members) self.new }
        ensures share { self.new.share ≡ self.old.share }
        ensures stands { IsTallied group.now (length self.old.members) self.new after.now }
    {
        if group.members.len() > 0 {
            self.follow(group, after, unit, from);
        }
    }

    /// Counts the majorities from the sums.
    fn count_majorities(&self) -> u32
        requires few { length self.now.members ≤ most_districts }
        requires places { length self.now.whole ≡ length self.now.members }
        requires small { (d : ℕ) → d < length self.now.members → 10000 * slice_index self.now.members d < 2 ^ 64 }
        requires small_whole { (d : ℕ) → d < length self.now.members → self.now.share * slice_index self.now.whole d < 2 ^ 64 }
        ensures { result ≡ count_below (length self.now.members)
            (λ d. nat_lt (self.now.share * slice_index self.now.whole d) (10000 * slice_index self.now.members d)) }
    {
        let mut majorities = 0;
        for district in 0..self.members.len() {
            majorities += self.majority_in(district as u32);
        }
        majorities
    }

    /// Recomputes the sums for a plan.
    pub(crate) fn reset(&mut self, group: &Group, plan: &[u32])
        requires table { IsGroupTable group.now (length self.old.members) self.old }
        requires entries { length group.now.members ≤ length plan.now }
        requires below { above_all plan.now ≤ length self.old.members }
        ensures table { IsGroupTable group.now (length self.old.members) self.new }
        ensures share { self.new.share ≡ self.old.share }
        ensures stands { IsTallied group.now (length self.old.members) self.new plan.now }
    {
        refill(&group.members, plan, &mut self.members);
        refill(&group.whole, plan, &mut self.whole);
        self.majorities = self.count_majorities();
    }
}

/// Returns 1 if the members are more than a share of the base population, else 0. The share is in
/// hundredths of a percent.
#[inline]
fn majority_of(share: u32, members: u64, whole: u64) -> u32
    requires few { 10000 * members < 2 ^ 64 }
    requires few_whole { share * whole < 2 ^ 64 }
    ensures { result ≡ cond (nat_lt (share * whole) (10000 * members)) 1 0 }
{
    if 10_000 * members > u64::from(share) * whole {
        1
    } else {
        0
    }
}
