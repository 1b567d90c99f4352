//! The votes of the plan that was scored last, with what its scores need.
//!
//! One step of a trajectory changes at most two districts. So each sum over districts is kept, and
//! changed by the terms of the districts whose votes changed.

ghost use Rattle.std.specs.Prelude.{◌≡◌, ℕ, ◌+◌, ◌-◌, ◌*◌, ◌^◌, ◌<◌, ◌≤◌, ◌⊎◌, ◌-ℤ◌, [], IsFalse, cond, length, nat_lt, pos, slice_index, slice_set};
ghost use Rattle.audit_model.specs.Score as definition;
ghost use Rattle.scores.specs.Votes.{AreVotes};
ghost use Rattle.scores.specs.Known.{AgreesAt, IsListed, margin, of_known, seat};

use crate::median::find_median;
use crate::{difference, efficiency_gap, seats, share, total, write_shares};
use audit_model::outcome::SumsView;
use std::marker::Model;

/// The votes and the share of each district, the sums over all districts, and the places of the two
/// middle shares. Entries past the last district are unspecified.
#[derive(Drop)]
pub struct LastPlan {
    districts: usize,
    first: [u64; 200],
    second: [u64; 200],
    shares: [u64; 200],
    total: u64,
    seats: u32,
    gap: i64,
    low: usize,
    high: usize,
}

impl Model for LastPlan {
    ghost use Rattle.scores.specs.Known.{KnownVotes};

    ghost Value = { KnownVotes };

    ghost use Rattle.scores.specs.LastPlan.{IsScored, known};

    ghost view = { known };

    ghost invariant = { IsScored };
}

impl LastPlan {
    /// Makes a plan with no districts.
    pub fn new() -> LastPlan {
        LastPlan {
            districts: 0,
            first: [0; 200],
            second: [0; 200],
            shares: [0; 200],
            total: 0,
            seats: 0,
            gap: 0,
            low: 0,
            high: 0,
        }
    }

    /// Replaces the plan by the one that has these sums. Divides only for the districts whose votes
    /// changed. `changed` is scratch memory.
    pub fn update(&mut self, sums: &SumsView, changed: &mut [u8; 200])
        requires votes { AreVotes sums.now.first sums.now.second }
        ensures first { self.new.first ≡ sums.now.first }
        ensures second { self.new.second ≡ sums.now.second }
    {
        if self.districts == sums.first.len() {
            let first = &self.first[..self.districts];
            let second = &self.second[..self.districts];
            let count = find_changes(first, second, sums, changed);
            self.replace_all(sums, changed, count);
        } else {
            self.fill(sums);
        }
    }

    /// Returns the number of districts that the first party wins.
    #[inline]
    pub fn seats(&self) -> u32
        ensures { result ≡ definition.seats (of_known self.now) }
    {
        self.seats
    }

    /// Returns twice the difference of wasted votes.
    #[inline]
    pub fn gap(&self) -> i64
        ensures { result ≡ definition.efficiency_gap (of_known self.now) }
    {
        self.gap
    }

    /// Returns the median share minus the mean share, in billionths, times twice the number of
    /// districts.
    pub fn mean_median(&mut self) -> i64
        requires { 1 ≤ length self.old.first }
        ensures value { result ≡ definition.mean_median (definition.shares (of_known self.old)) }
        ensures same { self.new ≡ self.old }
    {
        let shares = &self.shares[..self.districts];
        let twice = find_median(shares, &mut self.low, &mut self.high);
        difference(self.districts as u64, twice, self.total)
    }

    // Computes the plan with these sums anew.
    fn fill(&mut self, sums: &SumsView)
        requires votes { AreVotes sums.now.first sums.now.second }
        ensures first { self.new.first ≡ sums.now.first }
        ensures second { self.new.second ≡ sums.now.second }
    {
        let count = sums.first.len();
        self.first[..count].copy_from_slice(sums.first.as_slice());
        self.second[..count].copy_from_slice(sums.second.as_slice());
        write_shares(sums, &mut self.shares[..count]);
        self.total = total(&self.shares[..count]);
        self.seats = seats(sums);
        self.gap = efficiency_gap(sums);
        self.low = 0;
        self.high = 0;
        self.districts = count;
    }

    // Replaces the votes of the listed districts, which are the first `count` of `changed`.
    fn replace_all(&mut self, sums: &SumsView, changed: &[u8; 200], count: usize)
        requires votes { AreVotes sums.now.first sums.now.second }
        requires first { length self.old.first ≡ length sums.now.first }
        requires second { length self.old.second ≡ length sums.now.first }
        requires few { count ≤ 200 }
        requires inside { (place : ℕ) → place < count → slice_index changed.now place < length sums.now.first }
        requires listed { (d : ℕ) → d < length sums.now.first → AgreesAt self.old.first self.old.second sums.now d ⊎ IsListed changed.now 0 count d }
        ensures first { self.new.first ≡ sums.now.first }
        ensures second { self.new.second ≡ sums.now.second }
    {
        let first = sums.first.as_slice();
        let second = sums.second.as_slice();
        for place in 0..count {
            let district = usize::from(changed[place]);
            self.replace(district, first[district], second[district]);
        }
    }

    // Replaces the votes of a district.
    fn replace(&mut self, district: usize, first: u64, second: u64)
        requires district { district < length self.old.first }
        requires small_first { first ≤ 10 ^ 14 }
        requires small_second { second ≤ 10 ^ 14 }
        ensures first { self.new.first ≡ slice_set self.old.first district first }
        ensures second { self.new.second ≡ slice_set self.old.second district second }
    {
        let billionths = share(first, second);
        self.total = self.total + billionths - self.shares[district];
        let old_first = self.first[district];
        let old_second = self.second[district];
        self.seats = self.seats + seat(first, second) - seat(old_first, old_second);
        self.gap = self.gap + margin(first, second) - margin(old_first, old_second);
        self.first[district] = first;
        self.second[district] = second;
        self.shares[district] = billionths;
    }
}

// Lists the districts whose votes are not those of the sums, from the index 0 of `changed`. Returns
// their number. Writes each district, and counts it only if its votes differ: a branch would be
// mispredicted at nearly each change.
fn find_changes(first: &[u64], second: &[u64], sums: &SumsView, changed: &mut [u8; 200]) -> usize
    requires votes { AreVotes sums.now.first sums.now.second }
    requires first { length first.now ≡ length sums.now.first }
    requires second { length second.now ≡ length sums.now.first }
    ensures few { result ≤ 200 }
    ensures inside { (place : ℕ) → place < result → slice_index changed.new place < length sums.now.first }
    ensures listed { (d : ℕ) → d < length sums.now.first → AgreesAt first.now second.now sums.now d ⊎ IsListed changed.new 0 result d }
{
    let new_first = sums.first.as_slice();
    let new_second = sums.second.as_slice();
    let mut count = 0;
    for district in 0..first.len() {
        changed[count] = district as u8;
        let differs = (first[district] != new_first[district])
            | (second[district] != new_second[district]);
        count += usize::from(differs);
    }
    count
}

// Returns 1 if the first party wins a district with these votes, else 0.
#[inline]
fn seat(first: u64, second: u64) -> u32
    ensures { result ≡ seat first second }
{
    u32::from(first > second)
}

// Returns the second party's wasted votes minus the first party's in a district with these votes,
// doubled. Both parts are chosen apart, so that no branch is needed.
#[inline]
fn margin(first: u64, second: u64) -> i64
    requires first { first ≤ 10 ^ 14 }
    requires second { second ≤ 10 ^ 14 }
    ensures { result ≡ margin first second }
{
    let wins = first > second;
    let lost = if wins { first } else { 3 * first };
    let gained = if wins { 3 * second } else { second };
    gained as i64 - lost as i64
}
