//! The sums of a plan, updated as units move.

ghost use Rattle.std.specs.Prelude.{◌≡◌, ◌<◌, length, slice_index, slice_set, IfOk};
ghost use Rattle.audit_model.specs.Plan.{cut_edges};
ghost use Rattle.district_sums.specs.Following.{AreInputs, StandsFor, StandsForSome, count_near, districts_in};

use crate::lengths::length_after;
use crate::mates::scan_mates;
use crate::scratch::refill_view;
use crate::shifting::{cut_with, shift_counts};
use audit_model::lists::NumList;
use audit_model::memory::Memory;
use audit_model::outcome::{Counts, SumsView};
use dual_graph::graph::Graph;
use dual_graph::member::Member;
use std::alloc::Global;
use std::marker::Model;

/// The sums of a plan's districts: population, votes, cut edges and their length.
#[derive(Drop)]
pub struct Sums {
    view: SumsView,
}

impl Model for Sums {
    ghost use Rattle.district_sums.specs.Following.{Following};

    ghost Value = { Following };

    ghost view = { λ s. record { view = s.view } };
}

impl Sums {
    /// Computes the sums of a plan. Fails if there is no memory.
    pub fn of(
        alloc: Global,
        graph: &Graph,
        counts: &Counts,
        districts: u32,
        plan: &[u32],
    ) -> Result<Sums, Memory>
        requires inputs { AreInputs graph.now counts.now districts plan.now }
        ensures districts { IfOk result (λ s. districts_in s ≡ districts) }
        ensures stands { IfOk result (λ s. StandsFor graph.now counts.now plan.now s) }
    {
        let mut view = SumsView {
            population: NumList::zeros(alloc, districts as usize)?,
            first: NumList::zeros(alloc, districts as usize)?,
            second: NumList::zeros(alloc, districts as usize)?,
            cut: 0,
            length: 0,
        };
        refill_view(graph, counts, plan, &mut view);
        Ok(Sums { view })
    }

    /// Moves a unit to a district, both in the plan and in the sums.
    ///
    /// Scans the unit's neighbors once, and a second time if edges have lengths. Allocates nothing.
    pub fn shift(
        &mut self,
        graph: &Graph,
        counts: &Counts,
        plan: &mut [u32],
        unit: u32,
        district: u32,
    )
        requires inputs { AreInputs graph.now counts.now (districts_in self.old) plan.old }
        requires stands { StandsFor graph.now counts.now plan.old self.old }
        requires unit { unit < graph.now.units }
        requires district { district < districts_in self.old }
        ensures plan { plan.new ≡ slice_set plan.old unit district }
        ensures districts { districts_in self.new ≡ districts_in self.old }
        ensures stands { StandsFor graph.now counts.now plan.new self.new }
    {
        let member = graph.member(plan, unit);
        let mates = scan_mates(member, plan[unit as usize], district);
        self.follow(member, counts, district, mates);
        plan[unit as usize] = district;
    }

    /// Updates the sums for the move of a unit to `district`; the caller then changes the plan. `mates` are the numbers
    /// of the unit's neighbors in its own district and in the new one.
    ///
    /// Scans the unit's neighbors if edges have lengths. Allocates nothing.
    #[inline(always)]
    pub fn follow(&mut self, member: Member, counts: &Counts, district: u32, mates: (u64, u64))
        requires inputs { AreInputs member.graph.now counts.now (districts_in self.old) member.plan.now }
        requires stands { StandsFor member.graph.now counts.now member.plan.now self.old }
        requires district { district < districts_in self.old }
        requires home_mates { mates.0 ≡ count_near member.graph.now member.plan.now member.unit (slice_index member.plan.now member.unit) }
        requires other_mates { mates.1 ≡ count_near member.graph.now member.plan.now member.unit district }
        ensures districts { districts_in self.new ≡ districts_in self.old }
        ensures stands { StandsFor member.entry.graph.now counts.now (slice_set member.entry.plan.now member.entry.unit district) self.new }
    {
        if member.plan[member.unit as usize] == district {
            return;
        }
        self.view.length = length_after(member, &counts.lengths, self.view.length, district);
        self.view.cut = cut_with(member, self.view.cut, district, mates);
        shift_counts(counts, member, district, &mut self.view);
    }

    /// Returns the number of cut edges after the unit moves to `district`. `mates` are the numbers of the unit's
    /// neighbors in its own district and in the new one.
    #[inline]
    pub fn cut_after(&self, member: Member, district: u32, mates: (u64, u64)) -> u32
        requires cut { self.now.view.cut ≡ cut_edges member.graph.now member.plan.now }
        requires home_mates { mates.0 ≡ count_near member.graph.now member.plan.now member.unit (slice_index member.plan.now member.unit) }
        requires other_mates { mates.1 ≡ count_near member.graph.now member.plan.now member.unit district }
        ensures { result ≡ cut_edges member.entry.graph.now (slice_set member.entry.plan.now member.entry.unit district) }
    {
        cut_with(member, self.view.cut, district, mates)
    }

    /// Overwrites the number of cut edges and no other sum. A step calls this to ask a constraint about a proposed
    /// move: the number is that after the move, and the other sums are those before.
    #[inline]
    pub fn put_cut(&mut self, cut: u32)
        ensures { self.new ≡ record self.old { view = record self.old.view { cut = cut } } }
    {
        self.view.cut = cut;
    }

    /// Computes the sums of another plan in place of the present ones. Allocates nothing.
    pub fn refill(&mut self, graph: &Graph, counts: &Counts, plan: &[u32])
        requires inputs { AreInputs graph.now counts.now (districts_in self.old) plan.now }
        requires stands { StandsForSome graph.now counts.now self.old }
        ensures districts { districts_in self.new ≡ districts_in self.old }
        ensures stands { StandsFor graph.now counts.now plan.now self.new }
    {
        refill_view(graph, counts, plan, &mut self.view);
    }

    /// Returns all sums.
    #[inline]
    pub fn view(&self) -> &SumsView
        ensures { result.now ≡ self.now.view }
    {
        &self.view
    }
}
