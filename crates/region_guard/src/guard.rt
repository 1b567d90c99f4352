//! A constraint by two stored closures and running counts.

ghost use Rattle.std.specs.Prelude.{◌≡◌, ◌↔◌, ℕ, ◌+◌, ◌<◌, ◌≤◌, ◌^◌, ◌≢◌, IsTrue, cond, not, nat_le, Bool, IfOk, length, slice_index, slice_set, replicate, false, All};
ghost use Rattle.std.specs.Fn.{FnReturnsAt};
ghost use Rattle.audit_model.specs.declared.outcome.SumsView.{SumsView as Sums};
ghost use Rattle.audit_model.specs.Below.{count_below};
ghost use Rattle.audit_model.specs.Limits.{IsGroup, most_districts, most_regions, most_units};
ghost use Rattle.audit_model.specs.Meets.{keeps_frozen, split_of};
ghost use Rattle.flip_guard.specs.Limiting.{LimitNothing};
ghost use Rattle.region_guard.specs.Standing.{AreSplits, IsFitStep, IsGroupTable, IsStanding, IsStep, IsTable, is_fitting, permits_splits, totals_from, totals_of};

use crate::counting::{
    count_in_all, count_split, count_units, count_widths, move_unit, row_count, set_width,
};
use crate::majority::GroupTally;
use crate::splits::{SplitCounts, Totals};
use audit_model::memory::Memory;
use audit_model::outcome::SumsView;
use audit_model::rules::Rules;
use flip_guard::guard::Guard;
use flip_guard::judge::Judge;
use std::alloc::Global;

/// A constraint for all rules.
///
/// `cut` tests the cut edges, and `test` the number of districts of a region. Running counts
/// describe the current plan: how its regions are split, and in how many districts the group has a
/// majority. `kept` is true if the frozen units of the current plan are in their districts.
/// Regions, group and frozen units are optional.
#[derive(Drop)]
pub struct RegionGuard<F, T> {
    cut: Guard<F>,
    test: T,
    rules: Rules,
    districts: u32,
    splits: SplitCounts,
    tally: GroupTally,
    kept: bool,
}

impl<F: Fn(&SumsView) -> bool + Drop, T: Fn(u32) -> bool + Drop> RegionGuard<F, T> {
    /// Returns true if a region may lie in `width` districts.
    fn passes(&self, width: u32) -> bool
        requires callable { T.IsAlwaysCallable self.now.test }
        requires answers { (width : ℕ) (answer : Bool) → width < 2 ^ 32 → T.post self.now.test width answer → answer ≡ nat_le width self.now.rules.max_split }
        ensures { result ≡ nat_le width self.now.rules.max_split }
    {
        (self.test)(width)
    }

    /// Returns the number of regions that fail the test after one region has changed from `width`
    /// to `wide` districts.
    fn count_broken_after(&self, width: u32, wide: u32) -> u32
        requires callable { T.IsAlwaysCallable self.now.test }
        requires answers { (width : ℕ) (answer : Bool) → width < 2 ^ 32 → T.post self.now.test width answer → answer ≡ nat_le width self.now.rules.max_split }
        requires some { nat_le width self.now.rules.max_split ≡ false → 1 ≤ self.now.splits.totals.broken }
        requires few { self.now.splits.totals.broken ≤ most_regions }
        ensures { result + cond (not (nat_le width self.now.rules.max_split)) 1 0 ≡
            self.now.splits.totals.broken + cond (not (nat_le wide self.now.rules.max_split)) 1 0 }
    {
        let mut broken = self.splits.totals.broken;
        if !self.passes(wide) {
            broken += 1;
        }
        if !self.passes(width) {
            broken -= 1;
        }
        broken
    }

    /// Counts the regions that fail the test.
    fn count_broken(&self) -> u32
        requires callable { T.IsAlwaysCallable self.now.test }
        requires answers { (width : ℕ) (answer : Bool) → width < 2 ^ 32 → T.post self.now.test width answer → answer ≡ nat_le width self.now.rules.max_split }
        requires few { length self.now.splits.widths ≤ most_regions }
        ensures { result ≡ count_below (length self.now.splits.widths) (λ q. not (nat_le (slice_index self.now.splits.widths q) self.now.rules.max_split)) }
    {
        let widths = self.splits.widths.as_slice();
        let mut broken = 0;
        for region in 0..widths.len() {
            if !self.passes(widths[region]) {
                broken += 1;
            }
        }
        broken
    }

    /// Computes the totals from the number of districts of each region.
    fn count_totals(&self) -> Totals
        requires callable { T.IsAlwaysCallable self.now.test }
        requires answers { (width : ℕ) (answer : Bool) → width < 2 ^ 32 → T.post self.now.test width answer → answer ≡ nat_le width self.now.rules.max_split }
        requires few { length self.now.splits.widths ≤ most_regions }
        requires few_each { (q : ℕ) → q < length self.now.splits.widths → slice_index self.now.splits.widths q ≤ most_districts }
        ensures { result ≡ totals_from (length self.now.splits.widths) self.now.rules.max_split (λ q. slice_index self.now.splits.widths q) }
    {
        let widths = self.splits.widths.as_slice();
        Totals {
            broken: self.count_broken(),
            in_all: count_in_all(widths),
            split: count_split(widths),
        }
    }

    fn region_of(&self, unit: u32) -> usize
        requires unit { unit < length self.now.rules.regions }
        ensures { result ≡ slice_index self.now.rules.regions unit }
    {
        self.rules.regions.as_slice()[unit as usize] as usize
    }

    /// Returns the number of districts of the moved unit's region after the move.
    fn split_with(&self, after: &[u32], unit: u32, from: u32) -> u32
        requires table { IsTable self.now.rules.regions self.now.districts self.now.splits }
        requires step { IsStep self.now.rules.regions self.now.districts after.now unit from }
        requires stood { AreSplits self.now.rules.regions self.now.rules.max_split self.now.districts self.now.splits (slice_set after.now unit from) }
        requires apart { slice_index after.now unit ≢ from }
        ensures { result ≡ split_of self.now.rules.regions after.now (slice_index self.now.rules.regions unit) }
    {
        let region = self.region_of(unit);
        self.splits
            .wide_after(self.districts, region, from, after[unit as usize])
    }

    /// Returns the totals after a move.
    fn totals_with(&self, after: &[u32], unit: u32, from: u32) -> Totals
        requires callable { T.IsAlwaysCallable self.now.test }
        requires answers { (width : ℕ) (answer : Bool) → width < 2 ^ 32 → T.post self.now.test width answer → answer ≡ nat_le width self.now.rules.max_split }
        requires table { IsTable self.now.rules.regions self.now.districts self.now.splits }
        requires step { IsStep self.now.rules.regions self.now.districts after.now unit from }
        requires stood { AreSplits self.now.rules.regions self.now.rules.max_split self.now.districts self.now.splits (slice_set after.now unit from) }
        ensures { result ≡ totals_of self.now.rules.regions self.now.rules.max_split after.now }
    {
        if after[unit as usize] == from {
            return self.splits.totals;
        }
        let wide = self.split_with(after, unit, from);
        let width = self.splits.width_of(self.region_of(unit));
        let broken = self.count_broken_after(width, wide);
        self.splits.totals.after_change(broken, width, wide)
    }

    /// Returns true if the rules on regions are met after a move.
    fn permits_regions(&self, after: &[u32], unit: u32, from: u32) -> bool
        requires callable { T.IsAlwaysCallable self.now.test }
        requires answers { (width : ℕ) (answer : Bool) → width < 2 ^ 32 → T.post self.now.test width answer → answer ≡ nat_le width self.now.rules.max_split }
        requires table { IsTable self.now.rules.regions self.now.districts self.now.splits }
        requires step { IsFitStep self.now.rules.regions self.now.districts after.now unit from }
        requires stood { AreSplits self.now.rules.regions self.now.rules.max_split self.now.districts self.now.splits (slice_set after.now unit from) }
        ensures { result ≡ permits_splits self.now.rules after.now }
    {
        if self.rules.regions.len() == 0 {
            return true;
        }
        self.totals_with(after, unit, from).are_within(&self.rules)
    }

    /// Updates the counts of the unit's region after its move to another district.
    fn move_region(&mut self, after: &[u32], unit: u32, from: u32)
        requires callable { T.IsAlwaysCallable self.old.test }
        requires answers { (width : ℕ) (answer : Bool) → width < 2 ^ 32 → T.post self.old.test width answer → answer ≡ nat_le width self.old.rules.max_split }
        requires table { IsTable self.old.rules.regions self.old.districts self.old.splits }
        requires step { IsFitStep self.old.rules.regions self.old.districts after.now unit from }
        requires stood { AreSplits self.old.rules.regions self.old.rules.max_split self.old.districts self.old.splits (slice_set after.now unit from) }
        requires apart { slice_index after.now unit ≢ from }
        ensures others { self.new ≡ record self.old { splits = self.new.splits } }
        ensures table { IsTable self.old.rules.regions self.old.districts self.new.splits }
        ensures stands { AreSplits self.old.rules.regions self.old.rules.max_split self.old.districts self.new.splits after.now }
    {
        if self.rules.regions.len() == 0 {
            return;
        }
        let region = self.region_of(unit);
        let wide = self.split_with(after, unit, from);
        let totals = self.totals_with(after, unit, from);
        let row = region * self.districts as usize;
        move_unit(
            &mut self.splits.cells,
            row + from as usize,
            row + after[unit as usize] as usize,
            after.len(),
        );
        set_width(&mut self.splits.widths, region, wide);
        self.splits.totals = totals;
    }

    /// Returns true if the plan after a move keeps the districts of frozen units. If the plan
    /// before the move kept them too, only the moved unit is checked.
    #[inline]
    fn keeps_with(&self, after: &[u32], unit: u32, _from: u32) -> bool
        requires homes { length self.now.rules.frozen ≤ length self.now.rules.home }
        requires entries { length self.now.rules.frozen ≤ length after.now }
        requires unit { unit < length after.now }
        requires stood { self.now.kept ≡ keeps_frozen self.now.rules.frozen self.now.rules.home (slice_set after.now unit _from) }
        ensures { result ≡ keeps_frozen self.now.rules.frozen self.now.rules.home after.now }
    {
        if !self.kept {
            return self.rules.keeps_frozen(after);
        }
        let place = unit as usize;
        let frozen = self.rules.frozen.as_slice();
        if place >= frozen.len() {
            return true;
        }
        if frozen[place] == 0 {
            return true;
        }
        after[place] == self.rules.home.as_slice()[place]
    }

    /// Returns true if the rules limit nothing.
    #[inline]
    fn has_no_limits(&self) -> bool
        requires { self.now.cut.rules.max_cut ≡ self.now.rules.max_cut }
        ensures { IsTrue result ↔ LimitNothing self.now.rules }
    {
        self.cut.allows_all()
            && self.rules.regions.len() == 0
            && self.rules.group_districts == 0
            && self.rules.frozen.len() == 0
    }

    /// Allocates a constraint for plans whose districts are below `districts`.
    ///
    /// It describes no plan until `reset` is called. Fails only if out of memory.
    pub fn new(
        alloc: Global,
        cut: Guard<F>,
        test: T,
        rules: Rules,
        districts: u32,
    ) -> Result<RegionGuard<F, T>, Memory>
        requires cut_callable { F.IsAlwaysCallable cut.test }
        requires cut_answers { (sums : Sums) (answer : Bool) → sums.cut < 2 ^ 32 → FnReturnsAt F.Fn cut.test sums answer → answer ≡ nat_le sums.cut cut.rules.max_cut }
        requires callable { T.IsAlwaysCallable test }
        requires answers { (width : ℕ) (answer : Bool) → width < 2 ^ 32 → T.post test width answer → answer ≡ nat_le width rules.max_split }
        requires same_cut { cut.rules.max_cut ≡ rules.max_cut }
        requires few_regions { All (λ r. r < most_regions) rules.regions }
        requires group { IsGroup (length rules.group.members) rules.group }
        requires few_units { length rules.group.members ≤ most_units }
        requires share { rules.group_share ≤ 10000 }
        requires homes { length rules.frozen ≤ length rules.home }
        requires districts { (1 ≤ districts) × (districts ≤ most_districts) }
        ensures cut { IfOk result (λ g. g.cut ≡ cut) }
        ensures test { IfOk result (λ g. g.test ≡ test) }
        ensures rules { IfOk result (λ g. g.rules ≡ rules) }
        ensures districts { IfOk result (λ g. g.districts ≡ districts) }
        ensures table { IfOk result (λ g. IsTable rules.regions districts g.splits) }
        ensures group_table { IfOk result (λ g. IsGroupTable rules.group districts g.tally) }
        ensures splits { IfOk result (λ g. g.splits ≡ record {
          cells = replicate (length g.splits.cells) 0;
          widths = replicate (length g.splits.widths) 0;
          totals = record { broken = 0; in_all = 0; split = 0 };
        }) }
        ensures tally { IfOk result (λ g. g.tally ≡ record { members = replicate districts 0; whole = replicate districts 0; share = rules.group_share; majorities = 0 }) }
        ensures kept { IfOk result (λ g. g.kept ≡ false) }
    {
        let rows = row_count(rules.regions.as_slice()) as usize;
        let splits = SplitCounts::zeros(alloc, rows, districts as usize)?;
        let tally = GroupTally::zeros(alloc, districts as usize, rules.group_share)?;
        Ok(RegionGuard {
            cut,
            test,
            rules,
            districts,
            splits,
            tally,
            kept: false,
        })
    }
}

impl<F: Fn(&SumsView) -> bool + Drop, T: Fn(u32) -> bool + Drop> Judge for RegionGuard<F, T> {
    ghost judging = { λ g. record {
      rules = g.rules;
      takes = λ units above. is_fitting g.rules g.districts units above;
      keeps = F.IsAlwaysCallable g.cut.test
          × ((sums : Sums) (answer : Bool) → sums.cut < 2 ^ 32 → FnReturnsAt F.Fn g.cut.test sums answer → answer ≡ nat_le sums.cut g.cut.rules.max_cut)
          × (g.cut.rules.max_cut ≡ g.rules.max_cut)
          × T.IsAlwaysCallable g.test
          × ((width : ℕ) (answer : Bool) → width < 2 ^ 32 → T.post g.test width answer → answer ≡ nat_le width g.rules.max_split)
          × IsTable g.rules.regions g.districts g.splits
          × IsGroupTable g.rules.group g.districts g.tally
          × (g.tally.share ≡ g.rules.group_share)
          × (length g.rules.frozen ≤ length g.rules.home);
      stands = λ plan. IsStanding g.rules g.districts g.splits g.tally g.kept plan;
    } };

    #[inline]
    fn limits_nothing(&self) -> bool {
        self.has_no_limits()
    }

    fn permits(&self, after: &[u32], sums: &SumsView, unit: u32, from: u32) -> bool {
        self.keeps_with(after, unit, from)
            && self.cut.allows(sums)
            && self.permits_regions(after, unit, from)
            && self.rules.group_districts
                <= self
                    .tally
                    .majorities_with(&self.rules.group, after, unit, from)
    }

    fn moved(&mut self, after: &[u32], unit: u32, from: u32) {
        if after[unit as usize] == from {
            return;
        }
        let kept = self.keeps_with(after, unit, from);
        self.move_region(after, unit, from);
        self.tally.record_move(&self.rules.group, after, unit, from);
        self.kept = kept;
    }

    fn reset(&mut self, plan: &[u32]) {
        let rows = self.splits.widths.len();
        let districts = self.districts as usize;
        count_units(
            &self.rules.regions,
            plan,
            rows,
            districts,
            &mut self.splits.cells,
        );
        count_widths(&self.splits.cells, districts, &mut self.splits.widths);
        self.splits.totals = self.count_totals();
        self.tally.reset(&self.rules.group, plan);
        self.kept = self.rules.keeps_frozen(plan);
    }
}
