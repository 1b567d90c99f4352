//! Splits of a plan's regions among districts.

ghost use Rattle.std.specs.Prelude.{◌≡◌, ◌+◌, ◌-◌, ◌*◌, ◌<◌, ◌≤◌, ◌==◌, ◌&&◌, cond, nat_le, nat_lt, IfOk, length, replicate, slice_index};
ghost use Rattle.audit_model.specs.Limits.{most_districts, most_regions, most_splits};
ghost use Rattle.region_guard.specs.Standing.{cell};

use audit_model::lists::{NumList, UnitList};
use audit_model::memory::Memory;
use audit_model::rules::Rules;
use std::alloc::Global;

/// The numbers that the rules limit: regions in too many districts, splits in all, and split
/// regions.
#[derive(Clone, Copy)]
pub struct Totals {
    pub broken: u32,
    pub in_all: u32,
    pub split: u32,
}

impl Totals {
    /// Returns the totals after one region has changed from `width` to `wide` districts. `broken`
    /// is the new number of regions in too many districts.
    #[inline]
    pub(crate) fn after_change(self, broken: u32, width: u32, wide: u32) -> Totals
        requires few_in_all { self.in_all ≤ most_splits }
        requires few_split { self.split ≤ most_regions }
        requires few { wide ≤ most_districts }
        requires some_in_all { width ≤ self.in_all + wide }
        requires some_split { cond (nat_lt 1 width) 1 0 ≤ self.split + cond (nat_lt 1 wide) 1 0 }
        ensures { result ≡ record {
          broken = broken;
          in_all = self.in_all + wide - width;
          split = self.split + cond (nat_lt 1 wide) 1 0 - cond (nat_lt 1 width) 1 0;
        } }
    {
        Totals {
            broken,
            in_all: self.in_all + wide - width,
            split: self.split + one_if_split(wide) - one_if_split(width),
        }
    }

    /// Returns true if the totals are within the limits.
    #[inline]
    pub(crate) fn are_within(self, rules: &Rules) -> bool
        ensures { result ≡ ((self.broken == 0) && nat_le self.in_all rules.now.max_splits && nat_le self.split rules.now.max_split_regions) }
    {
        self.broken == 0 && self.in_all <= rules.max_splits && self.split <= rules.max_split_regions
    }
}

/// Counts of a plan's regions. `cells` has the number of units by region and district, one row per
/// region. `widths` has the number of districts of each region.
#[derive(Drop)]
pub struct SplitCounts {
    pub(crate) cells: NumList,
    pub(crate) widths: UnitList,
    pub(crate) totals: Totals,
}

impl SplitCounts {
    /// Allocates counts of zero. Fails only if out of memory.
    pub(crate) fn zeros(
        alloc: Global,
        regions: usize,
        districts: usize,
    ) -> Result<SplitCounts, Memory>
        requires few_rows { regions ≤ most_regions }
        requires few { districts ≤ most_districts }
        ensures { IfOk result (λ s. s ≡ record {
          cells = replicate (regions * districts) 0;
          widths = replicate regions 0;
          totals = record { broken = 0; in_all = 0; split = 0 };
        }) }
    {
        Ok(SplitCounts {
            cells: NumList::zeros(alloc, regions * districts)?,
            widths: UnitList::zeros(alloc, regions)?,
            totals: Totals {
                broken: 0,
                in_all: 0,
                split: 0,
            },
        })
    }

    /// Returns the number of districts of a region.
    #[inline]
    pub(crate) fn width_of(&self, region: usize) -> u32
        requires region { region < length self.now.widths }
        ensures { result ≡ slice_index self.now.widths region }
    {
        self.widths.as_slice()[region]
    }

    /// Returns the number of districts of a region after one of its units has moved to another
    /// district.
    #[inline]
    pub(crate) fn wide_after(&self, districts: u32, region: usize, from: u32, to: u32) -> u32
        requires places { length self.now.cells ≡ length self.now.widths * districts }
        requires few_rows { length self.now.widths ≤ most_regions }
        requires region { region < length self.now.widths }
        requires from { from < districts }
        requires to { to < districts }
        requires few { districts ≤ most_districts }
        requires some { cell districts self.now.cells region from ≡ 1 → 1 ≤ slice_index self.now.widths region }
        requires narrow { slice_index self.now.widths region ≤ most_districts }
        ensures { result + cond (cell districts self.now.cells region from == 1) 1 0 ≡
            slice_index self.now.widths region + cond (cell districts self.now.cells region to == 0) 1 0 }
    {
        let row = region * districts as usize;
        let cells = self.cells.as_slice();
        let mut wide = self.width_of(region);
        if cells[row + to as usize] == 0 {
            wide += 1;
        }
        if cells[row + from as usize] == 1 {
            wide -= 1;
        }
        wide
    }
}

/// Returns 1 if a region in this many districts is split, else 0.
#[inline]
fn one_if_split(width: u32) -> u32
    ensures { result ≡ cond (nat_lt 1 width) 1 0 }
{
    if width > 1 { 1 } else { 0 }
}
