//! The rules that a plan must meet beyond population and contiguity.

ghost use Rattle.std.specs.Prelude.{◌≡◌, ◌≤◌, IfOk, length};
ghost use Rattle.audit_model.specs.Meets.{keeps_frozen};

use crate::lists::{NumList, UnitList};
use crate::memory::Memory;

/// The size of a group in each unit, and the base population in which the group's share is
/// measured: all people, or for instance those of voting age. Both lists are empty if the arguments
/// name no group.
#[derive(Drop)]
pub struct Group {
    pub members: NumList,
    pub whole: NumList,
}

impl Group {
    /// Copies the group. Fails if there is no memory.
    pub fn copy(&self) -> Result<Group, Memory>
        ensures { IfOk result (λ g. g ≡ self.now) }
    {
        Ok(Group {
            members: self.members.copy()?,
            whole: self.whole.copy()?,
        })
    }
}

/// The rules that a plan must meet beyond population and contiguity.
pub struct Rules {
    /// The largest number of cut edges.
    pub max_cut: u32,
    /// The region of each unit, or empty without regions.
    pub regions: UnitList,
    /// The largest number of districts in which one region may lie.
    pub max_split: u32,
    /// The largest number of splits in all: the sum, over all regions, of the region's districts
    /// less one.
    pub max_splits: u32,
    /// The largest number of regions that may lie in several districts.
    pub max_split_regions: u32,
    pub group: Group,
    /// The least number of districts in which the group must have a majority.
    pub group_districts: u32,
    /// The share of a district's base population above which the group has a majority, in
    /// hundredths of a percent.
    pub group_share: u32,
    /// For each unit 1 if it is frozen, else 0. Empty if the arguments name no column of frozen
    /// units.
    pub frozen: UnitList,
    /// The start plan, whose districts frozen units keep. Empty if `frozen` is empty.
    pub home: UnitList,
}

/// Drops the fields one by one. Written by hand so that a caller's proof has one call here, not one
/// per field.
impl Drop for Rules {
    fn drop(self) {
        let Rules {
            max_cut: _,
            regions: _regions,
            max_split: _,
            max_splits: _,
            max_split_regions: _,
            group: _group,
            group_districts: _,
            group_share: _,
            frozen: _frozen,
            home: _home,
        } = self;
    }
}

impl Rules {
    /// Copies the rules. Fails if there is no memory.
    pub fn copy(&self) -> Result<Rules, Memory>
        ensures { IfOk result (λ r. r ≡ self.now) }
    {
        Ok(Rules {
            max_cut: self.max_cut,
            regions: self.regions.copy()?,
            max_split: self.max_split,
            max_splits: self.max_splits,
            max_split_regions: self.max_split_regions,
            group: self.group.copy()?,
            group_districts: self.group_districts,
            group_share: self.group_share,
            frozen: self.frozen.copy()?,
            home: self.home.copy()?,
        })
    }

    /// Returns true if a plan leaves each frozen unit in its district of the start plan.
    pub fn keeps_frozen(&self, plan: &[u32]) -> bool
        requires homes { length self.now.frozen ≤ length self.now.home }
        requires entries { length self.now.frozen ≤ length plan.now }
        ensures { result ≡ keeps_frozen self.now.frozen self.now.home plan.now }
    {
        agrees_on(self.frozen.as_slice(), self.home.as_slice(), plan)
    }
}

/// Returns true if two plans agree on each frozen unit.
fn agrees_on(frozen: &[u32], home: &[u32], plan: &[u32]) -> bool
    requires homes { length frozen.now ≤ length home.now }
    requires entries { length frozen.now ≤ length plan.now }
    ensures { result ≡ keeps_frozen frozen.now home.now plan.now }
{
    for unit in 0..frozen.len() {
        if frozen[unit] != 0 && plan[unit] != home[unit] {
            return false;
        }
    }
    true
}
