//! Constraints for several workers.

ghost use Rattle.std.specs.Prelude.{◌≡◌, ◌<◌, ◌≤◌, ◌^◌, ℕ, [], nat_le, All, Bool, IfOk, length, vec_len};
ghost use Rattle.std.specs.Fn.{FnReturnsAt};
ghost use Rattle.audit_model.specs.declared.outcome.SumsView.{SumsView as Sums};
ghost use Rattle.region_guard.specs.Guards.{AreRegionGuards, IsRegionGuard};
ghost use Rattle.audit_model.specs.Limits.{IsGroup, most_regions, most_districts, most_units};

use crate::guard::RegionGuard;
use audit_model::lists::{NumList, UnitList};
use audit_model::memory::Memory;
use audit_model::outcome::SumsView;
use audit_model::rules::{Group, Rules};
use flip_guard::guard::Guard;
use std::alloc::Global;

/// Allocates `count` constraints with the given tests, each with its own rules and counts.
///
/// They describe no plan until `reset` is called. Fails only if out of memory.
pub fn region_guards<F: Fn(&SumsView) -> bool + Copy + Drop, T: Fn(u32) -> bool + Copy + Drop>(
    alloc: Global,
    cut: F,
    test: T,
    rules: &Rules,
    districts: u32,
    count: u32,
) -> Result<Vec<RegionGuard<F, T>>, Memory>
    requires cut_callable { F.IsAlwaysCallable cut }
    requires cut_answers { (sums : Sums) (answer : Bool) → sums.cut < 2 ^ 32 → FnReturnsAt F.Fn cut sums answer → answer ≡ nat_le sums.cut rules.now.max_cut }
    requires callable { T.IsAlwaysCallable test }
    requires answers { (width : ℕ) (answer : Bool) → width < 2 ^ 32 → T.post test width answer → answer ≡ nat_le width rules.now.max_split }
    requires few_regions { All (λ r. r < most_regions) rules.now.regions }
    requires group { IsGroup (length rules.now.group.members) rules.now.group }
    requires few_units { length rules.now.group.members ≤ most_units }
    requires share { rules.now.group_share ≤ 10000 }
    requires homes { length rules.now.frozen ≤ length rules.now.home }
    requires districts { (1 ≤ districts) × (districts ≤ most_districts) }
    ensures each { IfOk result (λ j. AreRegionGuards cut test rules.now districts j.items) }
    ensures count { IfOk result (λ j. vec_len j ≡ count) }
{
    let mut judges = Vec::with_capacity(alloc, count as usize)?;
    for _ in 0..count {
        judges.push(region_guard_of(alloc, cut, test, rules, districts)?)?;
    }
    Ok(judges)
}

// Returns rules that limit only the cut edges.
fn cut_rules(alloc: Global, rules: &Rules) -> Rules
    ensures max_cut { result.max_cut ≡ rules.now.max_cut }
    ensures no_regions { result.regions ≡ [] }
    ensures no_group { result.group_districts ≡ 0 }
    ensures no_frozen { result.frozen ≡ [] }
{
    Rules {
        max_cut: rules.max_cut,
        regions: UnitList::new(alloc),
        max_split: rules.max_split,
        max_splits: rules.max_splits,
        max_split_regions: rules.max_split_regions,
        group: Group {
            members: NumList::new(alloc),
            whole: NumList::new(alloc),
        },
        group_districts: 0,
        group_share: rules.group_share,
        frozen: UnitList::new(alloc),
        home: UnitList::new(alloc),
    }
}

// Allocates one constraint with its own copy of the rules. Fails only if out of memory.
fn region_guard_of<F: Fn(&SumsView) -> bool + Copy + Drop, T: Fn(u32) -> bool + Copy + Drop>(
    alloc: Global,
    cut: F,
    test: T,
    rules: &Rules,
    districts: u32,
) -> Result<RegionGuard<F, T>, Memory>
    requires cut_callable { F.IsAlwaysCallable cut }
    requires cut_answers { (sums : Sums) (answer : Bool) → sums.cut < 2 ^ 32 → FnReturnsAt F.Fn cut sums answer → answer ≡ nat_le sums.cut rules.now.max_cut }
    requires callable { T.IsAlwaysCallable test }
    requires answers { (width : ℕ) (answer : Bool) → width < 2 ^ 32 → T.post test width answer → answer ≡ nat_le width rules.now.max_split }
    requires few_regions { All (λ r. r < most_regions) rules.now.regions }
    requires group { IsGroup (length rules.now.group.members) rules.now.group }
    requires few_units { length rules.now.group.members ≤ most_units }
    requires share { rules.now.group_share ≤ 10000 }
    requires homes { length rules.now.frozen ≤ length rules.now.home }
    requires districts { (1 ≤ districts) × (districts ≤ most_districts) }
    ensures { IfOk result (λ g. IsRegionGuard cut test rules.now districts g) }
{
    let cuts = cut_rules(alloc, rules);
    RegionGuard::new(alloc, Guard::new(cut, cuts), test, rules.copy()?, districts)
}
