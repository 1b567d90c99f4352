//! The constraint on cut edges.

ghost use Rattle.std.specs.Prelude.{◌≡◌, ◌<◌, ◌^◌, [], nat_le, Bool, IfOk, vec_len};
ghost use Rattle.std.specs.Fn.{FnReturnsAt};
ghost use Rattle.audit_model.specs.declared.outcome.SumsView.{SumsView as Sums};
ghost use Rattle.plan_runs.specs.Guards.{AreGuards};

use audit_model::memory::Memory;
use audit_model::outcome::SumsView;
use audit_model::rules::Rules;
use flip_guard::guard::Guard;
use std::alloc::Global;

/// Makes `count` constraints from one test of the number of cut edges. The rules must name no
/// regions, require no majorities and freeze no unit. The only error is out of memory.
pub fn guards<F: Fn(&SumsView) -> bool + Copy + Drop>(
    alloc: Global,
    test: F,
    rules: &Rules,
    count: u32,
) -> Result<Vec<Guard<F>>, Memory>
    requires callable { F.IsAlwaysCallable test }
    requires answers { (sums : Sums) (answer : Bool) → sums.cut < 2 ^ 32 → FnReturnsAt F.Fn test sums answer → answer ≡ nat_le sums.cut rules.now.max_cut }
    requires no_regions { rules.now.regions ≡ [] }
    requires no_group { rules.now.group_districts ≡ 0 }
    requires no_frozen { rules.now.frozen ≡ [] }
    ensures each { IfOk result (λ j. AreGuards test rules.now j.items) }
    ensures count { IfOk result (λ j. vec_len j ≡ count) }
{
    let mut judges = Vec::with_capacity(alloc, count as usize)?;
    for _ in 0..count {
        judges.push(Guard::new(test, rules.copy()?))?;
    }
    Ok(judges)
}
