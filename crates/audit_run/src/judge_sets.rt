//! The constraints of several plans: a set for each plan.

ghost use Rattle.std.specs.Prelude.{◌≡◌, ◌<◌, ◌^◌, ℕ, nat_le, All, Bool, IfOk};
ghost use Rattle.std.specs.Fn.{FnReturnsAt};
ghost use Rattle.audit_model.specs.declared.outcome.SumsView.{SumsView as Sums};
ghost use Rattle.audit_run.specs.JudgeSets.{AreCutJudgeSets, AreRuledJudgeSets, IsCutBy, IsRuledBy};

use audit_model::memory::Memory;
use audit_model::outcome::SumsView;
use audit_model::rules::Rules;
use flip_guard::guard::Guard;
use plan_csv::named::Named;
use plan_runs::judges::guards;
use region_guard::guard::RegionGuard;
use region_guard::judges::region_guards;
use std::alloc::Global;

/// Makes `count` constraints for each plan from one test of the cut edges. The plans must have no
/// regions, require no majorities and freeze no unit. The only error is out of memory.
pub fn cut_judge_sets<F: Fn(&SumsView) -> bool + Copy + Drop>(
    alloc: Global,
    test: F,
    rules: &Rules,
    count: u32,
    plans: &[Named],
) -> Result<Vec<Vec<Guard<F>>>, Memory>
    requires callable { F.IsAlwaysCallable test }
    requires answers { (sums : Sums) (answer : Bool) → sums.cut < 2 ^ 32 → FnReturnsAt F.Fn test sums answer → answer ≡ nat_le sums.cut rules.now.max_cut }
    requires plans { All (IsCutBy rules.now) plans.now }
    ensures { IfOk result (λ s. AreCutJudgeSets test count plans.now s.items) }
{
    let mut judge_sets = Vec::new(alloc);
    for plan in plans {
        let judges = guards(alloc, test, plan.job.rules(), count)?;
        judge_sets.push(judges)?;
    }
    Ok(judge_sets)
}

/// Makes `count` constraints of all rules for each plan, from one test of the cut edges and one of the number of
/// districts of a region. The only error is out of memory.
pub fn ruled_judge_sets<F: Fn(&SumsView) -> bool + Copy + Drop, T: Fn(u32) -> bool + Copy + Drop>(
    alloc: Global,
    cut: F,
    test: T,
    rules: &Rules,
    count: u32,
    plans: &[Named],
) -> Result<Vec<Vec<RegionGuard<F, T>>>, Memory>
    requires cut_callable { F.IsAlwaysCallable cut }
    requires cut_answers { (sums : Sums) (answer : Bool) → sums.cut < 2 ^ 32 → FnReturnsAt F.Fn cut sums answer → answer ≡ nat_le sums.cut rules.now.max_cut }
    requires callable { T.IsAlwaysCallable test }
    requires answers { (width : ℕ) (answer : Bool) → width < 2 ^ 32 → T.post test width answer → answer ≡ nat_le width rules.now.max_split }
    requires plans { All (IsRuledBy rules.now) plans.now }
    ensures { IfOk result (λ s. AreRuledJudgeSets cut test count plans.now s.items) }
{
    let mut judge_sets = Vec::new(alloc);
    for plan in plans {
        let judges = region_guards(
            alloc,
            cut,
            test,
            plan.job.rules(),
            plan.job.districts(),
            count,
        )?;
        judge_sets.push(judges)?;
    }
    Ok(judge_sets)
}
