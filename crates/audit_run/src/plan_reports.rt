//! The walks and reports of several plans: all memory is allocated, then the plans are walked, and their reports are
//! written in order.

ghost use Rattle.std.specs.Prelude.{◌≡◌, ◌<◌, ℕ, [], List, length, All, slice_index_or};
ghost use Rattle.plan_csv.specs.declared.named.Named.{Named as NamedOf};
ghost use Rattle.plan_csv.specs.Named.{jobs_of};
ghost use Rattle.audit_run.specs.Alike.{MayRunTogether};
ghost use Rattle.plan_runs.specs.Memory.{EndsBeforeWalks};
ghost use Rattle.plan_runs.specs.Plans.{LetsPlans, ReportsPlans};

use crate::judge_sets::{cut_judge_sets, ruled_judge_sets};
use audit_io::gate::Gate;
use audit_io::sink::Sink;
use audit_model::outcome::SumsView;
use claim_counter::workers::Lender;
use plan_core::job::Job;
use plan_csv::named::Named;
use plan_runs::plans::report_plans;
use report::ended::Ended;
use std::thread::Threads;

fn first_of(plans: &[Named]) -> &Job
    requires { 0 < length plans.now }
    ensures { (n : NamedOf) × (n ≡ slice_index_or plans.now 0 n) × (result.now ≡ n.job) }
{
    &plans[0].job
}

// Reports on plans without regions, required majorities or frozen units. The constraint on cut edges is enough for
// them.
fn report_cut<R: Threads + Sync, K: Sink, G: Gate + Sync>(
    rt: &mut Lender<'_, R, G>,
    plans: Vec<Named>,
    out: &mut K,
) -> Ended
    requires plans { MayRunTogether plans.items }
    requires no_regions { All (λ n. n.job.regions ≡ []) plans.items }
    requires no_group { All (λ n. n.job.setting.group_districts ≡ 0) plans.items }
    requires no_frozen { All (λ n. n.job.frozen ≡ []) plans.items }
    requires text { LetsPlans K.lets (K.state out.old) (λ key. All (λ n. n.job.setting.key ≡ key) plans.items) (jobs_of plans.items) }
    ensures reports { (key : List ℕ) → All (λ n. n.job.setting.key ≡ key) plans.items → ReportsPlans key (jobs_of plans.items) (K.state out.old) (K.state out.new) result }
    ensures memory { EndsBeforeWalks result rt.old rt.new }
{
    let first = first_of(plans.as_slice());
    let rules = first.rules();
    let max_cut = rules.max_cut;
    let workers = first.setting().workers;
    match cut_judge_sets(
        rt.alloc(),
        move |sums: &SumsView| sums.cut <= max_cut,
        rules,
        workers + 1,
        plans.as_slice(),
    ) {
        Ok(judge_sets) => report_plans(rt, plans, judge_sets, out),
        Err(_) => Ended::NoMemory,
    }
}

// Reports on plans with the constraint of all rules.
fn report_ruled<R: Threads + Sync, K: Sink, G: Gate + Sync>(
    rt: &mut Lender<'_, R, G>,
    plans: Vec<Named>,
    out: &mut K,
) -> Ended
    requires plans { MayRunTogether plans.items }
    requires text { LetsPlans K.lets (K.state out.old) (λ key. All (λ n. n.job.setting.key ≡ key) plans.items) (jobs_of plans.items) }
    ensures reports { (key : List ℕ) → All (λ n. n.job.setting.key ≡ key) plans.items → ReportsPlans key (jobs_of plans.items) (K.state out.old) (K.state out.new) result }
    ensures memory { EndsBeforeWalks result rt.old rt.new }
{
    let first = first_of(plans.as_slice());
    let rules = first.rules();
    let cut_limit = rules.max_cut;
    let split_limit = rules.max_split;
    let workers = first.setting().workers;
    match ruled_judge_sets(
        rt.alloc(),
        move |sums: &SumsView| sums.cut <= cut_limit,
        move |width: u32| width <= split_limit,
        rules,
        workers + 1,
        plans.as_slice(),
    ) {
        Ok(judge_sets) => report_plans(rt, plans, judge_sets, out),
        Err(_) => Ended::NoMemory,
    }
}

/// Allocates the memory of all plans, then walks them, and writes their names and reports in order.
pub fn report_all<R: Threads + Sync, K: Sink, G: Gate + Sync>(
    rt: &mut Lender<'_, R, G>,
    plans: Vec<Named>,
    out: &mut K,
) -> Ended
    requires plans { MayRunTogether plans.items }
    requires text { LetsPlans K.lets (K.state out.old) (λ key. All (λ n. n.job.setting.key ≡ key) plans.items) (jobs_of plans.items) }
    ensures reports { (key : List ℕ) → All (λ n. n.job.setting.key ≡ key) plans.items → ReportsPlans key (jobs_of plans.items) (K.state out.old) (K.state out.new) result }
    ensures memory { EndsBeforeWalks result rt.old rt.new }
{
    let rules = first_of(plans.as_slice()).rules();
    if rules.regions.len() == 0 && rules.group_districts == 0 && rules.frozen.len() == 0 {
        report_cut(rt, plans, out)
    } else {
        report_ruled(rt, plans, out)
    }
}
