//! Several plans: their memory, allocated before the first walk, and their reports. Plans are walked in rounds, the
//! plans of a round beside each other. Each round's reports are written as soon as all its plans are walked.

ghost use Rattle.std.specs.Prelude.{◌≡◌, ◌++◌, ℕ, [], List, All, IfOk, map};
ghost use Rattle.report.specs.AddedText.{WritesAllOf};
ghost use Rattle.audit_statement.specs.DueText.{LetsText};
ghost use Rattle.audit_statement.specs.Draw.{draw};
ghost use Rattle.plan_csv.specs.Named.{jobs_of, pair_of};
ghost use Rattle.audit_statement.specs.Report.{plan_text, plans_text, thread_report};
ghost use Rattle.plan_runs.specs.Memory.{EndsBeforeWalks};
ghost use Rattle.plan_runs.specs.Resources.{IsJudgeSet, IsResourcesFor};
ghost use Rattle.plan_runs.specs.Plans.{AreJudgeSets, AreWalksFor, HasReport, HaveKey, IsRound, IsWalkOf, LetsPlans, ReportsPlans, RunsAlone, plan_title, round_pairs, walk_pair};

use crate::ending::text_of;
use crate::resources::{Resources, make_resources};
use crate::walking::walk;
use audit_io::gate::Gate;
use audit_io::sink::Sink;
use audit_io::source::Failed;
use audit_model::buffers::Bytes;
use audit_model::memory::Memory;
use claim_counter::workers::{Lender, Runtime, run_workers};
use flip_guard::judge::Judge;
use plan_core::job::Job;
use plan_csv::named::Named;
use report::ended::Ended;
use report::writing::write_all;
use std::alloc::Global;
use std::thread::Threads;

/// A plan, the resources to walk it, and its report once it is walked.
#[derive(Drop)]
pub struct PlanWalk<J: Judge> {
    pub plan: Named,
    pub resources: Option<Resources<J>>,
    pub text: Option<Bytes>,
}

// Makes the resources of one plan. `judges` has a constraint for each worker and one for the serial test.
fn make_walk<J: Judge>(alloc: Global, plan: Named, judges: Vec<J>) -> Result<PlanWalk<J>, Memory>
    requires run { RunsAlone plan.job }
    requires judges { IsJudgeSet J.judging plan.job judges }
    ensures walk { IfOk result (λ w. IsWalkOf w) }
    ensures pair { IfOk result (λ w. walk_pair w ≡ pair_of plan) }
{
    match make_resources(alloc, &plan.job, &[], judges) {
        Ok(resources) => Ok(PlanWalk {
            plan,
            resources: Some(resources),
            text: None,
        }),
        Err(_) => {
            drop(plan);
            Err(Memory)
        }
    }
}

// Makes the resources of all plans. `judges` has the constraints of each plan, in the order of the plans.
fn make_walks<J: Judge>(
    alloc: Global,
    plans: Vec<Named>,
    mut judges: Vec<Vec<J>>,
) -> Result<Vec<PlanWalk<J>>, Memory>
    requires plans { All (λ n. RunsAlone n.job) plans.items }
    requires judges { AreJudgeSets J.judging plans.items judges.items }
    ensures { IfOk result (λ w. AreWalksFor (jobs_of plans.items) w.items) }
{
    let mut walks = Vec::new(alloc);
    for plan in plans {
        let here = judges.remove(0);
        let walk = make_walk(alloc, plan, here)?;
        walks.push(walk)?;
    }
    Ok(walks)
}

// Ends a round that has `size` plans. Returns the round to fill next.
fn end_round<J: Judge>(
    alloc: Global,
    rounds: &mut Vec<Vec<PlanWalk<J>>>,
    round: Vec<PlanWalk<J>>,
    size: usize,
) -> Result<Vec<PlanWalk<J>>, Memory>
    requires rounds { All (IsRound) rounds.old.items }
    requires round { IsRound round }
    ensures rounds { IfOk result (λ _. All (IsRound) rounds.new.items) }
    ensures next { IfOk result (IsRound) }
    ensures pairs { IfOk result (λ next. round_pairs rounds.new.items ++ map walk_pair next.items ≡ round_pairs rounds.old.items ++ map walk_pair round.items) }
{
    if round.len() < size {
        return Ok(round);
    }
    rounds.push(round)?;
    Ok(Vec::new(alloc))
}

// Groups the plans into rounds of `size` plans, in their order. The last round may be smaller, or empty.
fn make_rounds<J: Judge>(
    alloc: Global,
    walks: Vec<PlanWalk<J>>,
    size: usize,
) -> Result<Vec<Vec<PlanWalk<J>>>, Memory>
    requires walks { All (IsWalkOf) walks.items }
    ensures rounds { IfOk result (λ r. All (IsRound) r.items) }
    ensures pairs { IfOk result (λ r. round_pairs r.items ≡ map walk_pair walks.items) }
{
    let mut rounds = Vec::new(alloc);
    let mut round = Vec::new(alloc);
    for walk in walks {
        round.push(walk)?;
        round = end_round(alloc, &mut rounds, round, size)?;
    }
    rounds.push(round)?;
    Ok(rounds)
}

// Returns the number of plans that are walked beside each other. If a plan has fewer trajectories than there are
// workers, other plans keep the rest of the workers busy. No contract rests on the number.
fn plans_at_once(plans: &[Named]) -> usize {
    if plans.is_empty() {
        return 1;
    }
    let job = &plans[0].job;
    let trajectories = job.total().max(1);
    (job.setting().workers / trajectories).max(1) as usize
}

// Allocates the memory of all plans.
fn prepare_rounds<J: Judge>(
    alloc: Global,
    plans: Vec<Named>,
    judges: Vec<Vec<J>>,
) -> Result<Vec<Vec<PlanWalk<J>>>, Memory>
    requires plans { All (λ n. RunsAlone n.job) plans.items }
    requires judges { AreJudgeSets J.judging plans.items judges.items }
    ensures rounds { IfOk result (λ r. All (IsRound) r.items) }
    ensures pairs { IfOk result (λ r. round_pairs r.items ≡ jobs_of plans.items) }
{
    let size = plans_at_once(plans.as_slice());
    let walks = make_walks(alloc, plans, judges)?;
    make_rounds(alloc, walks, size)
}

fn write_title<K: Sink>(out: &mut K, name: &str) -> Result<(), Failed>
    requires { LetsText K.lets (K.state out.old) (plan_title name.now) }
    ensures { WritesAllOf (K.state out.old) (K.state out.new) (plan_title name.now) result }
{
    match write_all(out, b"plan ") {
        Err(_) => Err(Failed),
        Ok(()) => match write_all(out, name.as_bytes()) {
            Err(_) => Err(Failed),
            Ok(()) => write_all(out, b"\n"),
        },
    }
}

// Walks a plan and returns its report. Allocates nothing.
fn walk_plan<R: Threads + Sync, J: Judge + Send, G: Gate + Sync>(
    rt: &Runtime<'_, R, G>,
    job: &Job,
    resources: Resources<J>,
) -> Bytes
    requires run { RunsAlone job.now }
    requires resources { IsResourcesFor job.now resources }
    requires fresh { resources.buffers.book.outcomes ≡ [] }
    ensures { result.items ≡ thread_report job.now (draw job.now.setting.key) }
{
    let Resources {
        buffers,
        workers,
        tester,
    } = resources;
    let found = walk(rt, job, buffers, workers);
    text_of(job, found, tester)
}

// Walks a plan, and keeps its report beside it. Allocates nothing.
fn walk_one<R: Threads + Sync, J: Judge + Send, G: Gate + Sync>(
    rt: &Runtime<'_, R, G>,
    walk: &mut PlanWalk<J>,
)
    requires { IsWalkOf walk.old }
    ensures report { HasReport walk.new }
    ensures pair { walk_pair walk.new ≡ walk_pair walk.old }
{
    let Some(resources) = walk.resources.take() else {
        unreachable!()
    };
    walk.text = Some(walk_plan(rt, &walk.plan.job, resources));
}

// Walks these plans beside each other. Each has its own thread, if one can be started. Allocates nothing.
fn walk_round<R: Threads + Sync, J: Judge + Send, G: Gate + Sync>(
    rt: &Runtime<'_, R, G>,
    walks: &mut [PlanWalk<J>],
)
    requires { All (IsWalkOf) walks.old }
    ensures reports { All (HasReport) walks.new }
    ensures pairs { map walk_pair walks.new ≡ map walk_pair walks.old }
{
    let threads = rt.threads;
    let alloc = rt.alloc;
    let gate = rt.gate;
    run_workers(
        threads,
        walks,
        &|_, walk: &mut PlanWalk<J>|
            requires { IsWalkOf walk.now }
            ensures report { HasReport walk.new }
            ensures pair { walk_pair walk.new ≡ walk_pair walk.old }
        {
            let rt = Runtime {
                threads,
                alloc,
                gate,
            };
            walk_one(&rt, walk)
        },
    );
}

fn write_plan<K: Sink>(out: &mut K, name: &str, text: &[u8]) -> Result<(), Failed>
    requires { LetsText K.lets (K.state out.old) (plan_title name.now ++ text.now) }
    ensures { WritesAllOf (K.state out.old) (K.state out.new) (plan_title name.now ++ text.now) result }
{
    match write_title(out, name) {
        Err(_) => Err(Failed),
        Ok(()) => write_all(out, text),
    }
}

// Writes the name and the report of a walked plan.
fn write_report<K: Sink, J: Judge>(walk: PlanWalk<J>, out: &mut K) -> Result<(), Failed>
    requires report { HasReport walk }
    requires text { LetsText K.lets (K.state out.old) (plan_text (draw walk.plan.job.setting.key) (walk_pair walk)) }
    ensures { WritesAllOf (K.state out.old) (K.state out.new) (plan_text (draw walk.plan.job.setting.key) (walk_pair walk)) result }
{
    let PlanWalk {
        plan,
        resources,
        text,
    } = walk;
    drop(resources);
    let Some(text) = text else { unreachable!() };
    let written = write_plan(out, plan.name.as_str(), text.as_slice());
    drop(plan);
    written
}

// Writes the names and the reports of walked plans.
fn write_reports<K: Sink, J: Judge>(walks: Vec<PlanWalk<J>>, out: &mut K) -> Result<(), Failed>
    requires reports { All (HasReport) walks.items }
    requires text { LetsPlans K.lets (K.state out.old) (λ key. HaveKey key (map walk_pair walks.items)) (map walk_pair walks.items) }
    ensures { (key : List ℕ) → HaveKey key (map walk_pair walks.items)
        → WritesAllOf (K.state out.old) (K.state out.new) (plans_text (draw key) (map walk_pair walks.items)) result }
{
    for walk in walks {
        match write_report(walk, out) {
            Ok(()) => {}
            Err(_) => return Err(Failed),
        }
    }
    Ok(())
}

// Walks the plans of a round beside each other, and writes their names and reports. Allocates nothing.
fn report_round<R: Threads + Sync, K: Sink, J: Judge + Send, G: Gate + Sync>(
    rt: &Runtime<'_, R, G>,
    mut round: Vec<PlanWalk<J>>,
    out: &mut K,
) -> Result<(), Failed>
    requires round { IsRound round }
    requires text { LetsPlans K.lets (K.state out.old) (λ key. HaveKey key (map walk_pair round.items)) (map walk_pair round.items) }
    ensures { (key : List ℕ) → HaveKey key (map walk_pair round.items)
        → WritesAllOf (K.state out.old) (K.state out.new) (plans_text (draw key) (map walk_pair round.items)) result }
{
    walk_round(rt, round.as_mut_slice());
    write_reports(round, out)
}

// Walks one round after the other, and writes the names and reports of its plans. Allocates nothing.
fn report_each<R: Threads + Sync, K: Sink, J: Judge + Send, G: Gate + Sync>(
    rt: &Runtime<'_, R, G>,
    rounds: Vec<Vec<PlanWalk<J>>>,
    out: &mut K,
) -> Result<(), Failed>
    requires rounds { All (IsRound) rounds.items }
    requires text { LetsPlans K.lets (K.state out.old) (λ key. HaveKey key (round_pairs rounds.items)) (round_pairs rounds.items) }
    ensures { (key : List ℕ) → HaveKey key (round_pairs rounds.items)
        → WritesAllOf (K.state out.old) (K.state out.new) (plans_text (draw key) (round_pairs rounds.items)) result }
{
    for round in rounds {
        match report_round(rt, round, out) {
            Ok(()) => {}
            Err(_) => return Err(Failed),
        }
    }
    Ok(())
}

/// Allocates the memory of all plans, then walks them in rounds, the plans of a round beside each other, and writes
/// their names and reports in order. `judges` has the constraints of each plan: one for each of its workers, and one
/// for the serial test.
pub fn report_plans<R: Threads + Sync, K: Sink, J: Judge + Send, G: Gate + Sync>(
    rt: &mut Lender<'_, R, G>,
    plans: Vec<Named>,
    judges: Vec<Vec<J>>,
    out: &mut K,
) -> Ended
    requires plans { All (λ n. RunsAlone n.job) plans.items }
    requires judges { AreJudgeSets J.judging plans.items judges.items }
    requires text { LetsPlans K.lets (K.state out.old) (λ key. All (λ n. n.job.setting.key ≡ key) plans.items) (jobs_of plans.items) }
    ensures reports { (key : List ℕ) → All (λ n. n.job.setting.key ≡ key) plans.items → ReportsPlans key (jobs_of plans.items) (K.state out.old) (K.state out.new) result }
    ensures memory { EndsBeforeWalks result rt.old rt.new }
{
    match prepare_rounds(rt.alloc(), plans, judges) {
        Err(_) => Ended::NoMemory,
        Ok(rounds) => {
            let lent = rt.lend();
            match report_each(&lent, rounds, out) {
                Ok(()) => Ended::Done,
                Err(_) => Ended::WriteFault,
            }
        }
    }
}
