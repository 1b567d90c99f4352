//! A run of one plan: its start, its constraints, and its saves.

ghost use Rattle.std.specs.Prelude.{◌≡◌, [], false};
ghost use Rattle.audit_model.specs.State.{KeeperState};
ghost use Rattle.audit_statement.specs.Endings.{AreInitialOutcomes, saves};
ghost use Rattle.audit_statement.specs.Due.{LetsSavesOf};
ghost use Rattle.audit_laws.specs.Calls.{Finishes};
ghost use Rattle.audit_laws.specs.Runs.{IsRunJob};
ghost use Rattle.audit_start.specs.ResumeState.{IsOpened};
ghost use Rattle.audit_statement.specs.DueText.{LetsReport, LetsReportFrom};
ghost use Rattle.plan_runs.specs.Memory.{EndsBeforeWalks};
ghost use Rattle.plan_runs.specs.Resources.{IsJudgeSet};
ghost use Rattle.plan_runs.specs.RunBuffers.{IsStartOf};

use audit_io::gate::Gate;
use audit_io::keeper::Keeper;
use audit_io::sink::Sink;
use audit_model::outcome::{Outcome, SumsView};
use audit_start::resume_state::{ResumeState, open};
use claim_counter::workers::Lender;
use flip_guard::judge::Judge;
use plan_core::job::Job;
use plan_runs::judges::guards;
use plan_runs::resources::make_resources;
use plan_runs::saving::{make_saved_resources, run_saved};
use plan_runs::walking::run_unsaved;
use region_guard::judges::region_guards;
use report::ended::Ended;
use std::sync::Wait;
use std::thread::Threads;

// Allocates the memory of a run that starts with these outcomes and saves nothing, and runs it.
fn run_without_saves<R: Threads + Sync, K: Sink, J: Judge + Send, G: Gate + Sync>(
    rt: &mut Lender<'_, R, G>,
    job: &Job,
    outcomes: &[Outcome],
    judges: Vec<J>,
    out: &mut K,
) -> Ended
    requires start { IsStartOf job.now outcomes.now }
    requires unsaved { saves job.now.setting ≡ false }
    requires judges { IsJudgeSet J.judging job.now judges }
    requires text { LetsReport K.lets job.now (K.state out.old) outcomes.now }
    ensures finishes { (k : KeeperState) → AreInitialOutcomes job.now k.slots outcomes.now → Finishes job.now (K.state out.old) (K.state out.new) k k result }
    ensures memory { EndsBeforeWalks result rt.old rt.new }
{
    match make_resources(rt.alloc(), job, outcomes, judges) {
        Ok(resources) => run_unsaved(rt, job, resources, out).ended(),
        Err(_) => Ended::NoMemory,
    }
}

// Runs a job from this initial state. `judges` has a constraint for each worker and one for the serial test.
fn run_with_judges<
    R: Threads + Wait + Sync,
    K: Sink,
    C: Keeper + Send,
    J: Judge + Send,
    G: Gate + Sync,
>(
    rt: &mut Lender<'_, R, G>,
    job: &Job,
    resume_state: ResumeState,
    judges: Vec<J>,
    out: &mut K,
    keeper: C,
) -> (Ended, C)
    requires opened { IsOpened job.now (C.state keeper).slots resume_state }
    requires judges { IsJudgeSet J.judging job.now judges }
    requires lets { LetsSavesOf C.lets job.now (C.state keeper) }
    requires text { LetsReportFrom K.lets job.now (K.state out.old) (C.state keeper).slots }
    ensures finishes { Finishes job.now (K.state out.old) (K.state out.new)
        (C.state keeper) (C.state result.1) result.0 }
    ensures memory { EndsBeforeWalks result.0 rt.old rt.new }
{
    let ResumeState { outcomes, target } = resume_state;
    match target {
        None => (
            run_without_saves(rt, job, outcomes.as_slice(), judges, out),
            keeper,
        ),
        Some(target) => match make_saved_resources(
            rt.alloc(),
            job,
            outcomes.as_slice(),
            target,
            judges,
            keeper,
        ) {
            Ok(resources) => run_saved(rt, job, resources, out),
            Err(keeper) => (Ended::NoMemory, keeper),
        },
    }
}

// Runs a job without regions, required majorities or frozen units from this initial state. The constraint on cut edges
// is enough for it.
fn run_with_cut_limit<R: Threads + Wait + Sync, K: Sink, C: Keeper + Send, G: Gate + Sync>(
    rt: &mut Lender<'_, R, G>,
    job: &Job,
    resume_state: ResumeState,
    out: &mut K,
    keeper: C,
) -> (Ended, C)
    requires opened { IsOpened job.now (C.state keeper).slots resume_state }
    requires no_regions { job.now.regions ≡ [] }
    requires no_group { job.now.setting.group_districts ≡ 0 }
    requires no_frozen { job.now.frozen ≡ [] }
    requires lets { LetsSavesOf C.lets job.now (C.state keeper) }
    requires text { LetsReportFrom K.lets job.now (K.state out.old) (C.state keeper).slots }
    ensures finishes { Finishes job.now (K.state out.old) (K.state out.new)
        (C.state keeper) (C.state result.1) result.0 }
    ensures memory { EndsBeforeWalks result.0 rt.old rt.new }
{
    let rules = job.rules();
    let max_cut = rules.max_cut;
    let workers = job.setting().workers;
    match guards(
        rt.alloc(),
        move |sums: &SumsView| sums.cut <= max_cut,
        rules,
        workers + 1,
    ) {
        Ok(judges) => run_with_judges(rt, job, resume_state, judges, out, keeper),
        Err(_) => (Ended::NoMemory, keeper),
    }
}

// Runs a job from this initial state, with the constraint of all its rules.
fn run_with_all_rules<R: Threads + Wait + Sync, K: Sink, C: Keeper + Send, G: Gate + Sync>(
    rt: &mut Lender<'_, R, G>,
    job: &Job,
    resume_state: ResumeState,
    out: &mut K,
    keeper: C,
) -> (Ended, C)
    requires opened { IsOpened job.now (C.state keeper).slots resume_state }
    requires lets { LetsSavesOf C.lets job.now (C.state keeper) }
    requires text { LetsReportFrom K.lets job.now (K.state out.old) (C.state keeper).slots }
    ensures finishes { Finishes job.now (K.state out.old) (K.state out.new)
        (C.state keeper) (C.state result.1) result.0 }
    ensures memory { EndsBeforeWalks result.0 rt.old rt.new }
{
    let rules = job.rules();
    let cut_limit = rules.max_cut;
    let split_limit = rules.max_split;
    let workers = job.setting().workers;
    match region_guards(
        rt.alloc(),
        move |sums: &SumsView| sums.cut <= cut_limit,
        move |width: u32| width <= split_limit,
        rules,
        job.districts(),
        workers + 1,
    ) {
        Ok(judges) => run_with_judges(rt, job, resume_state, judges, out, keeper),
        Err(_) => (Ended::NoMemory, keeper),
    }
}

/// Runs a job: finds the initial outcomes, allocates all memory, and walks the pending trajectories of its part, at
/// most its budget. Saves at intervals and at the end if the setting asks for it, and writes the report if no
/// trajectory is pending. Returns the reason why the call ends, and the keeper.
pub fn run_job<R: Threads + Wait + Sync, K: Sink, C: Keeper + Send, G: Gate + Sync>(
    rt: &mut Lender<'_, R, G>,
    job: &Job,
    out: &mut K,
    mut keeper: C,
) -> (Ended, C)
    requires run { IsRunJob job.now }
    requires lets { LetsSavesOf C.lets job.now (C.state keeper) }
    requires text { LetsReportFrom K.lets job.now (K.state out.old) (C.state keeper).slots }
    ensures finishes { Finishes job.now (K.state out.old) (K.state out.new)
        (C.state keeper) (C.state result.1) result.0 }
    ensures memory { EndsBeforeWalks result.0 rt.old rt.new }
{
    let resume_state = match open(rt.alloc(), job, &mut keeper) {
        Ok(resume_state) => resume_state,
        Err(why) => return (why, keeper),
    };
    if job.rules().regions.len() == 0
        && job.rules().group_districts == 0
        && job.rules().frozen.len() == 0
    {
        run_with_cut_limit(rt, job, resume_state, out, keeper)
    } else {
        run_with_all_rules(rt, job, resume_state, out, keeper)
    }
}
