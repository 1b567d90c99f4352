//! A run that saves: its memory, its walk with the work queue of `tally_desk`, which saves at intervals and at the end,
//! and its report.

ghost use Rattle.std.specs.Prelude.{◌≡◌, IfErr, IfOk, true};
ghost use Rattle.audit_statement.specs.Endings.{AreInitialOutcomes, saves};
ghost use Rattle.audit_statement.specs.Due.{LetsSavesOf};
ghost use Rattle.audit_laws.specs.Calls.{Finishes};
ghost use Rattle.audit_start.specs.ResumeState.{IsTargetFor};
ghost use Rattle.audit_statement.specs.DueText.{LetsReport};
ghost use Rattle.plan_runs.specs.Memory.{EndsBeforeWalks};
ghost use Rattle.plan_runs.specs.Resources.{IsJudgeSet};
ghost use Rattle.plan_runs.specs.RunBuffers.{IsStartOf};
ghost use Rattle.plan_runs.specs.Serially.{IsTester};
ghost use Rattle.plan_runs.specs.Saving.{IsSavedResourcesFor, target_of};
ghost use Rattle.tally_desk.specs.Pools.{IsDeskPool};

use crate::buffers::{RunBuffers, make_buffers};
use crate::ending::end_run;
use crate::found::Found;
use crate::serially::make_tester;
use audit_io::gate::Gate;
use audit_io::keeper::Keeper;
use audit_io::sink::Sink;
use audit_model::buffers::Bytes;
use audit_model::lists::UnitList;
use audit_model::memory::Memory;
use audit_model::outcome::Outcome;
use audit_start::resume_state::SaveTarget;
use claim_counter::workers::Lender;
use flip_guard::judge::Judge;
use plan_core::job::Job;
use report::ended::Ended;
use std::alloc::Global;
use std::sync::Wait;
use std::thread::Threads;
use tally_desk::pool::DeskPool;
use tally_desk::run::{RunResult, run_over};
use tally_desk::state::{DeskPlan, RunState};
use walker::walker::Walker;

/// The resources of a run that saves: its state, the ids to walk, the workers and the report buffer. The walker of the
/// serial test is there if the test was requested.
#[derive(Drop)]
pub struct SavedResources<J: Judge, C> {
    pub state: RunState<C>,
    pub todo: UnitList,
    pub pool: DeskPool<J>,
    pub text: Bytes,
    pub tester: Option<Walker<J>>,
}

// Makes one worker with each element of `judges` but the last. The last element is for the walker of the serial test.
fn make_walkers<J: Judge>(
    alloc: Global,
    job: &Job,
    mut judges: Vec<J>,
) -> Result<(DeskPool<J>, Option<Walker<J>>), Memory>
    requires { IsJudgeSet J.judging job.now judges }
    ensures pool { IfOk result (λ w. IsDeskPool job.now job.now.setting.workers w.0) }
    ensures tester { IfOk result (λ w. IsTester job.now w.1) }
{
    let Some(judge) = judges.pop() else {
        unreachable!()
    };
    let pool = tally_desk::pool::make_pool(alloc, job, judges)?;
    let tester = make_tester(alloc, job, judge)?;
    Ok((pool, tester))
}

/// Makes the resources of a run that starts with these outcomes and saves at `target`. `judges` has a constraint for
/// each worker and one for the serial test.
///
/// # Errors
///
/// Out of memory. The keeper is returned.
pub fn make_saved_resources<J: Judge, C>(
    alloc: Global,
    job: &Job,
    outcomes: &[Outcome],
    target: SaveTarget,
    judges: Vec<J>,
    keeper: C,
) -> Result<SavedResources<J, C>, C>
    requires start { IsStartOf job.now outcomes.now }
    requires judges { IsJudgeSet J.judging job.now judges }
    ensures resources { IfOk result (IsSavedResourcesFor job.now) }
    ensures outcomes { IfOk result (λ m. m.state.book.outcomes ≡ outcomes.now) }
    ensures target { IfOk result (λ m. target_of m.state ≡ target) }
    ensures keeper { IfOk result (λ m. m.state.keeper ≡ keeper) }
    ensures refused { IfErr result (λ k. k ≡ keeper) }
{
    let Ok((pool, tester)) = make_walkers(alloc, job, judges) else {
        return Err(keeper);
    };
    let Ok(buffers) = make_buffers(alloc, job, outcomes) else {
        return Err(keeper);
    };
    let RunBuffers {
        book,
        todo,
        sorted,
        text,
    } = buffers;
    let digest = target.digest;
    let plan = DeskPlan {
        digest,
        save_every: job.setting().save_every,
        place: target.place,
    };
    match RunState::new(alloc, job, plan, book, sorted, keeper) {
        Ok(state) => Ok(SavedResources {
            state,
            todo,
            pool,
            text,
            tester,
        }),
        Err(keeper) => Err(keeper),
    }
}

/// Runs the workers with checkpoints, then writes the report if no trajectory is pending. Out of memory is reported
/// before any step is taken. Returns the reason why the call ends, and the keeper.
pub fn run_saved<
    R: Threads + Wait + Sync,
    K: Sink,
    C: Keeper + Send,
    J: Judge + Send,
    G: Gate + Sync,
>(rt: &mut Lender<'_, R, G>, job: &Job, resources: SavedResources<J, C>, out: &mut K) -> (Ended, C)
    requires saved { saves job.now.setting ≡ true }
    requires placed { IsTargetFor job.now (C.state resources.state.keeper).slots (target_of resources.state) }
    requires opened { AreInitialOutcomes job.now (C.state resources.state.keeper).slots resources.state.book.outcomes }
    requires resources { IsSavedResourcesFor job.now resources }
    requires lets { LetsSavesOf C.lets job.now (C.state resources.state.keeper) }
    requires text { LetsReport K.lets job.now (K.state out.old) resources.state.book.outcomes }
    ensures finishes { Finishes job.now (K.state out.old) (K.state out.new)
        (C.state resources.state.keeper) (C.state result.1) result.0 }
    ensures memory { EndsBeforeWalks result.0 rt.old rt.new }
{
    let SavedResources {
        state,
        todo,
        pool,
        text,
        tester,
    } = resources;
    match run_over(rt, job, state, todo, pool) {
        Ok(done) => {
            let RunResult { state, saved } = done;
            let (keeper, sorted) = state.into_outcomes();
            let found = Found::all(sorted, text);
            let finished = end_run(job, found, tester, saved, out);
            (finished.ended(), keeper)
        }
        Err(state) => {
            let (keeper, _sorted) = state.into_outcomes();
            (Ended::NoMemory, keeper)
        }
    }
}
