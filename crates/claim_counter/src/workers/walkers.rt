//! The walkers of a run.

ghost use Rattle.std.specs.Prelude.{◌≡◌, ◌≤◌, IfOk, vec_len};
ghost use Rattle.claim_counter.specs.Walkers.{AreWalkers};
ghost use Rattle.walker.specs.Judges.{AreJudges};

use audit_model::memory::Memory;
use flip_guard::judge::Judge;
use plan_core::job::Job;
use std::alloc::Global;
use walker::walker::Walker;

/// Makes one walker with each element of `judges`. Fails if there is no memory. Later walks allocate nothing.
pub fn make_walkers<J: Judge>(
    alloc: Global,
    job: &Job,
    mut judges: Vec<J>,
) -> Result<Vec<Walker<J>>, Memory>
    requires judges { AreJudges job.now J.judging judges.items }
    ensures walkers { IfOk result (λ w. AreWalkers job.now w.items) }
    ensures count { IfOk result (λ w. vec_len w ≡ vec_len judges) }
{
    let mut walkers = Vec::with_capacity(alloc, judges.len())?;
    while let Some(judge) = judges.pop() {
        walkers.push_reserved(Walker::new(alloc, job, judge)?);
    }
    Ok(walkers)
}
