//! The serial test of a run.

ghost use Rattle.std.specs.Prelude.{◌≡◌, IfOk};
ghost use Rattle.audit_model.specs.Serially.{serial_observed};
ghost use Rattle.audit_statement.specs.Draw.{draw};
ghost use Rattle.report.specs.Outcomes.{IsSerialOf};
ghost use Rattle.flip_kernel.specs.Judged.{IsJudgeFor};
ghost use Rattle.audit_laws.specs.Runs.{IsRunJob};
ghost use Rattle.plan_runs.specs.Serially.{IsTester};

use audit_model::memory::Memory;
use flip_guard::judge::Judge;
use plan_core::job::Job;
use serial_test::run::serial;
use std::alloc::Global;
use walker::walker::Walker;

/// Makes the walker of the serial test, if the test was requested. The only error is out of memory.
pub fn make_tester<J: Judge>(
    alloc: Global,
    job: &Job,
    judge: J,
) -> Result<Option<Walker<J>>, Memory>
    requires { IsJudgeFor job.now (J.judging judge) }
    ensures { IfOk result (IsTester job.now) }
{
    if !job.setting().serial {
        return Ok(None);
    }
    let tester = Walker::new(alloc, job, judge)?;
    Ok(Some(tester))
}

/// Makes the serial test if it was requested. Returns the start plan's position in the run, and a
/// rank for each ask. Allocates nothing.
pub fn test_serially<J: Judge>(job: &Job, tester: Option<Walker<J>>) -> Option<(u32, [u64; 4])>
    requires run { IsRunJob job.now }
    requires tester { IsTester job.now tester }
    ensures found { result ≡ serial_observed job.now (draw job.now.setting.key) }
    ensures within { IsSerialOf job.now result }
{
    match tester {
        None => None,
        Some(mut walker) => {
            let found = serial(&mut walker, job);
            let ranks = found.ranks;
            Some((found.place, ranks))
        }
    }
}
