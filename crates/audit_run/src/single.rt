//! The commands on one plan.

ghost use Rattle.std.specs.Prelude.{◌≡◌, IsTrue};
ghost use Rattle.audit_model.specs.declared.setting.Command.TheVariants.{Check};
ghost use Rattle.audit_statement.specs.Endings.{is_walking};
ghost use Rattle.audit_statement.specs.Promise.{KeepsItsPromise};
ghost use Rattle.audit_statement.specs.Due.{LetsDueSaves, LetsSavesOf};
ghost use Rattle.audit_statement.specs.DueText.{LetsLineOfOne, LetsText, LetsTextOf, LetsTextOfOne};
ghost use Rattle.audit_statement.specs.Report as definition;
ghost use Rattle.audit_laws.specs.Calls.{Finishes};
ghost use Rattle.audit_laws.specs.Runs.{IsRunJob};
ghost use Rattle.audit_model.specs.State.{KeeperState};
ghost use Rattle.audit_statement.specs.World.{world};
ghost use Rattle.audit_words.specs.ArgumentBytes.{argument_bytes};
ghost use Rattle.plan_runs.specs.Memory.{EndsBeforeWalks};

use crate::run::run_job;
use crate::trace::trace_job;
use audit_io::gate::Gate;
use audit_io::keeper::Keeper;
use audit_io::sink::Sink;
use audit_io::source::Source;
use audit_laws::laws::ended_calls_keep_their_promise;
use audit_model::buffers::Bytes;
use audit_model::setting::Command;
use audit_start::prepare::prepare;
use claim_counter::workers::Lender;
use plan_core::job::Job;
use report::check::check_text;
use report::ended::Ended;
use report::note::write_diagnostic;
use report::writing::write_all;
use std::alloc::Global;
use std::sync::Wait;
use std::thread::Threads;

fn write_check<K: Sink>(alloc: Global, job: &Job, out: &mut K) -> Ended
    requires check { job.now.setting.command ≡ Check }
    requires text { LetsText K.lets (K.state out.old) (definition.check_text job.now) }
    ensures { (keeper : KeeperState) → Finishes job.now (K.state out.old) (K.state out.new) keeper keeper result }
{
    let mut text = Bytes::new(alloc);
    match check_text(alloc, job, &mut text) {
        Err(_) => Ended::NoMemory,
        Ok(()) => match write_all(out, text.as_slice()) {
            Ok(()) => Ended::Done,
            Err(_) => Ended::WriteFault,
        },
    }
}

// Runs the command of the job's setting.
fn run_command<R: Threads + Wait + Sync, K: Sink, C: Keeper + Send, G: Gate + Sync>(
    rt: &mut Lender<'_, R, G>,
    job: &Job,
    out: &mut K,
    keeper: C,
) -> (Ended, C)
    requires run { IsTrue (is_walking job.now.setting.command) → IsRunJob job.now }
    requires lets { LetsSavesOf C.lets job.now (C.state keeper) }
    requires text { LetsTextOf K.lets job.now (K.state out.old) (C.state keeper).slots }
    ensures finishes { Finishes job.now (K.state out.old) (K.state out.new)
        (C.state keeper) (C.state result.1) result.0 }
    ensures memory { EndsBeforeWalks result.0 rt.old rt.new }
{
    match job.setting().command {
        Command::Check => (write_check(rt.alloc(), job, out), keeper),
        Command::Trace => (trace_job(rt.alloc(), job, out), keeper),
        Command::Run | Command::Make | Command::Plans => run_job(rt, job, out, keeper),
    }
}

/// Runs the command of the arguments on one plan. Returns the exit status and the keeper.
///
/// The graph is read to its end, or to one byte more than 67,108,864. With the command `make`, nothing is read. `out`
/// gets the text of a check, the report of a run, or a trace. `note` gets the reason of each status but 0:
///
/// - 1: refused arguments
/// - 2: a refused graph or plan
/// - 3: out of memory
/// - 4: a failed read
/// - 5: a failed write
/// - 6: a failed load of a checkpoint
/// - 7: trajectories are left to another run
/// - 8: slots from which a run cannot resume
/// - 9: a failed save
pub fn audit_single<
    R: Threads + Wait + Sync,
    S: Source,
    K: Sink,
    N: Sink,
    C: Keeper + Send,
    G: Gate + Sync,
>(
    rt: &mut Lender<'_, R, G>,
    words: &[String],
    graph: &mut S,
    out: &mut K,
    note: &mut N,
    keeper: C,
) -> (u8, C)
    requires lets { LetsDueSaves C.lets (argument_bytes words.now) (world (S.state graph.old) (K.state out.old) (C.state keeper)) }
    requires text { LetsTextOfOne K.lets (argument_bytes words.now) (world (S.state graph.old) (K.state out.old) (C.state keeper)) }
    requires note { LetsLineOfOne N.lets (argument_bytes words.now) (world (S.state graph.old) (K.state out.old) (C.state keeper)) (N.state note.old) }
    ensures kept { let before = world (S.state graph.old) (K.state out.old) (C.state keeper) in
        let after = world (S.state graph.new) (K.state out.new) (C.state result.1) in
        KeepsItsPromise (argument_bytes words.now) before after (N.state note.old) (N.state note.new) result.0 }
    ensures memory { result.0 ≡ 3 → rt.new ≡ rt.old }
{
    // This call only tells the proof that a call with a correct ending meets the top contract.
    ended_calls_keep_their_promise();
    match prepare(rt.alloc(), words, graph) {
        Ok(job) => {
            let (why, keeper) = run_command(rt, &job, out, keeper);
            drop(job);
            let status = write_diagnostic(&why, note);
            drop(why);
            (status, keeper)
        }
        Err(why) => {
            let status = write_diagnostic(&why, note);
            drop(why);
            (status, keeper)
        }
    }
}
