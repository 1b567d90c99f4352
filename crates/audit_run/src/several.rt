//! The command `plans`, on several plans of one graph.

ghost use Rattle.std.specs.Prelude.{◌≡◌, true};
ghost use Rattle.audit_run.specs.Stages.{PlansRunTo};
ghost use Rattle.audit_statement.specs.Several.{KeepsPlansPromise, names_plans};
ghost use Rattle.audit_statement.specs.DueText.{LetsLineOfSeveral, LetsTextOfSeveral};
ghost use Rattle.audit_model.specs.State.{KeeperState};
ghost use Rattle.audit_statement.specs.World.{world};
ghost use Rattle.audit_words.specs.ArgumentBytes.{argument_bytes};
ghost use Rattle.plan_runs.specs.Memory.{EndsBeforeWalks};

use crate::plan_jobs::prepare_plans;
use crate::plan_reports::report_all;
use audit_io::gate::Gate;
use audit_io::sink::Sink;
use audit_io::source::Source;
use claim_counter::workers::Lender;
use report::ended::Ended;
use report::note::write_diagnostic;
use std::thread::Threads;

// Runs the command `plans`, but writes no diagnostic.
fn run_plans<R: Threads + Sync, S: Source, K: Sink, G: Gate + Sync>(
    rt: &mut Lender<'_, R, G>,
    words: &[String],
    graph: &mut S,
    out: &mut K,
) -> Ended
    requires plans { names_plans (argument_bytes words.now) ≡ true }
    requires text { LetsTextOfSeveral K.lets (argument_bytes words.now) (S.state graph.old) (K.state out.old) }
    ensures runs { (keeper : KeeperState) → PlansRunTo (argument_bytes words.now)
        (world (S.state graph.old) (K.state out.old) keeper)
        (world (S.state graph.new) (K.state out.new) keeper) result }
    ensures memory { EndsBeforeWalks result rt.old rt.new }
{
    match prepare_plans(rt.alloc(), words, graph) {
        Ok(plans) => report_all(rt, plans, out),
        Err(why) => why,
    }
}

/// Runs the command `plans` and returns the exit status. Loads and saves no slot.
///
/// The source is read to its end, or to one byte more than 67,108,864. The graph ends at the first line feed, and the
/// table follows. `out` gets the name and the report of each plan. `note` gets the reason of each status but 0:
///
/// - 1: refused arguments
/// - 2: a refused graph, table or plan
/// - 3: out of memory
/// - 4: a failed read
/// - 5: a failed write
pub fn audit_plans<R: Threads + Sync, S: Source, K: Sink, N: Sink, G: Gate + Sync>(
    rt: &mut Lender<'_, R, G>,
    words: &[String],
    graph: &mut S,
    out: &mut K,
    note: &mut N,
) -> u8
    requires plans { names_plans (argument_bytes words.now) ≡ true }
    requires text { LetsTextOfSeveral K.lets (argument_bytes words.now) (S.state graph.old) (K.state out.old) }
    requires note { LetsLineOfSeveral N.lets (argument_bytes words.now) (S.state graph.old) (K.state out.old) (N.state note.old) }
    ensures kept { (keeper : KeeperState) → KeepsPlansPromise (argument_bytes words.now)
        (world (S.state graph.old) (K.state out.old) keeper)
        (world (S.state graph.new) (K.state out.new) keeper)
        (N.state note.old) (N.state note.new) result }
    ensures memory { result ≡ 3 → rt.new ≡ rt.old }
{
    let why = run_plans(rt, words, graph, out);
    let status = write_diagnostic(&why, note);
    drop(why);
    status
}
