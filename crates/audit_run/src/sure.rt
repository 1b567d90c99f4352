//! The audit over a source, an output and a keeper that never fail.

ghost use Rattle.std.specs.Prelude.{◌≡◌};
ghost use Rattle.audit_statement.specs.Sure.{EachEndsSurely, sure_world};
ghost use Rattle.audit_words.specs.ArgumentBytes.{argument_bytes};
ghost use Rattle.audit_words.specs.DueAnswers.{LetsAnyLine};
ghost use Rattle.audit_words.specs.Answers.{AnswersOrAudits};

use crate::audit::audit;
use audit_io::gate::Gate;
use audit_io::sink::Sink;
use audit_io::sure::{SureSink, SureSource};
use audit_io::sure_keeper::SureKeeper;
use audit_words::Build;
use audit_words::laws::questions_were_refused;
use claim_counter::workers::Lender;
use std::sync::Wait;
use std::thread::Threads;

/// Runs the command of the arguments with I/O that never fails. Returns the exit status and the keeper.
///
/// The status is 0, or 3 if out of memory, under these conditions:
///
/// - The arguments, the graph and the plan are accepted.
/// - If the run resumes, it finds initial outcomes in the slots.
/// - The part and the budget of the run cover every pending trajectory.
///
/// With the command `plans`, the only condition is that arguments, graph, regions, table and plans are accepted.
pub fn audit_surely<R: Threads + Wait + Sync, N: Sink, G: Gate + Sync>(
    rt: &mut Lender<'_, R, G>,
    build: &Build<'_>,
    words: &[String],
    graph: &mut SureSource,
    out: &mut SureSink,
    note: &mut N,
    keeper: SureKeeper,
) -> (u8, SureKeeper)
    requires note { LetsAnyLine N.lets (argument_bytes words.now) (sure_world graph.old keeper) (N.state note.old) }
    ensures complete { EachEndsSurely (argument_bytes words.now) (sure_world graph.old keeper) result.0 }
    ensures kept { AnswersOrAudits build.now (argument_bytes words.now) (sure_world graph.old keeper) (sure_world graph.new result.1)
        (N.state note.old) (N.state note.new) result.0 }
    ensures memory { result.0 ≡ 3 → rt.new ≡ rt.old }
{
    questions_were_refused();
    audit(rt, build, words, graph, out, note, keeper)
}
