//! The top call, which does everything that the program does.

ghost use Rattle.std.specs.Prelude.{◌≡◌};
ghost use Rattle.audit_statement.specs.Due.{LetsDueSaves};
ghost use Rattle.audit_statement.specs.Several.{names_plans as are_of_plans};
ghost use Rattle.audit_statement.specs.Whole.{KeepsEachPromise};
ghost use Rattle.audit_statement.specs.DueText.{LetsDueLine, LetsDueText};
ghost use Rattle.audit_words.specs.DueAnswers.{LetsAnswerOrText, LetsAnyLine};
ghost use Rattle.audit_words.specs.Answers.{AnswersOrAudits};
ghost use Rattle.audit_statement.specs.World.{world};
ghost use Rattle.audit_words.specs.ArgumentBytes.{argument_bytes};

use crate::several::audit_plans;
use crate::single::audit_single;
use audit_io::gate::Gate;
use audit_io::keeper::Keeper;
use audit_io::sink::Sink;
use audit_io::source::Source;
use audit_words::{Build, answer, question_of};
use claim_counter::workers::Lender;
use std::sync::Wait;
use std::thread::Threads;

// Returns true if the arguments begin with the command `plans`.
fn names_plans(words: &[String]) -> bool
    ensures { result ≡ are_of_plans (argument_bytes words.now) }
{
    let Some((word, _)) = words.split_first() else {
        return false;
    };
    word.as_str() == "plans"
}

// Runs the command of the arguments of an audit. Returns the exit status and the keeper.
fn audit_asked<
    R: Threads + Wait + Sync,
    S: Source,
    K: Sink,
    N: Sink,
    C: Keeper + Send,
    G: Gate + Sync,
>(
    rt: &mut Lender<'_, R, G>,
    words: &[String],
    graph: &mut S,
    out: &mut K,
    note: &mut N,
    keeper: C,
) -> (u8, C)
    requires lets { LetsDueSaves C.lets (argument_bytes words.now) (world (S.state graph.old) (K.state out.old) (C.state keeper)) }
    requires text { LetsDueText K.lets (argument_bytes words.now) (world (S.state graph.old) (K.state out.old) (C.state keeper)) }
    requires note { LetsDueLine N.lets (argument_bytes words.now) (world (S.state graph.old) (K.state out.old) (C.state keeper)) (N.state note.old) }
    ensures kept { let before = world (S.state graph.old) (K.state out.old) (C.state keeper) in
        let after = world (S.state graph.new) (K.state out.new) (C.state result.1) in
        KeepsEachPromise (argument_bytes words.now) before after (N.state note.old) (N.state note.new) result.0 }
    ensures memory { result.0 ≡ 3 → rt.new ≡ rt.old }
{
    if names_plans(words) {
        let status = audit_plans(rt, words, graph, out, note);
        return (status, keeper);
    }
    audit_single(rt, words, graph, out, note, keeper)
}

/// Runs the command of the arguments. Returns the exit status and the keeper.
///
/// If the arguments ask for help or the version, the answer goes to `out`, and nothing is read or
/// saved. The status is then 0, or 5 for a failed write.
///
/// Otherwise the graph is read to its end, or to one byte more than 67,108,864. The command `make`
/// reads nothing. With the command `plans`, the graph ends at the first line feed, and a table of
/// plans follows. `out` gets the text of a check, the report of a run, the trace of a run, or one
/// report for each of several plans. `note` gets the reason of each status but 0:
///
/// - 1: refused arguments
/// - 2: a refused graph, table or plan
/// - 3: out of memory
/// - 4: a failed read
/// - 5: a failed write
/// - 6: a failed load of a checkpoint
/// - 7: trajectories are left to another run
/// - 8: slots from which a run cannot resume
/// - 9: a failed save
///
/// `rt` lends the threads and the gate once all memory of the walks is allocated: never before a call ends with
/// status 3. The gate is called with the id of each trajectory before the trajectory is walked. `build` is the build
/// that `--version` reports.
pub fn audit<
    R: Threads + Wait + Sync,
    S: Source,
    K: Sink,
    N: Sink,
    C: Keeper + Send,
    G: Gate + Sync,
>(
    rt: &mut Lender<'_, R, G>,
    build: &Build<'_>,
    words: &[String],
    graph: &mut S,
    out: &mut K,
    note: &mut N,
    keeper: C,
) -> (u8, C)
    requires lets { LetsDueSaves C.lets (argument_bytes words.now) (world (S.state graph.old) (K.state out.old) (C.state keeper)) }
    requires text { LetsAnswerOrText K.lets build.now (argument_bytes words.now) (world (S.state graph.old) (K.state out.old) (C.state keeper)) }
    requires note { LetsAnyLine N.lets (argument_bytes words.now) (world (S.state graph.old) (K.state out.old) (C.state keeper)) (N.state note.old) }
    ensures kept { let before = world (S.state graph.old) (K.state out.old) (C.state keeper) in
        let after = world (S.state graph.new) (K.state out.new) (C.state result.1) in
        AnswersOrAudits build.now (argument_bytes words.now) before after (N.state note.old) (N.state note.new) result.0 }
    ensures memory { result.0 ≡ 3 → rt.new ≡ rt.old }
{
    match question_of(words) {
        Some(question) => (answer(build, question, out, note), keeper),
        None => audit_asked(rt, words, graph, out, note, keeper),
    }
}
