//! The audit, with a contract on plain runs.

ghost use Rattle.audit_statement.specs.Due.{LetsDueSaves};
ghost use Rattle.audit_statement.specs.World.{world};
ghost use Rattle.audit_words.specs.ArgumentBytes.{argument_bytes};
ghost use Rattle.audit_statement.specs.Audited.{AuditsPlainly};
ghost use Rattle.audit_statement.specs.PlainlyEnded.{EndsPlainly};
ghost use Rattle.audit_words.specs.DueAnswers.{LetsAnswerOrText, LetsAnyLine};
ghost use Rattle.audit_words.specs.Answers.{AnswersOrAudits};
ghost use Rattle.std.specs.Prelude.{◌≡◌, ◌≢◌, ◌∷◌, [], codes};

use crate::audit::audit;
use audit_io::gate::Gate;
use audit_io::keeper::Keeper;
use audit_io::sink::Sink;
use audit_io::source::Source;
use audit_laws::plain_laws::{promised_calls_audit_plainly, promised_calls_end_plainly};
use audit_words::Build;
use audit_words::laws::questions_were_refused;
use claim_counter::workers::Lender;
use std::sync::Wait;
use std::thread::Threads;

/// Runs the command of the arguments, as `audit` does. Returns the exit status and the keeper.
///
/// For a plain run other than `run --help`, the first clause states all that status 0 means. The
/// second states when status 0 is certain.
pub fn audit_plainly<
    R: Threads + Wait + Sync,
    S: Source,
    K: Sink,
    N: Sink,
    C: Keeper + Send,
    G: Gate + Sync,
>(
    rt: &mut Lender<'_, R, G>,
    build: &Build<'_>,
    words: &[String],
    graph: &mut S,
    out: &mut K,
    note: &mut N,
    keeper: C,
) -> (u8, C)
    requires lets { LetsDueSaves C.lets (argument_bytes words.now) (world (S.state graph.old) (K.state out.old) (C.state keeper)) }
    requires text { LetsAnswerOrText K.lets build.now (argument_bytes words.now) (world (S.state graph.old) (K.state out.old) (C.state keeper)) }
    requires note { LetsAnyLine N.lets (argument_bytes words.now) (world (S.state graph.old) (K.state out.old) (C.state keeper)) (N.state note.old) }
    ensures plain { argument_bytes words.now ≢ codes "run" ∷ codes "--help" ∷ [] → AuditsPlainly (argument_bytes words.now) (S.state graph.old).bytes (K.state out.old).bytes (K.state out.new).bytes result.0 }
    ensures ends { let before = world (S.state graph.old) (K.state out.old) (C.state keeper) in
        let after = world (S.state graph.new) (K.state out.new) (C.state result.1) in
        EndsPlainly (argument_bytes words.now) before after result.0 }
    ensures kept { let before = world (S.state graph.old) (K.state out.old) (C.state keeper) in
        let after = world (S.state graph.new) (K.state out.new) (C.state result.1) in
        AnswersOrAudits build.now (argument_bytes words.now) before after (N.state note.old) (N.state note.new) result.0 }
    ensures memory { result.0 ≡ 3 → rt.new ≡ rt.old }
{
    promised_calls_audit_plainly();
    promised_calls_end_plainly();
    questions_were_refused();
    audit(rt, build, words, graph, out, note, keeper)
}
