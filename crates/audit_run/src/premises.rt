//! The premises of the top call, for a keeper and sinks that permit everything, as files and standard streams do.

ghost use Rattle.std.specs.Prelude.{ℕ, List};
ghost use Rattle.audit_model.specs.State.{KeeperState, Stream};
ghost use Rattle.audit_statement.specs.Due.{LetsDueSaves};
ghost use Rattle.audit_statement.specs.World.{World};
ghost use Rattle.audit_words.specs.declared.build.Build.{Build};
ghost use Rattle.audit_words.specs.DueAnswers.{LetsAnswerOrText, LetsAnyLine};

use audit_io::keeper::Keeper;
use audit_io::sink::Sink;

/// Proves that a keeper, an output and a standard error that permit everything meet the premises of `audit_plainly`,
/// whatever is due.
pub fn premises_hold_if_all_is_permitted<K: Sink, N: Sink, C: Keeper>()
    ensures lets { ((k : KeeperState) (slot : ℕ) (bytes : List ℕ) → C.lets k slot bytes)
        → (words : List (List ℕ)) (before : World) → LetsDueSaves C.lets words before }
    ensures text { ((s : Stream) (bytes : List ℕ) → K.lets s bytes)
        → (build : Build) (words : List (List ℕ)) (before : World) → LetsAnswerOrText K.lets build words before }
    ensures note { ((s : Stream) (bytes : List ℕ) → N.lets s bytes)
        → (words : List (List ℕ)) (before : World) (start : Stream) → LetsAnyLine N.lets words before start }
{}
