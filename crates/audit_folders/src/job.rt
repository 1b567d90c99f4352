//! The job of a run's arguments and of the graph.

ghost use Rattle.std.specs.Prelude.{◌≡◌, ◌⊎◌, Err, option_map};
ghost use Rattle.audit_model.specs.declared.fault.WordFault.TheVariants as fault;
ghost use Rattle.audit_folders.specs.Jobs as definition;
ghost use Rattle.audit_statement.specs.DueText.{LetsText};
ghost use Rattle.audit_statement.specs.Endings.{WritesEnding};
ghost use Rattle.audit_statement.specs.Status.{line_of, status_of};
ghost use Rattle.audit_words.specs.ArgumentBytes.{argument_bytes};
ghost use Rattle.report.specs.Ended.{columns_kept, ending_of as reason_of};

use audit_io::sink::Sink;
use audit_io::source::Source;
use audit_model::fault::WordFault;
use audit_model::text::Text;
use audit_start::prepare::prepare;
use plan_core::job::Job;
use report::ended::Ended;
use report::note::write_diagnostic;
use std::alloc::Global;

// Returns true if the word is a command that saves nothing.
fn is_idle(word: &str) -> bool
    ensures { result ≡ definition.is_idle word.now }
{
    word == "check" || word == "plans" || word == "trace"
}

// Returns the command of the arguments if it is one that saves nothing.
fn idle_command(words: &[String]) -> Option<&str>
    ensures { option_map (λ s. s.now) result ≡ definition.idle_command (argument_bytes words.now) }
{
    match words.split_first() {
        Some((word, _)) => {
            let word = word.as_str();
            if is_idle(word) { Some(word) } else { None }
        }
        None => None,
    }
}

// Returns the refusal of a command that saves nothing, as an unknown command.
fn no_run(alloc: Global, command: &str) -> Ended
    ensures { (result ≡ Ended.NoMemory) ⊎ (result ≡ Ended.BadWords (fault.UnknownCommand command.now)) }
{
    let mut word = Text::new(alloc);
    match word.push_str(command) {
        Ok(()) => Ended::BadWords(WordFault::UnknownCommand(word)),
        Err(_) => Ended::NoMemory,
    }
}

/// Makes the job of the arguments of a run and of the bytes of the source, or returns the reason why there is none.
/// A command that saves nothing is refused as an unknown one.
pub fn read_job<S: Source>(alloc: Global, words: &[String], source: &mut S) -> Result<Job, Ended>
    ensures { definition.HasJob (argument_bytes words.now) (S.state source.old) (S.state source.new) result }
{
    match idle_command(words) {
        Some(command) => Err(no_run(alloc, command)),
        None => prepare(alloc, words, source),
    }
}

/// Writes the diagnostic of the reason why the call ends, and returns the exit status.
pub fn end_for<N: Sink>(why: Ended, note: &mut N) -> u8
    requires { LetsText N.lets (N.state note.old) (line_of (columns_kept why) (reason_of why)) }
    ensures status { result ≡ status_of (reason_of why) }
    ensures observed { WritesEnding (columns_kept why) (N.state note.old) (N.state note.new) (reason_of why) }
{
    let status = write_diagnostic(&why, note);
    drop(why);
    status
}
