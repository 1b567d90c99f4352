//! The arguments that ask for help or the version.

ghost use Rattle.std.specs.Prelude.{◌≡◌};
ghost use Rattle.audit_words.specs.ArgumentBytes.{argument_bytes};
ghost use Rattle.audit_words.specs.Questions as definition;

use crate::command_of;
use audit_model::setting::Command;

/// The questions that arguments can ask.
#[derive(Clone, Copy)]
pub enum Question {
    /// The usage of the program.
    Usage,
    /// The version of the program.
    Version,
    /// The usage of a command.
    Arguments(Command),
}

/// Returns the question of a single argument.
pub fn question_of_word(word: &str) -> Option<Question>
    ensures { result ≡ definition.question_of_word word.now }
{
    if word == "--help" {
        Some(Question::Usage)
    } else if word == "--version" {
        Some(Question::Version)
    } else {
        None
    }
}

// Returns the question of two arguments, the first of which may be a command.
fn question_of_two(word: &str, next: &str) -> Option<Question>
    ensures { result ≡ definition.question_of_two word.now next.now }
{
    if next != "--help" {
        return None;
    }
    match command_of(word) {
        Some(command) => Some(Question::Arguments(command)),
        None => None,
    }
}

/// Returns the question of the auditor's arguments: exactly `--help`, exactly `--version`, or
/// exactly a command and `--help`.
pub fn question_of(words: &[String]) -> Option<Question>
    ensures { result ≡ definition.question_of (argument_bytes words.now) }
{
    match words {
        [word] => question_of_word(word.as_str()),
        [word, next] => question_of_two(word.as_str(), next.as_str()),
        _ => None,
    }
}
