//! Laws of the definitions. Each law is the contract of a function with an empty body.

ghost use Rattle.audit_words.specs.Laws.{ArgumentsKeepLimits, CommandsAreSpelled, QuestionsWereRefused};

/// Proves that arguments that ask for help or the version are never valid arguments of an audit.
pub fn questions_were_refused()
    ensures { QuestionsWereRefused }
{}

/// Proves that each command is parsed from its spelling in the usage.
pub fn commands_are_spelled()
    ensures { CommandsAreSpelled }
{}

/// Proves that a valid value of an argument that takes numbers is within the limits in the usage.
pub fn arguments_keep_limits()
    ensures { ArgumentsKeepLimits }
{}
