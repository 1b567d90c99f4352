//! The diagnostics of refused arguments.

ghost use Rattle.std.specs.Prelude.{◌≡◌, map};
ghost use Rattle.report.specs.Pieces.{piece_text};
ghost use Rattle.audit_model.specs.Names.{name_text};
ghost use Rattle.audit_statement.specs.Note as terms;

use crate::note::line::{Line, text_line, words_line};
use audit_model::fault::{Name, WordFault};

/// Makes the diagnostic of refused arguments.
pub(crate) fn word_line(fault: &WordFault) -> Line<'_>
    ensures { terms.as_line (map piece_text result) ≡ terms.as_line (terms.word_note fault.now) }
{
    match fault {
        WordFault::NoCommand => text_line("no command"),
        WordFault::UnknownCommand(word) => words_line("unknown command ", word.as_str()),
        WordFault::UnknownName(word) => words_line("unknown name ", word.as_str()),
        WordFault::Twice(name) => words_line(spelling_of(name), " is given twice"),
        WordFault::NoValue(name) => words_line("no value for ", spelling_of(name)),
        WordFault::MissingName(name) => words_line(spelling_of(name), " is missing"),
        WordFault::BadValue(name) => words_line("bad value for ", spelling_of(name)),
        WordFault::PairsNeedTwoWalks => text_line("pairs need two walks"),
        WordFault::Memory => text_line("memory"),
    }
}

// Returns the spelling of an argument name.
fn spelling_of<'a>(name: &Name) -> &'a str
    ensures { result.now ≡ name_text name.now }
{
    name.text()
}
