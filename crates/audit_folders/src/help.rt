//! The answers of the folder programs to arguments that ask for help or the version.

ghost use Rattle.std.specs.Prelude.{◌≡◌, map, string_bytes};
ghost use Rattle.audit_folders.specs.Helps as definition;
ghost use Rattle.audit_words.specs.Answers.{WritesAnswer};
ghost use Rattle.report.specs.AddedText.{HasAdded};
ghost use Rattle.audit_statement.specs.DueText.{LetsText};
ghost use Rattle.audit_statement.specs.Accepted.{no_columns};
ghost use Rattle.audit_statement.specs.Note.{note as note_of, write_fault};

use audit_io::sink::Sink;
use audit_words::{Build, Question, add_lines, add_version, question_of_word};
use report::ended::Ended;
use report::note::write_diagnostic;

const SLOTS_USAGE: [&str; 17] = [
    "usage: audit_slots [FOLDER] [COMMAND NAME VALUE ..]",
    "       audit_slots --help|-h",
    "       audit_slots --version",
    "",
    "Tells what the checkpoint files of a folder hold, which is the newest, and how far a",
    "run is. FOLDER is the working folder by default. COMMAND is run or make, with the",
    "arguments of the run, as district-audit takes them; the graph of run is read from",
    "standard input. No file is changed.",
    "",
    "Statuses:",
    "   0  done",
    "   1  the arguments are refused",
    "   2  the graph or its plan is refused",
    "   3  out of memory",
    "   4  a read failed",
    "   5  a write failed",
    "   6  a checkpoint could not be loaded",
];

const GATHER_USAGE: [&str; 19] = [
    "usage: audit_gather [--look yes|no] FOLDER .. COMMAND NAME VALUE ..",
    "       audit_gather --help|-h",
    "       audit_gather --version",
    "",
    "Adds what the checkpoint files of the folders hold of one run to those of the working",
    "folder. With --look yes (default no) it tells what it finds, and saves nothing.",
    "COMMAND is run or make, with the arguments of the run, as district-audit takes them;",
    "the graph of run is read from standard input.",
    "",
    "Statuses:",
    "   0  done",
    "   1  the arguments are refused",
    "   2  the graph or its plan is refused",
    "   3  out of memory",
    "   4  a read failed",
    "   5  a write failed",
    "   6  a checkpoint could not be loaded",
    "   9  the checkpoint could not be saved",
    "  10  a folder cannot be gathered; nothing was saved",
];

/// The programs that work on folders of checkpoint files.
#[derive(Clone, Copy)]
pub enum FolderProgram {
    /// `audit_slots`.
    Slots,
    /// `audit_gather`.
    Gather,
}

// Returns the name of the program.
fn program_name(program: FolderProgram) -> &'static str
    ensures { result.now ≡ definition.program_name program }
{
    match program {
        FolderProgram::Slots => "audit_slots",
        FolderProgram::Gather => "audit_gather",
    }
}

// Returns the lines of the program's usage.
fn usage_of(program: FolderProgram) -> &'static [&'static str]
    ensures { map (λ l. l.now) result.now ≡ definition.folder_usage program }
{
    match program {
        FolderProgram::Slots => &SLOTS_USAGE,
        FolderProgram::Gather => &GATHER_USAGE,
    }
}

// Returns the question of a single argument.
fn single_question(word: &str) -> Option<Question>
    ensures { result ≡ definition.single_question word.now }
{
    if word == "-h" {
        return Some(Question::Usage);
    }
    question_of_word(word)
}

// Returns the question of the arguments.
fn folder_question(words: &[String]) -> Option<Question>
    ensures { result ≡ definition.folder_question (map string_bytes words.now) }
{
    match words {
        [word] => single_question(word.as_str()),
        _ => None,
    }
}

// Writes the answer to a question. Returns true if no write failed.
fn write_answer<O: Sink>(
    program: FolderProgram,
    build: &Build<'_>,
    question: Question,
    out: &mut O,
) -> bool
    requires { LetsText O.lets (O.state out.old) (definition.folder_answer program build.now question) }
    ensures { HasAdded (O.state out.old) (O.state out.new) (definition.folder_answer program build.now question) result }
{
    match question {
        Question::Usage => add_lines(out, true, usage_of(program)),
        Question::Version => add_version(out, program_name(program), build),
        // No arguments ask this question, because the folder programs have no commands of their
        // own.
        Question::Arguments(_) => true,
    }
}

// Writes the answer to a question. Returns the exit status: 0, or 5 if a write failed.
fn answer_question<O: Sink, N: Sink>(
    program: FolderProgram,
    build: &Build<'_>,
    question: Question,
    out: &mut O,
    note: &mut N,
) -> u8
    requires text { LetsText O.lets (O.state out.old) (definition.folder_answer program build.now question) }
    requires note { LetsText N.lets (N.state note.old) (note_of no_columns write_fault) }
    ensures { WritesAnswer (definition.folder_answer program build.now question) (O.state out.old) (O.state out.new) (N.state note.old) (N.state note.new) result }
{
    if write_answer(program, build, question, out) {
        return 0;
    }
    write_diagnostic(&Ended::WriteFault, note)
}

/// Answers arguments that ask for help or the version. Returns the exit status: 0, or 5 if a write
/// failed, with a line on `note`.
///
/// Returns `None` for all other arguments, and writes nothing.
pub fn answer_words<O: Sink, N: Sink>(
    program: FolderProgram,
    build: &Build<'_>,
    words: &[String],
    out: &mut O,
    note: &mut N,
) -> Option<u8>
    requires text { definition.LetsAnswer O.lets program build.now (definition.folder_question (map string_bytes words.now)) (O.state out.old) }
    requires note { LetsText N.lets (N.state note.old) (note_of no_columns write_fault) }
    ensures { definition.AnswersWords program build.now (definition.folder_question (map string_bytes words.now)) (O.state out.old) (O.state out.new) (N.state note.old) (N.state note.new) result }
{
    match folder_question(words) {
        None => None,
        Some(question) => Some(answer_question(program, build, question, out, note)),
    }
}
