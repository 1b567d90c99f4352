//! The answer to arguments that ask for help or the version.

ghost use Rattle.std.specs.Prelude.{◌≡◌, map};
ghost use Rattle.audit_statement.specs.Report.{line};
ghost use Rattle.audit_words.specs.Answers.{WritesAnswer};
ghost use Rattle.audit_words.specs.Arguments as definition;
ghost use Rattle.audit_words.specs.Questions.{answer_to, version_text};
ghost use Rattle.audit_words.specs.Usage.{command_lines, on_lines};
ghost use Rattle.report.specs.AddedText.{AddsText, HasAdded, LetsNext};
ghost use Rattle.audit_statement.specs.DueText.{LetsText};
ghost use Rattle.audit_statement.specs.Accepted.{no_columns};
ghost use Rattle.audit_statement.specs.Note as terms;

use crate::arguments::argument_text;
use crate::build::Build;
use crate::names::names_of;
use crate::question::Question;
use crate::usage::{foot_of, head_of, usage_lines};
use audit_io::sink::Sink;
use audit_model::fault::Name;
use audit_model::setting::Command;
use report::ended::Ended;
use report::note::{add_line, write_diagnostic};
use report::piece::Piece::Text;

/// Writes the lines if `going` is true, which means that no earlier write failed. Returns true if
/// no write has failed.
pub fn add_lines<O: Sink>(out: &mut O, going: bool, lines: &[&str]) -> bool
    requires { LetsNext O.lets (O.state out.old) going (on_lines (map (λ l. l.now) lines.now)) }
    ensures { AddsText (O.state out.old) (O.state out.new) going (on_lines (map (λ l. l.now) lines.now)) result }
{
    let mut going = going;
    for line in lines {
        going = add_line(out, going, &[], &[Text(line)]);
    }
    going
}

// Writes a line for each argument if `going` is true. Returns true if no write has failed.
fn add_arguments<O: Sink>(out: &mut O, going: bool, names: &[Name]) -> bool
    requires { LetsNext O.lets (O.state out.old) going (on_lines (map definition.argument_text names.now)) }
    ensures { AddsText (O.state out.old) (O.state out.new) going (on_lines (map definition.argument_text names.now)) result }
{
    let mut going = going;
    for name in names {
        going = add_line(out, going, &[], &[Text(argument_text(*name))]);
    }
    going
}

// Writes the usage of a command. Returns true if no write failed.
fn add_command<O: Sink>(out: &mut O, command: Command) -> bool
    requires { LetsText O.lets (O.state out.old) (on_lines (command_lines command)) }
    ensures { HasAdded (O.state out.old) (O.state out.new) (on_lines (command_lines command)) result }
{
    let going = add_lines(out, true, head_of(command));
    let going = add_arguments(out, going, names_of(command));
    add_lines(out, going, foot_of(command))
}

/// Writes the version of a program. Returns true if no write failed.
pub fn add_version<'x, O: Sink>(out: &mut O, program: &'x str, build: &Build<'x>) -> bool
    requires { LetsText O.lets (O.state out.old) (version_text program.now build.now) }
    ensures { HasAdded (O.state out.old) (O.state out.new) (version_text program.now build.now) result }
{
    let going = add_line(
        out,
        true,
        &[],
        &[Text(program), Text(" "), Text(build.version)],
    );
    let going = add_line(out, going, &[], &[Text("commit "), Text(build.commit)]);
    add_line(out, going, &[], &[Text(build.kit)])
}

// Writes the answer to a question. Returns true if no write failed.
fn write_answer<O: Sink>(out: &mut O, build: &Build<'_>, question: Question) -> bool
    requires { LetsText O.lets (O.state out.old) (answer_to build.now question) }
    ensures { HasAdded (O.state out.old) (O.state out.new) (answer_to build.now question) result }
{
    match question {
        Question::Usage => add_lines(out, true, usage_lines()),
        Question::Version => add_version(out, "district-audit", build),
        Question::Arguments(command) => add_command(out, command),
    }
}

/// Writes the auditor's answer to a question. Returns the exit status: 0, or 5 if a write failed,
/// with a line on `note`.
pub fn answer<O: Sink, N: Sink>(
    build: &Build<'_>,
    question: Question,
    out: &mut O,
    note: &mut N,
) -> u8
    requires text { LetsText O.lets (O.state out.old) (answer_to build.now question) }
    requires note { LetsText N.lets (N.state note.old) (terms.note no_columns terms.write_fault) }
    ensures { WritesAnswer (answer_to build.now question) (O.state out.old) (O.state out.new) (N.state note.old) (N.state note.new) result }
{
    if write_answer(out, build, question) {
        return 0;
    }
    write_diagnostic(&Ended::WriteFault, note)
}
