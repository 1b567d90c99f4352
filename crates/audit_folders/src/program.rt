//! The program of folders: what each name and each argument asks for, as one call.

ghost use Rattle.std.specs.Prelude.{◌≡◌, Bool, List, ℕ, Option, drop, is_some, map, option_map};
ghost use Rattle.audit_folders.specs.GatherProgram.{LetsFound, LetsNoted, LetsSave, Moment, moment};
ghost use Rattle.audit_folders.specs.Helps.{LetsAnswer, folder_question as question_by};
ghost use Rattle.audit_folders.specs.Programs as definition;
ghost use Rattle.audit_folders.specs.Programs.{PermitsSaves, PermitsText};
ghost use Rattle.audit_folders.specs.SlotsProgram.{LetsShown, LetsShownLine};
ghost use Rattle.audit_folders.specs.declared.help.FolderProgram.{FolderProgram as ProgramValue};
ghost use Rattle.audit_model.specs.Pair.{Pair};
ghost use Rattle.audit_model.specs.State.{KeeperState, Stream};
ghost use Rattle.audit_statement.specs.DueText.{LetsText};
ghost use Rattle.audit_words.specs.ArgumentBytes.{argument_bytes};
ghost use Rattle.audit_words.specs.declared.build.Build.{Build as BuildValue};
ghost use Rattle.audit_words.specs.declared.question.Question.{Question};

use crate::gather_command::{Used, gather_by, nothing_used, refuse};
use crate::help::{FolderProgram, answer_words};
use crate::opened::Folders;
use crate::slots_command::show_by;
use audit_io::keeper::Keeper;
use audit_io::sink::Sink;
use audit_io::source::Source;
use audit_words::Build;
use std::alloc::Global;

// This call only tells the proof that a keeper and sinks that permit everything permit what is due.
fn permit_what_is_due<C: Keeper, O: Sink, N: Sink>()
    ensures save { PermitsSaves C.lets → (opens : List ℕ → Bool → KeeperState) (words : List (List ℕ)) (before : Moment) → LetsSave C.lets opens words before }
    ensures found { PermitsText O.lets → (opens : List ℕ → Bool → KeeperState) (words : List (List ℕ)) (before : Moment) → LetsFound O.lets opens words before }
    ensures noted { PermitsText N.lets → (opens : List ℕ → Bool → KeeperState) (words : List (List ℕ)) (before : Moment) → LetsNoted N.lets opens words before }
    ensures shown { PermitsText O.lets → (words : List (List ℕ)) (source : Stream) (slots : Option Pair) (out : Stream) → LetsShown O.lets words source slots out }
    ensures line { PermitsText N.lets → (words : List (List ℕ)) (source note_before : Stream) → LetsShownLine N.lets words source note_before }
    ensures answer { PermitsText O.lets → (program : ProgramValue) (build : BuildValue) (question : Option Question) (out : Stream) → LetsAnswer O.lets program build question out }
    ensures text { PermitsText N.lets → (s : Stream) (text : List ℕ) → LetsText N.lets s text }
{}

// Runs the program with these arguments.
fn run_asked<'a, S: Source, F: Folders<'a>, C: Keeper, O: Sink, N: Sink>(
    alloc: Global,
    program: FolderProgram,
    words: &'a [String],
    source: &mut S,
    folders: &F,
    keeper: &mut C,
    out: &mut O,
    note: &mut N,
) -> (u8, Used<F::Slots>)
    requires lets { PermitsSaves C.lets }
    requires text { PermitsText O.lets }
    requires note { PermitsText N.lets }
    ensures { definition.RunsAsked program (F.opens folders.now) (argument_bytes words.now) (moment (S.state source.old) (C.state keeper.old) (O.state out.old) (N.state note.old)) (moment (S.state source.new) (C.state keeper.new) (O.state out.new) (N.state note.new))
        (record { here = option_map (λ k. F.Slots.state k) result.1.here; others = map (λ k. F.Slots.state k) result.1.others.items }) result.0 }
{
    permit_what_is_due::<C, O, N>();
    match program {
        FolderProgram::Slots => {
            let (status, here) = show_by(alloc, words, source, folders, out, note);
            let others = Vec::new(alloc);
            (status, Used { here, others })
        }
        FolderProgram::Gather => gather_by(alloc, words, source, folders, keeper, out, note),
    }
}

// Answers arguments that ask for help or the version, and otherwise runs the program.
fn run_or_answer<'a, S: Source, F: Folders<'a>, C: Keeper, O: Sink, N: Sink>(
    alloc: Global,
    build: &Build<'_>,
    program: FolderProgram,
    words: &'a [String],
    source: &mut S,
    folders: &F,
    keeper: &mut C,
    out: &mut O,
    note: &mut N,
) -> (u8, Used<F::Slots>)
    requires lets { PermitsSaves C.lets }
    requires text { PermitsText O.lets }
    requires note { PermitsText N.lets }
    ensures { definition.RunsOrAnswers (question_by (argument_bytes words.now)) build.now program (F.opens folders.now) (argument_bytes words.now) (moment (S.state source.old) (C.state keeper.old) (O.state out.old) (N.state note.old)) (moment (S.state source.new) (C.state keeper.new) (O.state out.new) (N.state note.new))
        (record { here = option_map (λ k. F.Slots.state k) result.1.here; others = map (λ k. F.Slots.state k) result.1.others.items }) result.0 }
{
    permit_what_is_due::<C, O, N>();
    match answer_words(program, build, words, out, note) {
        Some(status) => (status, nothing_used(alloc)),
        None => run_asked(alloc, program, words, source, folders, keeper, out, note),
    }
}

// Returns the program whose name was called.
fn called_program(name: &str) -> Option<FolderProgram>
    ensures { result ≡ definition.called_program name.now }
{
    let name = name.as_bytes();
    if name.ends_with(b"audit_slots") {
        return Some(FolderProgram::Slots);
    }
    if name.ends_with(b"audit_gather") {
        return Some(FolderProgram::Gather);
    }
    None
}

// Returns the program that the first argument names.
fn named_program(words: &[String]) -> Option<FolderProgram>
    ensures { result ≡ definition.named_program (argument_bytes words.now) }
{
    match words.split_first() {
        Some((word, _)) => {
            let word = word.as_str();
            if word == "slots" {
                Some(FolderProgram::Slots)
            } else if word == "gather" {
                Some(FolderProgram::Gather)
            } else {
                None
            }
        }
        None => None,
    }
}

// Returns the program whose name was called, or else the one that the first argument names.
fn program_of(words: &[String]) -> Option<FolderProgram>
    ensures { result ≡ definition.program_of (argument_bytes words.now) }
{
    match words.split_first() {
        Some((name, rest)) => match called_program(name.as_str()) {
            Some(program) => Some(program),
            None => named_program(rest),
        },
        None => None,
    }
}

// Returns the arguments after the first.
fn after_first(words: &[String]) -> &[String]
    ensures { argument_bytes result.now ≡ drop 1 (argument_bytes words.now) }
{
    match words.split_first() {
        Some((_, rest)) => rest,
        None => words,
    }
}

// Returns true if the program's name was called.
fn is_called(name: &str) -> bool
    ensures { result ≡ is_some (definition.called_program name.now) }
{
    called_program(name).is_some()
}

// Returns the arguments after those that name the program.
fn arguments_of(words: &[String]) -> &[String]
    ensures { argument_bytes result.now ≡ definition.arguments_of (argument_bytes words.now) }
{
    match words.split_first() {
        Some((name, rest)) => {
            if is_called(name.as_str()) {
                rest
            } else {
                after_first(rest)
            }
        }
        None => words,
    }
}

// Runs the program, if there is one, with these arguments.
fn run_named<'a, S: Source, F: Folders<'a>, C: Keeper, O: Sink, N: Sink>(
    alloc: Global,
    build: &Build<'_>,
    program: Option<FolderProgram>,
    words: &'a [String],
    source: &mut S,
    folders: &F,
    keeper: &mut C,
    out: &mut O,
    note: &mut N,
) -> (u8, Used<F::Slots>)
    requires lets { PermitsSaves C.lets }
    requires text { PermitsText O.lets }
    requires note { PermitsText N.lets }
    ensures { definition.RunsBy program build.now (F.opens folders.now) (argument_bytes words.now) (moment (S.state source.old) (C.state keeper.old) (O.state out.old) (N.state note.old)) (moment (S.state source.new) (C.state keeper.new) (O.state out.new) (N.state note.new))
        (record { here = option_map (λ k. F.Slots.state k) result.1.here; others = map (λ k. F.Slots.state k) result.1.others.items }) result.0 }
{
    permit_what_is_due::<C, O, N>();
    match program {
        Some(program) => run_or_answer(
            alloc, build, program, words, source, folders, keeper, out, note,
        ),
        None => (
            refuse("words: neither slots nor gather", note),
            nothing_used(alloc),
        ),
    }
}

/// Runs the program whose name was called, or else the one that the first argument names. `words` has the name by which
/// the program was called and its arguments. Returns the exit status and the folders that were opened.
///
/// The text goes to `out`, and the reason of each status but 0 to `note`. `source` gives the graph of a run. `folders`
/// opens the folders that the arguments name, and the working folder for a look. `keeper` has the slots of the working
/// folder, in which a gathering saves. `build` is the build that `--version` reports.
pub fn run_program<'a, S: Source, F: Folders<'a>, C: Keeper, O: Sink, N: Sink>(
    alloc: Global,
    build: &Build<'_>,
    words: &'a [String],
    source: &mut S,
    folders: &F,
    keeper: &mut C,
    out: &mut O,
    note: &mut N,
) -> (u8, Used<F::Slots>)
    requires lets { PermitsSaves C.lets }
    requires text { PermitsText O.lets }
    requires note { PermitsText N.lets }
    ensures { definition.RunsProgram build.now (F.opens folders.now) (argument_bytes words.now) (moment (S.state source.old) (C.state keeper.old) (O.state out.old) (N.state note.old)) (moment (S.state source.new) (C.state keeper.new) (O.state out.new) (N.state note.new))
        (record { here = option_map (λ k. F.Slots.state k) result.1.here; others = map (λ k. F.Slots.state k) result.1.others.items }) result.0 }
{
    let program = program_of(words);
    let arguments = arguments_of(words);
    run_named(
        alloc, build, program, arguments, source, folders, keeper, out, note,
    )
}
