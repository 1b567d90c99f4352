//! Reports the contents of a folder's two checkpoint files, and which is the newest. With the arguments and the graph
//! of a run, also reports how many trajectories are done.
//!
//! The first argument is the folder, unless it is a command. Otherwise the files are those of the working folder. The
//! arguments of the run follow, if any, and its graph is then the source. No file is changed, and the outcomes
//! themselves are not shown.

ghost use Rattle.std.specs.Prelude.{◌≡◌, None, Some, false, is_some, option_map};
ghost use Rattle.audit_folders.specs.DueFolders.{LetsShowing, LetsShowingLine};
ghost use Rattle.audit_folders.specs.Gatherings.{Outputs};
ghost use Rattle.audit_folders.specs.Jobs.{EndsWithJob, HasJob, LetsNoJob};
ghost use Rattle.audit_folders.specs.SlotsProgram as definition;
ghost use Rattle.audit_model.specs.Job.{Job as JobValue};
ghost use Rattle.audit_model.specs.State.{Stream};
ghost use Rattle.audit_statement.specs.Words.{command_of as command_by};
ghost use Rattle.audit_words.specs.ArgumentBytes.{argument_bytes};

use crate::job::{end_for, read_job};
use crate::opened::Folders;
use crate::slots::write_slots;
use audit_io::sink::Sink;
use audit_io::source::Source;
use audit_words::names::command_of;
use plan_core::job::Job;
use std::alloc::Global;

// Returns true if the word is a command.
pub(crate) fn is_command(word: &str) -> bool
    ensures { result ≡ is_some (command_by word.now) }
{
    command_of(word).is_some()
}

// Returns the folder that the arguments name, or else the working folder.
fn folder_of(words: &[String]) -> &str
    ensures { result.now ≡ definition.shown_folder (argument_bytes words.now) }
{
    match words.split_first() {
        Some((word, _)) => {
            let word = word.as_str();
            if is_command(word) { "." } else { word }
        }
        None => ".",
    }
}

// Returns the arguments of the run.
fn run_arguments(words: &[String]) -> &[String]
    ensures { argument_bytes result.now ≡ definition.run_arguments (argument_bytes words.now) }
{
    match words.split_first() {
        Some((word, rest)) => {
            if is_command(word.as_str()) {
                words
            } else {
                rest
            }
        }
        None => words,
    }
}

// Reports the slots of the folder, and the progress of the job if there is one. Returns the exit status and the folder.
fn show_folder<'a, F: Folders<'a>, O: Sink, N: Sink>(
    alloc: Global,
    folders: &F,
    folder: &'a str,
    job: Option<&Job>,
    out: &mut O,
    note: &mut N,
) -> (u8, Option<F::Slots>)
    requires text { LetsShowing O.lets (option_map (λ j. j.now) job) (F.opens folders.now folder.now false).slots (O.state out.old) }
    requires note { LetsShowingLine N.lets (N.state note.old) }
    ensures { definition.ShowsFolder (option_map (λ j. j.now) job.entry) (F.opens folders.now folder.now false) (option_map (λ k. F.Slots.state k) result.1)
        (record { out = O.state out.old; note = N.state note.old }) (record { out = O.state out.new; note = N.state note.new }) result.0 }
{
    let mut opened = folders.open(folder, false);
    let status = write_slots(alloc, &mut opened, job, out, note);
    (status, Some(opened))
}

// Reports the slots of the folder and the progress of the job of these arguments.
fn show_job<'a, S: Source, F: Folders<'a>, O: Sink, N: Sink>(
    alloc: Global,
    words: &[String],
    source: &mut S,
    folders: &F,
    folder: &'a str,
    out: &mut O,
    note: &mut N,
) -> (u8, Option<F::Slots>)
    requires text { (after : Stream) (job : JobValue) → HasJob (argument_bytes words.now) (S.state source.old) after (Ok job) → LetsShowing O.lets (Some job) (F.opens folders.now folder.now false).slots (O.state out.old) }
    requires note { LetsShowingLine N.lets (N.state note.old) }
    requires refused { LetsNoJob N.lets (argument_bytes words.now) (S.state source.old) (N.state note.old) }
    ensures { let outputs : Outputs = record { out = O.state out.old; note = N.state note.old } in
        let outputs_now : Outputs = record { out = O.state out.new; note = N.state note.new } in
        EndsWithJob (argument_bytes words.now) (S.state source.old) (S.state source.new) outputs outputs_now result.0 (option_map (λ k. F.Slots.state k) result.1 ≡ None)
        (λ job. definition.ShowsFolder (Some job) (F.opens folders.now folder.now false) (option_map (λ k. F.Slots.state k) result.1) outputs outputs_now result.0) }
{
    match read_job(alloc, words, source) {
        Ok(job) => {
            let shown = show_folder(alloc, folders, folder, Some(&job), out, note);
            drop(job);
            shown
        }
        Err(why) => (end_for(why, note), None),
    }
}

// Reports the slots of the folder. If there are arguments of a run, also reports the progress of their job.
fn show_words<'a, S: Source, F: Folders<'a>, O: Sink, N: Sink>(
    alloc: Global,
    words: &[String],
    source: &mut S,
    folders: &F,
    folder: &'a str,
    out: &mut O,
    note: &mut N,
) -> (u8, Option<F::Slots>)
    requires text { definition.LetsShown O.lets (argument_bytes words.now) (S.state source.old) (F.opens folders.now folder.now false).slots (O.state out.old) }
    requires note { definition.LetsShownLine N.lets (argument_bytes words.now) (S.state source.old) (N.state note.old) }
    ensures { definition.ShowsBy (F.opens folders.now) folder.now (argument_bytes words.now) (S.state source.old) (S.state source.new) (option_map (λ k. F.Slots.state k) result.1)
        (record { out = O.state out.old; note = N.state note.old }) (record { out = O.state out.new; note = N.state note.new }) result.0 }
{
    match words.split_first() {
        None => show_folder(alloc, folders, folder, None, out, note),
        Some(_) => show_job(alloc, words, source, folders, folder, out, note),
    }
}

/// Reports on the folder that the first argument names, or else on the working folder. The arguments of a run may
/// follow. Returns the exit status and the folder, if it was opened.
pub fn show_by<'a, S: Source, F: Folders<'a>, O: Sink, N: Sink>(
    alloc: Global,
    words: &'a [String],
    source: &mut S,
    folders: &F,
    out: &mut O,
    note: &mut N,
) -> (u8, Option<F::Slots>)
    requires text { definition.LetsShown O.lets (definition.run_arguments (argument_bytes words.now)) (S.state source.old) (F.opens folders.now (definition.shown_folder (argument_bytes words.now)) false).slots (O.state out.old) }
    requires note { definition.LetsShownLine N.lets (definition.run_arguments (argument_bytes words.now)) (S.state source.old) (N.state note.old) }
    ensures { definition.ShowsSlots (F.opens folders.now) (argument_bytes words.now) (S.state source.old) (S.state source.new) (option_map (λ k. F.Slots.state k) result.1)
        (record { out = O.state out.old; note = N.state note.old }) (record { out = O.state out.new; note = N.state note.new }) result.0 }
{
    let folder = folder_of(words);
    let arguments = run_arguments(words);
    show_words(alloc, arguments, source, folders, folder, out, note)
}
