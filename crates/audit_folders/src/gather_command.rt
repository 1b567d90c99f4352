//! Merges the outcomes that runs of one job have saved in several folders, such as those of its parts on several
//! machines.
//!
//! The first arguments are the folders. The first command begins the arguments of a run of the job, whose graph is the
//! source. The outcomes of the job in the newest slot of each folder are added to those in the slots of the working
//! folder. Nothing is saved if a folder holds no checkpoint of the job, or if two folders have different outcomes of
//! one trajectory. A run that resumes in the working folder then walks the pending trajectories. With `--look yes`
//! before the folders, the program only reports the progress of each folder and of the job. It then takes no lock and
//! saves nothing.

ghost use Rattle.std.specs.Prelude.{◌≡◌, ◌&&◌, ◌≤◌, ◌∷◌, Ok, [], codes, false, length, map, option_map, string_bytes, true};
ghost use Rattle.audit_folders.specs.DueFolders.{LetsFindings, LetsGatherLine};
ghost use Rattle.audit_folders.specs.GatherProgram as definition;
ghost use Rattle.audit_folders.specs.GatherProgram.{moment};
ghost use Rattle.audit_model.specs.Limits.{most_trajectories};
ghost use Rattle.audit_model.specs.Run.{total};
ghost use Rattle.audit_model.specs.State.{KeeperState, Stream};
ghost use Rattle.audit_statement.specs.Checkpoint.{job_digest};
ghost use Rattle.audit_statement.specs.DueText.{LetsText};
ghost use Rattle.audit_statement.specs.Endings.{AddsLine};
ghost use Rattle.audit_statement.specs.Note.{as_line};
ghost use Rattle.audit_words.specs.ArgumentBytes.{argument_bytes};
ghost use Rattle.ckpt_store.specs.Whole.{LetsGathering};

use crate::gathering::{GatherRequest, gather_and_report};
use crate::job::{end_for, read_job};
use crate::opened::{Folders, open_all};
use crate::slots_command::is_command;
use audit_io::keeper::Keeper;
use audit_io::sink::Sink;
use audit_io::source::Source;
use plan_core::job::Job;
use report::ended::Ended;
use report::note::add_line;
use report::piece::Piece::Text;
use std::alloc::Global;

/// The folders that a call has opened.
#[derive(Drop)]
pub struct Used<K: Keeper + Drop> {
    /// The working folder, if the call has only looked at it.
    pub here: Option<K>,
    /// The folders that the arguments name.
    pub others: Vec<K>,
}

// Reports what the folders hold, and saves nothing.
fn look<'a, F: Folders<'a>, O: Sink, N: Sink>(
    alloc: Global,
    folders: &F,
    job: &Job,
    names: &'a [String],
    out: &mut O,
    note: &mut N,
) -> (u8, Used<F::Slots>)
    requires few { total job.now ≤ most_trajectories }
    requires text { LetsFindings O.lets job.now false (map string_bytes names.now) (F.opens folders.now (codes ".") false) (definition.opened (F.opens folders.now) (map string_bytes names.now) false) (O.state out.old) }
    requires note { LetsGatherLine N.lets job.now false (map string_bytes names.now) (F.opens folders.now (codes ".") false) (definition.opened (F.opens folders.now) (map string_bytes names.now) false) (N.state note.old) }
    ensures { (source source_now : Stream) (keeper : KeeperState) → definition.Gathers false (F.opens folders.now) (map string_bytes names.now) (moment source keeper (O.state out.old) (N.state note.old)) (moment source_now keeper (O.state out.new) (N.state note.new))
        (record { here = option_map (λ k. F.Slots.state k) result.1.here; others = map (λ k. F.Slots.state k) result.1.others.items }) result.0 job.now }
{
    let mut here = folders.open(".", false);
    match open_all(alloc, folders, names, false) {
        Ok(mut others) => {
            let request = GatherRequest {
                job,
                names,
                saves: false,
            };
            let status = gather_and_report(
                alloc,
                &request,
                &mut here,
                others.as_mut_slice(),
                out,
                note,
            );
            let here = Some(here);
            (status, Used { here, others })
        }
        Err(_) => {
            let status = end_for(Ended::NoMemory, note);
            let here = Some(here);
            let others = Vec::new(alloc);
            (status, Used { here, others })
        }
    }
}

// Gathers the folders into the slots of the working folder.
fn gather_here<'a, F: Folders<'a>, C: Keeper, O: Sink, N: Sink>(
    alloc: Global,
    folders: &F,
    keeper: &mut C,
    job: &Job,
    names: &'a [String],
    out: &mut O,
    note: &mut N,
) -> (u8, Used<F::Slots>)
    requires few { total job.now ≤ most_trajectories }
    requires lets { LetsGathering C.lets job.now (job_digest job.now) true (C.state keeper.old).slots (C.state keeper.old).attempted (definition.opened (F.opens folders.now) (map string_bytes names.now) true) }
    requires text { LetsFindings O.lets job.now true (map string_bytes names.now) (C.state keeper.old) (definition.opened (F.opens folders.now) (map string_bytes names.now) true) (O.state out.old) }
    requires note { LetsGatherLine N.lets job.now true (map string_bytes names.now) (C.state keeper.old) (definition.opened (F.opens folders.now) (map string_bytes names.now) true) (N.state note.old) }
    ensures { (source source_now : Stream) → definition.Gathers true (F.opens folders.now) (map string_bytes names.now) (moment source (C.state keeper.old) (O.state out.old) (N.state note.old)) (moment source_now (C.state keeper.new) (O.state out.new) (N.state note.new))
        (record { here = option_map (λ k. F.Slots.state k) result.1.here; others = map (λ k. F.Slots.state k) result.1.others.items }) result.0 job.now }
{
    match open_all(alloc, folders, names, true) {
        Ok(mut others) => {
            let request = GatherRequest {
                job,
                names,
                saves: true,
            };
            let status = gather_and_report(
                alloc,
                &request,
                keeper,
                others.as_mut_slice(),
                out,
                note,
            );
            (status, Used { here: None, others })
        }
        Err(_) => {
            let status = end_for(Ended::NoMemory, note);
            let others = Vec::new(alloc);
            (status, Used { here: None, others })
        }
    }
}

// Gathers the folders of the job, or only reports what they hold if `saves` is false.
fn gather_job<'a, F: Folders<'a>, C: Keeper, O: Sink, N: Sink>(
    alloc: Global,
    folders: &F,
    keeper: &mut C,
    job: &Job,
    names: &'a [String],
    saves: bool,
    out: &mut O,
    note: &mut N,
) -> (u8, Used<F::Slots>)
    requires few { total job.now ≤ most_trajectories }
    requires lets { saves ≡ true → LetsGathering C.lets job.now (job_digest job.now) true (C.state keeper.old).slots (C.state keeper.old).attempted (definition.opened (F.opens folders.now) (map string_bytes names.now) true) }
    requires text { LetsFindings O.lets job.now saves (map string_bytes names.now) (definition.start saves (F.opens folders.now) (C.state keeper.old)) (definition.opened (F.opens folders.now) (map string_bytes names.now) saves) (O.state out.old) }
    requires note { LetsGatherLine N.lets job.now saves (map string_bytes names.now) (definition.start saves (F.opens folders.now) (C.state keeper.old)) (definition.opened (F.opens folders.now) (map string_bytes names.now) saves) (N.state note.old) }
    ensures { (source source_now : Stream) → definition.Gathers saves (F.opens folders.now) (map string_bytes names.now) (moment source (C.state keeper.old) (O.state out.old) (N.state note.old)) (moment source_now (C.state keeper.new) (O.state out.new) (N.state note.new))
        (record { here = option_map (λ k. F.Slots.state k) result.1.here; others = map (λ k. F.Slots.state k) result.1.others.items }) result.0 job.now }
{
    if saves {
        return gather_here(alloc, folders, keeper, job, names, out, note);
    }
    look(alloc, folders, job, names, out, note)
}

// Tells the proof that the job has at most 100,000 trajectories.
fn bound_trajectories(job: &Job)
    ensures { total job.now ≤ most_trajectories }
{
    let _total = job.total();
}

// Gathers the folders for the job of these arguments, or only reports what they hold if `saves` is false.
fn gather_named<'a, S: Source, F: Folders<'a>, C: Keeper, O: Sink, N: Sink>(
    alloc: Global,
    words: &[String],
    source: &mut S,
    folders: &F,
    keeper: &mut C,
    names: &'a [String],
    saves: bool,
    out: &mut O,
    note: &mut N,
) -> (u8, Used<F::Slots>)
    requires lets { definition.LetsSaveNamed C.lets saves (F.opens folders.now) (argument_bytes names.now) (argument_bytes words.now) (moment (S.state source.old) (C.state keeper.old) (O.state out.old) (N.state note.old)) }
    requires text { definition.LetsFoundNamed O.lets saves (F.opens folders.now) (argument_bytes names.now) (argument_bytes words.now) (moment (S.state source.old) (C.state keeper.old) (O.state out.old) (N.state note.old)) }
    requires note { definition.LetsNotedNamed N.lets saves (F.opens folders.now) (argument_bytes names.now) (argument_bytes words.now) (moment (S.state source.old) (C.state keeper.old) (O.state out.old) (N.state note.old)) }
    ensures { definition.GathersNamed saves (F.opens folders.now) (argument_bytes names.now) (argument_bytes words.now) (moment (S.state source.old) (C.state keeper.old) (O.state out.old) (N.state note.old)) (moment (S.state source.new) (C.state keeper.new) (O.state out.new) (N.state note.new))
        (record { here = option_map (λ k. F.Slots.state k) result.1.here; others = map (λ k. F.Slots.state k) result.1.others.items }) result.0 }
{
    match read_job(alloc, words, source) {
        Ok(job) => {
            // This call only tells the proof that the job has at most 100,000 trajectories.
            bound_trajectories(&job);
            let gathered = gather_job(alloc, folders, keeper, &job, names, saves, out, note);
            drop(job);
            gathered
        }
        Err(why) => (end_for(why, note), nothing_used(alloc)),
    }
}

/// Returns no folders.
pub fn nothing_used<K: Keeper + Drop>(alloc: Global) -> Used<K> {
    Used {
        here: None,
        others: Vec::new(alloc),
    }
}

/// Refuses the arguments with this line, and returns the exit status.
pub fn refuse<N: Sink>(line: &str, note: &mut N) -> u8
    requires { LetsText N.lets (N.state note.old) (as_line (line.now ∷ [])) }
    ensures status { result ≡ 1 }
    ensures observed { AddsLine (N.state note.old) (N.state note.new) (as_line (line.now ∷ [])) }
{
    // The line is the last output, so nothing depends on the result.
    let _ended = add_line(note, true, &[], &[Text(line)]);
    1
}

// Returns true if the arguments begin with `--look`.
fn begins_with_look(words: &[String]) -> bool
    ensures look { result ≡ definition.begins_with_look (argument_bytes words.now) }
    ensures some { result ≡ true → 1 ≤ length words.now }
{
    match words.split_first() {
        Some((word, _)) => word.as_str() == "--look",
        None => false,
    }
}

// Returns what the value of `--look` says, or `None` if it is neither `yes` nor `no`.
fn look_value(words: &[String]) -> Option<bool>
    ensures { result ≡ definition.look_value (argument_bytes words.now) }
{
    match words.split_first() {
        Some((word, _)) => {
            let word = word.as_str();
            if word == "yes" {
                Some(true)
            } else if word == "no" {
                Some(false)
            } else {
                None
            }
        }
        None => None,
    }
}

// Returns true if the call only looks, or `None` if the value of `--look` is bad.
fn look_option(words: &[String]) -> Option<bool>
    ensures { result ≡ definition.look_option (argument_bytes words.now) }
{
    if begins_with_look(words) {
        return look_value(&words[1..]);
    }
    Some(false)
}

// Returns the arguments after `--look` and its value.
fn after_look(words: &[String]) -> &[String]
    ensures { argument_bytes result.now ≡ definition.after_look (argument_bytes words.now) }
{
    if begins_with_look(words) {
        return &words[words.len().min(2)..];
    }
    words
}

// Returns the number of folders, which are the words before the first command.
fn count_folders(words: &[String]) -> usize
    ensures count { result ≡ definition.count_folders (argument_bytes words.now) }
    ensures within { result ≤ length words.now }
{
    let mut count = 0;
    for word in words {
        if is_command(word.as_str()) {
            return count;
        }
        count += 1;
    }
    count
}

// Returns the folders, which are the words before the first command.
fn folders_in(words: &[String]) -> &[String]
    ensures { argument_bytes result.now ≡ definition.folders_in (argument_bytes words.now) }
{
    &words[..count_folders(words)]
}

// Returns the arguments of the run, from the first command on.
fn run_part(words: &[String]) -> &[String]
    ensures { argument_bytes result.now ≡ definition.run_part (argument_bytes words.now) }
{
    &words[count_folders(words)..]
}

// Returns true if a gathering is to save and names no folder.
fn lacks_folder(saves: bool, names: &[String]) -> bool
    ensures { result ≡ (saves && definition.is_none_named (argument_bytes names.now)) }
{
    saves && names.is_empty()
}

// Gathers the folders for the job of the arguments after them, or only reports what they hold if `saves` is false.
fn gather_some<'a, S: Source, F: Folders<'a>, C: Keeper, O: Sink, N: Sink>(
    alloc: Global,
    words: &[String],
    source: &mut S,
    folders: &F,
    keeper: &mut C,
    names: &'a [String],
    saves: bool,
    out: &mut O,
    note: &mut N,
) -> (u8, Used<F::Slots>)
    requires lets { definition.LetsSaveNamed C.lets saves (F.opens folders.now) (argument_bytes names.now) (argument_bytes words.now) (moment (S.state source.old) (C.state keeper.old) (O.state out.old) (N.state note.old)) }
    requires text { definition.LetsFoundNamed O.lets saves (F.opens folders.now) (argument_bytes names.now) (argument_bytes words.now) (moment (S.state source.old) (C.state keeper.old) (O.state out.old) (N.state note.old)) }
    requires no_folder { (saves && definition.is_none_named (argument_bytes names.now)) ≡ true → LetsText N.lets (N.state note.old) (as_line (codes "words: no folder" ∷ [])) }
    requires note { (saves && definition.is_none_named (argument_bytes names.now)) ≡ false → definition.LetsNotedNamed N.lets saves (F.opens folders.now) (argument_bytes names.now) (argument_bytes words.now) (moment (S.state source.old) (C.state keeper.old) (O.state out.old) (N.state note.old)) }
    ensures { definition.GathersSome (saves && definition.is_none_named (argument_bytes names.now)) saves (F.opens folders.now) (argument_bytes names.now) (argument_bytes words.now) (moment (S.state source.old) (C.state keeper.old) (O.state out.old) (N.state note.old)) (moment (S.state source.new) (C.state keeper.new) (O.state out.new) (N.state note.new))
        (record { here = option_map (λ k. F.Slots.state k) result.1.here; others = map (λ k. F.Slots.state k) result.1.others.items }) result.0 }
{
    if lacks_folder(saves, names) {
        return (refuse("words: no folder", note), nothing_used(alloc));
    }
    gather_named(
        alloc, words, source, folders, keeper, names, saves, out, note,
    )
}

// Splits the folders from the arguments of a run, and gathers, or only looks if `saves` is false.
fn gather_words<'a, S: Source, F: Folders<'a>, C: Keeper, O: Sink, N: Sink>(
    alloc: Global,
    words: &'a [String],
    source: &mut S,
    folders: &F,
    keeper: &mut C,
    saves: bool,
    out: &mut O,
    note: &mut N,
) -> (u8, Used<F::Slots>)
    requires lets { definition.LetsSaveNamed C.lets saves (F.opens folders.now) (definition.folders_in (argument_bytes words.now)) (definition.run_part (argument_bytes words.now)) (moment (S.state source.old) (C.state keeper.old) (O.state out.old) (N.state note.old)) }
    requires text { definition.LetsFoundNamed O.lets saves (F.opens folders.now) (definition.folders_in (argument_bytes words.now)) (definition.run_part (argument_bytes words.now)) (moment (S.state source.old) (C.state keeper.old) (O.state out.old) (N.state note.old)) }
    requires note { definition.LetsNotedWords N.lets saves (F.opens folders.now) (argument_bytes words.now) (moment (S.state source.old) (C.state keeper.old) (O.state out.old) (N.state note.old)) }
    ensures { definition.GathersWords saves (F.opens folders.now) (argument_bytes words.now) (moment (S.state source.old) (C.state keeper.old) (O.state out.old) (N.state note.old)) (moment (S.state source.new) (C.state keeper.new) (O.state out.new) (N.state note.new))
        (record { here = option_map (λ k. F.Slots.state k) result.1.here; others = map (λ k. F.Slots.state k) result.1.others.items }) result.0 }
{
    let names = folders_in(words);
    let arguments = run_part(words);
    gather_some(
        alloc, arguments, source, folders, keeper, names, saves, out, note,
    )
}

/// Gathers the folders that the arguments name, or only reports what they hold. Returns the exit status and the folders
/// that were opened.
pub fn gather_by<'a, S: Source, F: Folders<'a>, C: Keeper, O: Sink, N: Sink>(
    alloc: Global,
    words: &'a [String],
    source: &mut S,
    folders: &F,
    keeper: &mut C,
    out: &mut O,
    note: &mut N,
) -> (u8, Used<F::Slots>)
    requires lets { definition.LetsSave C.lets (F.opens folders.now) (argument_bytes words.now) (moment (S.state source.old) (C.state keeper.old) (O.state out.old) (N.state note.old)) }
    requires text { definition.LetsFound O.lets (F.opens folders.now) (argument_bytes words.now) (moment (S.state source.old) (C.state keeper.old) (O.state out.old) (N.state note.old)) }
    requires note { definition.LetsNoted N.lets (F.opens folders.now) (argument_bytes words.now) (moment (S.state source.old) (C.state keeper.old) (O.state out.old) (N.state note.old)) }
    ensures { definition.GathersFolders (F.opens folders.now) (argument_bytes words.now) (moment (S.state source.old) (C.state keeper.old) (O.state out.old) (N.state note.old)) (moment (S.state source.new) (C.state keeper.new) (O.state out.new) (N.state note.new))
        (record { here = option_map (λ k. F.Slots.state k) result.1.here; others = map (λ k. F.Slots.state k) result.1.others.items }) result.0 }
{
    match look_option(words) {
        Some(looks) => {
            let arguments = after_look(words);
            gather_words(alloc, arguments, source, folders, keeper, !looks, out, note)
        }
        None => (
            refuse("words: bad value for --look", note),
            nothing_used(alloc),
        ),
    }
}
