//! The report on the slots of a folder.

ghost use Rattle.std.specs.Prelude.{◌≡◌, ◌⊎◌, ◌++◌, List, ℕ, Option, Some, None, IfErr, IfOk, option_map};
ghost use Rattle.audit_model.specs.Pair.{Pair};
ghost use Rattle.ckpt_store.specs.Holding.{IsLoadedFrom};
ghost use Rattle.ckpt_store.specs.Looked.{HasLookCause};
ghost use Rattle.ckpt_store.specs.Progress as definition;
ghost use Rattle.audit_folders.specs.Gatherings.{IsCutOff, IsWhole, Outputs};
ghost use Rattle.audit_folders.specs.Shown.{HasLoadedBoth, IsShownOf, shown_text};
ghost use Rattle.audit_folders.specs.SlotLines.{EndsShowing, job_text};
ghost use Rattle.report.specs.AddedText.{AddsText, HasAdded, LetsNext};
ghost use Rattle.audit_statement.specs.DueText.{LetsText};
ghost use Rattle.audit_folders.specs.DueFolders.{LetsShowing, LetsShowingLine};
ghost use Rattle.audit_statement.specs.Accepted.{no_columns};
ghost use Rattle.audit_statement.specs.Note.{note as note_of, write_fault};

use crate::slot_lines::{add_newest_line, add_progress_line, add_slot_line};
use audit_io::keeper::Keeper;
use audit_io::sink::Sink;
use audit_model::memory::Memory;
use ckpt_store::look::LookFault;
use ckpt_store::progress::{Progress, progress_of};
use ckpt_store::slot_content::{Loaded, SlotContent, content_of, load_slot, newest};
use plan_core::job::Job;
use report::ended::Ended;
use report::note::write_diagnostic;
use std::alloc::Global;

/// Both slots as they were loaded.
#[derive(Drop)]
struct Both {
    zero: Loaded,
    one: Loaded,
}

/// The report on both slots, before it is written.
#[derive(Drop)]
struct SlotsReport {
    first: SlotContent,
    second: SlotContent,
    progress: Option<Progress>,
    total: u32,
}

/// Reports the contents of a folder's two slots, and which of them is the newest. If a job is given, also reports the
/// job's progress. Saves nothing. Returns the exit status.
///
/// If a slot cannot be loaded or memory runs out, nothing is written to `out`, and a line on `note` gives the reason.
pub fn write_slots<C: Keeper, O: Sink, N: Sink>(
    alloc: Global,
    keeper: &mut C,
    job: Option<&Job>,
    out: &mut O,
    note: &mut N,
) -> u8
    requires text { LetsShowing O.lets (option_map (λ j. j.now) job) (C.state keeper.old).slots (O.state out.old) }
    requires note { LetsShowingLine N.lets (N.state note.old) }
    ensures { EndsShowing (option_map (λ j. j.now) job.entry) (C.state keeper.old) (C.state keeper.new)
        (record { out = O.state out.old; note = N.state note.old }) (record { out = O.state out.new; note = N.state note.new }) result }
{
    match load_both(alloc, keeper) {
        Ok(both) => match report_on(alloc, job, &both) {
            Ok(shown) => show(&shown, out, note),
            Err(_) => write_diagnostic(&Ended::NoMemory, note),
        },
        Err(LookFault::Failed) => write_diagnostic(&Ended::LoadFault, note),
        Err(LookFault::Taken) => write_diagnostic(&Ended::FolderTaken, note),
        Err(LookFault::Memory) => write_diagnostic(&Ended::NoMemory, note),
    }
}

fn load_both<C: Keeper>(alloc: Global, keeper: &mut C) -> Result<Both, LookFault>
    ensures loaded { IfOk result (λ b. HasLoadedBoth (C.state keeper.old).slots b.zero b.one) }
    ensures slots { (C.state keeper.new).slots ≡ (C.state keeper.old).slots }
    ensures cause { HasLookCause (C.state keeper.old).load_faults (C.state keeper.new).load_faults result }
    ensures attempted { (C.state keeper.new).attempted ≡ (C.state keeper.old).attempted }
{
    let zero = load_slot(alloc, keeper, 0)?;
    let one = load_slot(alloc, keeper, 1)?;
    Ok(Both { zero, one })
}

// Returns the report on the slots. The only error is out of memory.
fn report_on(alloc: Global, job: Option<&Job>, both: &Both) -> Result<SlotsReport, Memory>
    ensures { IfOk result (λ s. (p : Pair) → IsLoadedFrom both.now.zero p.zero_slot → IsLoadedFrom both.now.one p.one_slot → IsShownOf (option_map (λ j. j.now) job.entry) p s) }
{
    let first = content_of(alloc, &both.zero)?;
    let second = content_of(alloc, &both.one)?;
    match job {
        None => Ok(SlotsReport {
            first,
            second,
            progress: None,
            total: 0,
        }),
        Some(job) => {
            let progress = progress_of(alloc, job, &both.zero, &both.one)?;
            Ok(SlotsReport {
                first,
                second,
                progress: Some(progress),
                total: job.total(),
            })
        }
    }
}

// Writes the report and returns the status.
fn show<O: Sink, N: Sink>(shown: &SlotsReport, out: &mut O, note: &mut N) -> u8
    requires text { LetsText O.lets (O.state out.old) (shown_text shown.now) }
    requires note { LetsText N.lets (N.state note.old) (note_of no_columns write_fault) }
    ensures { IsWhole (record { out = O.state out.old; note = N.state note.old }) (record { out = O.state out.new; note = N.state note.new }) (shown_text shown.now) result
        ⊎ IsCutOff (record { out = O.state out.old; note = N.state note.old }) (record { out = O.state out.new; note = N.state note.new }) (shown_text shown.now) result }
{
    if write_shown(shown, out) {
        return 0;
    }
    write_diagnostic(&Ended::WriteFault, note)
}

// Writes the lines. Returns true if no write failed.
fn write_shown<O: Sink>(shown: &SlotsReport, out: &mut O) -> bool
    requires { LetsText O.lets (O.state out.old) (shown_text shown.now) }
    ensures { HasAdded (O.state out.old) (O.state out.new) (shown_text shown.now) result }
{
    let going = add_slot_line(out, true, 0, &shown.first);
    let going = add_slot_line(out, going, 1, &shown.second);
    let number = newest(&shown.first, &shown.second);
    let going = add_newest_line(out, going, number);
    add_progress(out, going, shown)
}

// Writes the progress of the job, if there is a job.
fn add_progress<O: Sink>(out: &mut O, going: bool, shown: &SlotsReport) -> bool
    requires { LetsNext O.lets (O.state out.old) going (job_text shown.now.progress shown.now.total) }
    ensures { AddsText (O.state out.old) (O.state out.new) going (job_text shown.now.progress shown.now.total) result }
{
    match shown.progress {
        Some(progress) => add_progress_line(out, going, progress, shown.total),
        None => going,
    }
}
