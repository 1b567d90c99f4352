//! The lines about slots.

ghost use Rattle.std.specs.Prelude.{◌≡◌, ◌++◌, ◌∷◌, [], List, ℕ};
ghost use Rattle.audit_statement.specs.Note.{as_line};
ghost use Rattle.ckpt_store.specs.declared.slot_content.SlotContent.TheVariants as what;
ghost use Rattle.audit_folders.specs.SlotLines.{newest_texts, progress_texts, slot_line};
ghost use Rattle.report.specs.AddedText.{AddsText, LetsNext};

use audit_io::sink::Sink;
use ckpt_format::decode::Checkpoint;
use ckpt_store::progress::Progress;
use ckpt_store::slot_content::SlotContent;
use report::note::{add_line, fault_name};
use report::piece::Piece::{Digest, Number, Text};

// Writes the line of a slot that holds a checkpoint, if `going` is true. Returns true if no write
// has failed.
fn add_whole_line<N: Sink>(out: &mut N, going: bool, slot: u8, checkpoint: &Checkpoint) -> bool
    requires { LetsNext N.lets (N.state out.old) going (slot_line slot (what.Whole checkpoint.now)) }
    ensures { AddsText (N.state out.old) (N.state out.new) going (slot_line slot (what.Whole checkpoint.now)) result }
{
    let number = Number(u64::from(slot));
    let version = Number(u64::from(checkpoint.version));
    let generation = Number(u64::from(checkpoint.generation));
    let count = Number(checkpoint.outcomes.len() as u64);
    let digest = Digest(&checkpoint.digest);
    add_line(
        out,
        going,
        &[Text("slot "), number],
        &[
            Text(": version "),
            version,
            Text(" generation "),
            generation,
            Text(" outcomes "),
            count,
            Text(" digest "),
            digest,
        ],
    )
}

/// Writes the line of a slot, if `going` is true. Returns true if no write has failed.
pub(crate) fn add_slot_line<N: Sink>(
    out: &mut N,
    going: bool,
    slot: u8,
    content: &SlotContent,
) -> bool
    requires { LetsNext N.lets (N.state out.old) going (slot_line slot content.now) }
    ensures { AddsText (N.state out.old) (N.state out.new) going (slot_line slot content.now) result }
{
    match content {
        SlotContent::Absent => {
            let number = Number(u64::from(slot));
            add_line(out, going, &[Text("slot "), number], &[Text(": absent")])
        }
        SlotContent::Broken(fault) => {
            let number = Number(u64::from(slot));
            let name = Text(fault_name(fault));
            add_line(out, going, &[Text("slot "), number], &[Text(": "), name])
        }
        SlotContent::Whole(checkpoint) => add_whole_line(out, going, slot, checkpoint),
    }
}

/// Writes the line that names the newest slot, if `going` is true. Returns true if no write has
/// failed.
pub(crate) fn add_newest_line<N: Sink>(out: &mut N, going: bool, newest: Option<u8>) -> bool
    requires { LetsNext N.lets (N.state out.old) going (as_line (newest_texts newest)) }
    ensures { AddsText (N.state out.old) (N.state out.new) going (as_line (newest_texts newest)) result }
{
    match newest {
        None => add_line(out, going, &[], &[Text("newest: none")]),
        Some(slot) => {
            let number = Number(u64::from(slot));
            add_line(out, going, &[], &[Text("newest: slot "), number])
        }
    }
}

/// Writes the line of a job's progress, if `going` is true. Returns true if no write has failed.
pub(crate) fn add_progress_line<N: Sink>(
    out: &mut N,
    going: bool,
    progress: Progress,
    total: u32,
) -> bool
    requires { LetsNext N.lets (N.state out.old) going (as_line (progress_texts progress total)) }
    ensures { AddsText (N.state out.old) (N.state out.new) going (as_line (progress_texts progress total)) result }
{
    match progress {
        Progress::Done(done) => {
            let total = Number(u64::from(total));
            add_line(
                out,
                going,
                &[],
                &[Text("done: "), Number(done), Text(" of "), total],
            )
        }
        Progress::OtherJob => {
            add_line(
                out,
                going,
                &[],
                &[Text("done: the newest is another job's")],
            )
        }
        Progress::Damaged => add_line(out, going, &[], &[Text("done: no slot is intact")]),
    }
}
