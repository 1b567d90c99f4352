//! The diagnostics of checkpoints.

ghost use Rattle.std.specs.Prelude.{◌≡◌, ◌∷◌, codes, []};
ghost use Rattle.ckpt_store.specs.View.{slot_view};
ghost use Rattle.hex.specs.Hex.{encode_lower};
ghost use Rattle.audit_statement.specs.DueText.{LetsText};
ghost use Rattle.audit_statement.specs.Endings.{AddsLine};
ghost use Rattle.audit_statement.specs.Note as terms;

use crate::note::output::write_note;
use crate::piece::Piece::{Digest, Text};
use audit_io::sink::Sink;
use audit_model::fault::CkptFault;
use ckpt_store::slots::{Slot, Slots};

/// Writes the diagnostic of two slots if neither is valid and at least one is not empty.
pub(crate) fn write_damaged<N: Sink>(note: &mut N, slots: &Slots)
    requires { LetsText N.lets (N.state note.old) (terms.as_line (codes "checkpoint: slot 0 " ∷ terms.slot_name (slot_view slots.now.zero) ∷ codes ", slot 1 " ∷ terms.slot_name (slot_view slots.now.one) ∷ [])) }
    ensures { AddsLine (N.state note.old) (N.state note.new) (terms.as_line (codes "checkpoint: slot 0 " ∷ terms.slot_name (slot_view slots.now.zero) ∷ codes ", slot 1 " ∷ terms.slot_name (slot_view slots.now.one) ∷ [])) }
{
    write_note(
        note,
        &[Text("checkpoint: slot 0 ")],
        &[
            Text(slot_name(&slots.zero)),
            Text(", slot 1 "),
            Text(slot_name(&slots.one)),
        ],
    );
}

/// Writes the diagnostic if the newest slot belongs to another job. `found` is the digest of that
/// job, `wanted` that of this one.
pub(crate) fn write_other_job<'x, N: Sink>(note: &mut N, found: &'x [u8; 32], wanted: &'x [u8; 32])
    requires { LetsText N.lets (N.state note.old) (terms.as_line (codes "checkpoint: other job " ∷ encode_lower found.now ∷ codes ", this job " ∷ encode_lower wanted.now ∷ [])) }
    ensures { AddsLine (N.state note.old) (N.state note.new) (terms.as_line (codes "checkpoint: other job " ∷ encode_lower found.now ∷ codes ", this job " ∷ encode_lower wanted.now ∷ [])) }
{
    write_note(
        note,
        &[Text("checkpoint: other job ")],
        &[Digest(found), Text(", this job "), Digest(wanted)],
    );
}

/// Returns a short name for the fault of a slot's bytes.
pub fn fault_name(fault: &CkptFault) -> &'static str
    ensures { result.now ≡ terms.fault_name fault.now }
{
    match fault {
        CkptFault::TooLong(_) => "too long",
        CkptFault::TooShort(_) => "too short",
        CkptFault::BadMagic => "bad magic",
        CkptFault::BadVersion(_) => "bad version",
        CkptFault::BadGeneration(_) => "bad generation",
        CkptFault::BadCount { .. } => "bad count",
        CkptFault::BadOrder(_) => "bad order",
        CkptFault::BadDigest { .. } => "bad digest",
        CkptFault::Unfit(_) => "unfit",
        CkptFault::Memory => "memory",
    }
}

fn slot_name(slot: &Slot) -> &'static str
    ensures { result.now ≡ terms.slot_name (slot_view slot.now) }
{
    match slot {
        Slot::Absent => "absent",
        Slot::Broken(fault) => fault_name(fault),
        Slot::Other { .. } | Slot::Ours(_) => "",
    }
}
