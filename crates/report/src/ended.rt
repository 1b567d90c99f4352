//! The reasons why a call ended.

use audit_model::fault::{GraphFault, PlanFault, RegionFault, TableFault, WordFault};
use audit_model::setting::Columns;
use audit_model::text::Text;
use ckpt_store::slots::Slots;

/// The reason why a call ended.
#[derive(Drop)]
pub enum Ended {
    /// The call did all its work.
    Done,
    BadWords(WordFault),
    TooManyBytes,
    /// A refused graph, with the names of its columns for the diagnostic.
    BadGraph(GraphFault, Columns),
    /// Refused regions, with the name of their column.
    BadRegions(RegionFault, Text),
    BadPlan(PlanFault),
    BadTable(TableFault),
    /// A refused plan of a table, with its name.
    BadPlanNamed(Text, PlanFault),
    NoMemory,
    ReadFault,
    WriteFault,
    LoadFault,
    /// Another process has locked the folder of the slots.
    FolderTaken,
    /// `done` of `total` trajectories have outcomes. Another run can walk the rest.
    Stopped { done: u32, total: u32 },
    /// No slot is valid, and at least one is not empty.
    Damaged(Slots),
    /// The newest slot belongs to another job.
    OtherJob { found: [u8; 32], wanted: [u8; 32] },
    SaveFault,
}
