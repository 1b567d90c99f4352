//! The plans of a CSV of several plans.

use crate::lists::{LabelList, PlainList, UnitList};
use crate::text::Text;

/// A plan of the CSV: its name, the index of each unit's label in `labels`, and the plan's distinct
/// labels in rising order.
#[derive(Drop)]
pub struct Assigned {
    pub name: Text,
    pub start: UnitList,
    pub labels: LabelList,
}

/// A list of the CSV's plans.
pub type AssignedList = PlainList<Assigned>;
