//! The data that a source gives.

use crate::graph::Graph;
use audit_model::lists::{LabelList, UnitList};
use audit_model::outcome::Counts;
use audit_model::rules::Group;

/// A graph with the data of its units: counts, group, frozen units, start plan and district labels.
#[derive(Drop)]
pub struct Parsed {
    pub graph: Graph,
    /// The population and votes of each unit, and the lengths of the edges.
    pub counts: Counts,
    /// The group's size and base population in each unit, or empty lists if the arguments name no
    /// group.
    pub group: Group,
    /// For each unit 1 if it is frozen, else 0. Empty if the arguments name no column of frozen
    /// units.
    pub frozen: UnitList,
    /// The start plan: for each unit, the index of its district's label in `labels`.
    pub start: UnitList,
    /// The distinct labels of districts: integers by value, then texts by their bytes.
    pub labels: LabelList,
}
