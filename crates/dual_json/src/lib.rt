//! Reads a dual graph in networkx's adjacency format
//! (`networkx.readwrite.json_graph.adjacency_data`).
#![tactic(auto)]

mod columns;
pub mod districts;
mod edges;
mod ids;
mod index;
mod lengths;
pub mod names;
mod number;
mod parse;
mod read;
mod regions;
mod required;
mod scalar;
mod shape;
mod value;
mod wanted;

pub use crate::ids::read_ids;
pub use crate::read::read_graph;
pub use crate::regions::read_regions;
pub use audit_model::fault::{Column, GraphFault, Part, RegionFault};
pub use districts::{different, labels_of, start_of};
pub use names::NodeName;
