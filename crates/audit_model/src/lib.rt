//! Plain types of an audit, the definitions that need no other crate, and their laws.
//!
//! Lemmas that several crates cite stand here, each once.
#![tactic(auto)]

pub mod buffers;
pub mod copies;
pub mod fault;
pub mod laws;
pub mod lists;
pub mod memory;
pub mod origin;
pub mod outcome;
pub mod place;
pub mod plans;
pub mod rules;
pub mod setting;
pub mod steps;
pub mod text;

pub use buffers::{Bytes, OutcomeList};
pub use fault::{
    CkptFault, Column, GraphFault, Name, Part, PlanFault, PlansFault, RegionFault, TableFault,
    WordFault,
};
pub use laws::{
    consistent_runs_go_on_rightly, outcomes_without_histogram_match, visits_stay_legal,
    ways_are_symmetric,
};
pub use lists::{AskList, LabelList, NumList, UnitList};
pub use memory::Memory;
pub use origin::Origin;
pub use outcome::{Counts, Did, Event, Outcome, Serial, Stop, SumsView};
pub use place::Place;
pub use plans::{Assigned, AssignedList};
pub use rules::{Group, Rules};
pub use setting::{Ask, Columns, Command, Label, Score, Setting, Tail};
pub use steps::Steps;
pub use text::Text;
