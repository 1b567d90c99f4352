//! Computed examples of the definitions, on cases small enough to work out by hand.

pub mod formats;
pub mod frozen;
pub mod further;
pub mod lengths;
pub mod limits;
pub mod model;
pub mod origins;
pub mod pairs;
pub mod rules;
pub mod tables;
pub mod traces;
pub mod weights;
