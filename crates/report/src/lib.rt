//! The texts that an audit writes: the report, the text of a check, and the diagnostic with the exit status.
#![tactic(auto)]

mod asks;
mod audit;
pub mod check;
pub mod ended;
mod ends;
mod lines;
mod names;
pub mod note;
mod numbers;
mod origin;
mod outcomes;
mod pairs;
pub mod piece;
mod quoted;
mod room;
mod rules;
mod serial;
mod shift;
mod stops;
pub mod trace;
mod values;
mod walks;
mod weight;
pub mod writing;

pub use audit::text;
pub use check::check_text;
pub use ended::Ended;
pub use note::{fault_name, write_diagnostic};
pub use numbers::quarter_digits;
pub use room::reserve;
pub use writing::write_all;
