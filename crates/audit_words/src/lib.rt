//! Reads the arguments of a command line, and answers those that ask for help or the version.
//!
//! A command line is a command, followed by pairs of a name and a value (`words`). `question` recognizes `--help` and
//! `--version`, and `answering` writes the answers.
#![tactic(auto)]

pub mod answering;
pub mod arguments;
pub mod asks;
pub mod build;
pub mod fields;
pub mod laws;
pub mod names;
pub mod pairs;
pub mod question;
pub mod settings;
pub mod usage;
pub mod values;
pub mod words;

pub use answering::{add_lines, add_version, answer};
pub use audit_model::fault::{Name, WordFault};
pub use audit_model::setting::Setting;
pub use build::Build;
pub use names::command_of;
pub use question::{Question, question_of, question_of_word};
pub use words::read;
