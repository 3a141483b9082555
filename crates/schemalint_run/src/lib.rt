//! What is to be said of the text of a table: its fault, or warnings and whether it is plain.
#![tactic(auto)]

mod as_json;
mod as_text;
mod faults;
mod findings;
mod forms;
mod hidden;
mod judging;
mod keys;
mod members;
mod owners;
mod places;
mod reach;
mod reasons;
mod values;
mod variants;
mod warnings;

pub use findings::{Finding, Kind, Severity};
pub use judging::{Report, Verdict, lint};

/// The version of the programs.
pub const VERSION: &str = "1.0.0";
