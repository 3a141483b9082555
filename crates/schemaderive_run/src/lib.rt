//! A run of the program over its words and a source.
#![tactic(auto)]

mod run;
mod words;
mod writing;

pub use run::{Output, derived, place_line};
pub use words::{Asked, Command, HELP, USAGE, VERSION, Wanted, command_of};
