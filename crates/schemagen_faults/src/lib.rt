//! Finds where a JSON value is not a table of types, and why.
#![tactic(auto)]

mod enums;
mod fault;
mod members;
mod rows;
mod stop;

pub use fault::{InputFault, find_fault};
