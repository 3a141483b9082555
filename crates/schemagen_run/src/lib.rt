//! A run of the program: from words and bytes to the line of a root document.
#![tactic(auto)]

pub mod fault;
pub mod output;
pub mod run;
pub mod streams;
mod words;
