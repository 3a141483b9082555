//! The generator and the linter for C: what the programs write, in a caller's buffer.
#![tactic(auto)]

mod exports;
mod handing;
mod lints;
mod memory;
mod words;
