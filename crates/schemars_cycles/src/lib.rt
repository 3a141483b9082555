//! Closed walks in graphs of numbers: the least number on one.
#![tactic(auto)]

mod cycles;

pub use cycles::least_on_cycle;
