//! What built-in transforms do to what schemas accept.
//!
//! Each law is the contract of a function that does nothing.
#![tactic(auto)]

pub mod built_in;
