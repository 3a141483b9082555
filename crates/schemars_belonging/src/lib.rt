//! Which JSON values belong to a type, decided from the table itself.
#![tactic(auto)]

mod claims;
mod decide;
mod enums;
mod fields;
mod given;
mod keys;
mod steps;

pub use steps::belongs;
