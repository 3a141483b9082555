//! The documents of shapes, as templates that are filled with the documents of other rows.
#![tactic(auto)]

pub mod documents;
mod entry;
pub mod integers;
pub mod shape;
pub mod template;

pub use entry::entry_template;
