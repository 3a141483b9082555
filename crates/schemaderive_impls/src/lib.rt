//! The implementations of `JsonSchema` for the types that a source declares, as a file of Rattle.
#![tactic(auto)]

mod body;
mod choices;
mod groups;
mod headers;
mod items;
mod keywords;
mod leading;
mod members;
mod names;
mod own_functions;
mod own_rows;
mod writer;

pub use writer::{Implementations, implementations_of};
