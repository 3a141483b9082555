//! Schemas merged into others, and finished documents as parts of other objects.
#![tactic(auto)]

mod merging;
mod part;
mod union;

pub use merging::flatten;
pub use part::closing::must_be_in_place;
pub use part::opening::open_inside;
pub use part::optional::as_flattened;
