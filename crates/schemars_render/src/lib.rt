//! The text of templates that are filled with the answers of rows, with no JSON value between.
#![tactic(auto)]

mod answer;
mod assembling;
mod filling;
mod keywords;
mod nulls;
mod rendering;
mod tagging;

pub use answer::Answer;
pub use filling::fill;
pub use rendering::{Rendered, render};
pub use schemars_parts::Parts;
