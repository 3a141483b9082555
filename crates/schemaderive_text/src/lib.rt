//! Text of Rattle: lines, the names that a file brings in, and literals.
#![tactic(auto)]

mod imports;
mod lines;
mod texts;

pub use imports::Imports;
pub use lines::Lines;
pub use texts::{joined, json_argument, literal, push_all, push_escaped, push_literal};
