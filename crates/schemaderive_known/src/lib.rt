//! The rows of the types of std and of other crates.
#![tactic(auto)]

mod known;
mod numbers;
mod row;

pub use known::{Made, is_crate, known_row, made_named, null_row, path_of};
pub use numbers::nonzero_name;
pub use row::{Kind, Makeup, Row, Texts};
