//! What the keywords of JSON Schema that need no schema say of a value, decided.
#![tactic(auto)]

mod arrays;
mod depths;
mod dialect;
mod json;
mod keys;
mod members;
mod numbers;
mod patterns;
mod quantities;
mod scalars;
mod verdict;

pub use arrays::{are_distinct, contained_says, one_more};
pub use depths::depth;
pub use dialect::Dialect;
pub use json::look;
pub use keys::{by_keys, dependent_required_says};
pub use members::member;
pub use numbers::{is_whole, numbers_le, size_in_64_bits};
pub use patterns::{PatternList, Patterns};
pub use quantities::{code_points, is_at_least, is_at_most};
pub use scalars::{
    are_texts, are_type_names, by_itself, is_among, is_of_some_type, is_of_type, is_type_name,
};
pub use verdict::{Verdict, all_of, both, opposite, unless_missing, verdict_of};
