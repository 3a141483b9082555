//! Which values a literal has and what it says of keys, and the values of shapes that have no rows inside.
#![tactic(auto)]

mod literal;
mod literal_keys;
mod named_types;
mod said;
mod scalars;

pub use literal::has_literal;
pub use literal_keys::literal_says;
pub use said::{Said, any_said, either_said, found_said, integers_said};
pub use scalars::{Limit, is_bytes, is_char, is_int, is_non_zero, is_null, is_text, is_within};
