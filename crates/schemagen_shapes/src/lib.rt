//! Reads shapes and entries of rows, their fields, variants and notes, from JSON values.
#![tactic(auto)]

mod error;
mod fields;
mod members;
mod shapes;
mod variants;

pub use error::{InputError, if_said};
pub use fields::{flattened_each, required_in};
pub use members::{kind_in, number_in, number_of, text_in};
pub use shapes::{entry_in, shape_named, shape_under};
pub use variants::{payload_named, variant_inside};
