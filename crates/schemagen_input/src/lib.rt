//! Reads tables of types from texts and JSON values, and example values from JSON values.
#![tactic(auto)]

mod input;
mod listing;
mod sample;
mod table_members;
mod text;
mod tokens;

pub use input::read_input;
pub use sample::{SampleError, read_sample};
pub use schemagen_shapes::{InputError, kind_in, text_in};
pub use text::{TextError, read_table};
