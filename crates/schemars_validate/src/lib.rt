//! What a schema of a document says of a value, decided.
#![tactic(auto)]

mod chains;
mod document;
mod found;
mod joined;
mod judge;
mod marks;
mod memo;

pub use chains::lone_reference;
pub use document::{
    bound, is_valid, judged, judged_with, validate, validate_document, validate_with,
};
pub use found::resolved;
pub use memo::Memo;
pub use schemars_assertions::{
    Dialect, PatternList, Patterns, Verdict, depth, is_whole, look, numbers_le, size_in_64_bits,
};
