//! Whether a value passes a document, by the definition that the theorem speaks of, under a reading
//! of patterns of the caller's. The crate `schemars_validator` reads a document once, with its
//! patterns as expressions.
pub use schemars_validate::{
    Dialect, PatternList, Patterns, Verdict, bound, is_valid, validate, validate_document,
};
