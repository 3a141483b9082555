//! What documents are made from.

use schemars_types::{Contract, Types};

/// A table, and how the documents of its rows are made.
#[derive(Clone, Copy)]
pub struct Basis<'t> {
    pub types: &'t Types,
    pub contract: Contract,
    /// whether the variants of an untagged enum have their names as titles
    pub titles: bool,
}
