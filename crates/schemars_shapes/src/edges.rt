//! The edges of a table: the rows to which a shape refers.
pub(crate) mod adjacent;
pub(crate) mod fields;
pub(crate) mod names;
pub(crate) mod rows;
pub(crate) mod shape;
pub(crate) mod unknown;
pub(crate) mod variant;
