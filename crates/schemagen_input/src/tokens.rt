//! Rows of a table, read from the tokens of its text.

mod enums;
mod field;
mod fields;
mod object;
mod row;
mod said;
mod shape;
mod single;
mod tagged;
mod variant;

pub use object::{ObjectMembers, read_members};
pub use row::read_row;
pub use single::read_number;
