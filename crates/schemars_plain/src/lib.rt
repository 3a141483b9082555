//! Whether a table of types is plain: what the promises on documents ask of a table.
#![tactic(auto)]

mod contents;
mod enums;
mod fields;
mod literal;
mod names;
mod notes;
mod parts;
mod simple;
mod table;
mod under;
mod variants;

pub use contents::{has_no_contents, has_no_newtypes, has_plain_contents, is_plain_content};
pub use fields::all_fields;
pub use literal::{has_one_value, is_plain_literal, is_plain_member};
pub use notes::{are_notes, is_annotation};
pub use parts::have_plain_parts;
pub use simple::{flattens_no_enums, is_plain_for_each};
pub use table::{is_plain, is_plain_row, is_plain_shape};
pub use under::{has_names_apart, has_parts_under, is_plain_row_under, is_plain_under};
