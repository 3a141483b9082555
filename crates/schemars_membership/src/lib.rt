//! Whether JSON values belong to a type of a table, decided by its document.
#![tactic(auto)]

mod error;
mod membership;

pub use error::MembershipError;
pub use membership::{belongs, by_table_and_document, is_member, type_document};
