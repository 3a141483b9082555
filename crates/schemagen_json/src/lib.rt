//! JSON values that borrow their texts.
#![tactic(auto)]

mod borrowed_value;
mod error;

pub use borrowed_value::{
    BorrowedValue, MAX_DEPTH, copy_members, lone_member, read_value, read_value_from,
};
pub use error::ParseError;
