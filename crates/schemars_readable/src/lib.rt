//! What of a document is read: its schemas, the expressions of its patterns, and what refuses it.
#![tactic(auto)]

mod draft;
mod ecma;
mod expressions;
mod forms;
mod keywords;
mod members;
mod places;
mod refusal;
mod unread;
mod wanted;

pub use draft::Draft;
pub use expressions::{Expression, compiled, patterns_in};
pub use places::{Place, item_place, member_place, schemas_in};
pub use refusal::{Refusal, Unread};
pub use unread::unread_in;
