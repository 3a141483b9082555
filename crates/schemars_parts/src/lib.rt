//! Schemas in parts, which are borrowed from templates and answers: what they stand for, what
//! built-in transforms make of them, and their text.
#![tactic(auto)]

mod assembled;
mod changing;
mod error;
mod finishing;
mod members;
mod needs;
mod parts;
mod places;
mod texts;
mod whole;
mod writing;

pub use assembled::Assembled;
pub use error::Stop;
pub use members::{MemberList, into_items, lone_object, members_in, object_of};
pub use needs::needs_of;
pub use parts::Parts;
pub use texts::{holds_text, is_text_part};
pub use whole::is_whole;
pub use writing::text_of;
