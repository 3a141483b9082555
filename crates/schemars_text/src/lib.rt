//! The text of schemas, which are JSON values, with their keywords in a fixed order; and where the
//! bytes of a text go.
#![tactic(auto)]

mod error;
mod gathered;
mod memory;
mod ordered;
mod output;
pub mod places;
mod quoted;
mod sending;
pub mod sink;
mod target;
mod writing;

pub use error::OrderedError;
pub use ordered::Layout;
pub use output::Output;
pub use quoted::push_quoted;
pub use sending::send_ordered;
pub use sink::{Failed, Sink, SinkOf};
pub use writing::{
    definitions_to_ordered_string, to_ordered_string, write_ordered, write_ordered_definitions,
};
