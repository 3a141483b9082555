//! What the types are that a source declares, and the tables of them.
#![tactic(auto)]

mod choices;
mod content;
mod defaults;
mod defining;
mod fields;
mod rules;
mod shapes;
mod tables;

pub use content::{
    Choice, Choices, Content, Definition, Form, Member, Members, Part, Payload, Required,
};
pub use defining::definition_of;
pub use tables::{Table, table_of};
