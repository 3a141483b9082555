//! Where the definitions of a document are kept while it is generated: as JSON values or as text.
//! A store that keeps text changes each definition by itself before it is written, if a dialect's
//! transforms ask for it.
#![tactic(auto)]

mod by_name;
mod change;
mod entries;
mod joined;
mod kept;
mod objects;
mod plain;
mod store;
mod texts;

pub use change::{Change, Unchanged};
pub use objects::Objects;
pub use plain::is_json;
pub use store::Definitions;
pub use texts::{Texts, has_no_definitions};
