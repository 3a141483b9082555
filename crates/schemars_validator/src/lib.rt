//! A document that is read once and asked about many values.
#![tactic(auto)]

mod asking;
mod failures;
mod itself;
mod probes;
mod reading;
mod sentences;
mod told;
mod validator;
mod ways;

pub use reading::Reading;
pub use schemars_readable::{Draft, Refusal, Unread};
pub use schemars_validate::Verdict;
pub use told::Failure;
pub use validator::{Examined, Validator};
