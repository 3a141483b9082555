//! Templates: schemas whose parts are not known yet, how their nodes are made, and how they are filled.
#![tactic(auto)]

pub mod finished;
pub mod template;
