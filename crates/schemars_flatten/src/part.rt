//! Finished documents as parts of other objects.
pub(crate) mod closing;
pub(crate) mod opening;
pub(crate) mod optional;
pub(crate) mod units;
