//! Tables of types: the shapes of values by number, their faults, and which keys a map may have.
#![tactic(auto)]

mod check;
mod constructors;
mod contract;
mod error;
mod keys;
mod optional;
mod table;

pub use contract::Contract;
pub use error::TypesError;
pub use keys::key_options;
pub use keys::options::KeyOptions;
pub use optional::{row_inside, without_options};
pub use schemars_shapes::{
    Adjacent, Field, Fields, Flattened, IntKind, IntegerKeys, Internal, InternalPayload,
    InternalVariant, Payload, Required, Shape, TypeEntry, TypeNo, Variant,
};
pub use table::Types;
