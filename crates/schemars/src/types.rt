//! Tables of types: the shapes of values by number.
pub use schemars_types::{
    Adjacent, Field, Fields, Flattened, IntKind, Internal, InternalPayload, InternalVariant,
    Payload, Required, Shape, TypeEntry, TypeNo, Types, TypesError, Variant,
};
