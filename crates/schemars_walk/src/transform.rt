//! What a transform is, and why one may refuse.
ghost use Rattle.std.specs.Prelude.{◌≡◌, Result};
ghost use Rattle.serde_json.specs.Data.{Data};
ghost use Rattle.schemars_walk.specs.declared.transform.TransformError.{TransformError};

use schemars_schema::Schema;
use std::alloc::{AllocError, Global};
use thiserror::Error;

/// An error of a transform.
#[derive(Clone, Copy, Debug, Error)]
pub enum TransformError {
    /// Out of memory.
    #[error("Memory")]
    Memory,
    /// A recursive transform reached a schema deeper than `DEPTH_LIMIT`.
    #[error("TooDeep")]
    TooDeep,
    /// A user-defined transform failed, with a number of its own.
    #[error("Own")]
    Own(u32),
}

impl From<AllocError> for TransformError {
    ghost use Rattle.std.specs.Prelude.{◌≡◌};
    ghost use Rattle.schemars_walk.specs.declared.transform.TransformError.TheVariants.{Memory};

    ghost from_gives = { λ _ e. e ≡ Memory };

    fn from(_e: AllocError) -> TransformError {
        TransformError::Memory
    }
}

/// A change of schemas.
///
/// ```
/// let mut transform = AddNullable::default();
/// transform.transform(alloc, &mut schema)?;
/// ```
pub trait Transform {
    // What one call may make of a transform and a schema, and what it may answer: the old state,
    // the old schema, the answer, the new state and the new schema.
    ghost makes: { Self → Data → Result (Unit {0}) TransformError → Self → Data → Type 0 };

    /// Changes the schema. After an error it is still a schema, with unspecified content.
    fn transform(&mut self, alloc: Global, schema: &mut Schema) -> Result<(), TransformError>
        ensures { makes self.old schema.old result self.new schema.new };
}
