//! A transform of every schema inside a schema.
use crate::transform::{Transform, TransformError};
use crate::walk::{Reach, visit};
use schemars_schema::Schema;
use std::alloc::Global;

/// The greatest depth of the schemas that a recursive transform reaches. The schema that it is
/// called on has depth 0.
pub const DEPTH_LIMIT: usize = 256;

/// Applies its transform to a schema, and then to the schemas inside it, from the top down.
///
/// The first error is returned. The error for a schema deeper than `DEPTH_LIMIT` is `TooDeep`, so
/// that a transform that adds schemas comes to an end.
#[derive(Clone, Drop)]
pub struct RecursiveTransform<T>(pub T);

impl<T: Transform> Transform for RecursiveTransform<T> {
    ghost use Rattle.schemars_walk.specs.Walk.{Recursed};

    ghost makes = { λ t s r u v. Recursed T.makes 257 t.0 s r u.0 v };

    fn transform(&mut self, alloc: Global, schema: &mut Schema) -> Result<(), TransformError> {
        visit(&mut self.0, alloc, schema, Reach::Levels(DEPTH_LIMIT + 1))
    }
}
