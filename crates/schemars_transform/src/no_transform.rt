//! A transform that does nothing.
use schemars_schema::Schema;
use schemars_walk::{Transform, TransformError};
use std::alloc::Global;

/// A transform that changes nothing and never fails: the type of user-defined transforms where
/// there are none.
#[derive(Clone, Copy)]
pub struct NoTransform;

impl Transform for NoTransform {
    ghost use Rattle.schemars_walk.specs.Walk.{PassedOver};

    ghost makes = { λ t s r u v. PassedOver t s r u v };

    fn transform(&mut self, _alloc: Global, _schema: &mut Schema) -> Result<(), TransformError> {
        Ok(())
    }
}
