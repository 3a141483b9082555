//! Lists of transforms as transforms.
use crate::transform::{Transform, TransformError};
use schemars_schema::Schema;
use std::alloc::Global;

/// Applies its members one after another. The first error is returned, and later members are not
/// called.
impl<T: Transform> Transform for Vec<T> {
    ghost use Rattle.schemars_walk.specs.Order.{InOrder};

    ghost makes = { λ ts s r us v. InOrder T.makes ts.items s r us.items v };

    fn transform(&mut self, alloc: Global, schema: &mut Schema) -> Result<(), TransformError> {
        for member in self.iter_mut() {
            member.transform(alloc, schema)?;
        }
        Ok(())
    }
}
