//! User-defined transforms.
use schemars::Schema;
use schemars::transform::{RecursiveTransform, Transform, TransformError};
use serde_json::{Map, Value};
use std::alloc::Global;

/// A user-defined transform.
#[derive(Drop)]
pub(crate) enum Own {
    /// Counts its calls, and inserts their number as `x-n`.
    Counting(usize),
    /// Refuses at the second schema.
    Refusing(RecursiveTransform<Refusing>),
    /// Makes each schema deeper.
    Growing(RecursiveTransform<Growth>),
}

/// Refuses after so many schemas.
#[derive(Drop)]
pub(crate) struct Refusing {
    pub(crate) left: usize,
    pub(crate) refusal: TransformError,
}

impl Transform for Refusing {
    ghost makes = { λ t s r u v. Unit {0} };

    fn transform(&mut self, _alloc: Global, _schema: &mut Schema) -> Result<(), TransformError> {
        if self.left == 0 {
            return Err(self.refusal);
        }
        self.left -= 1;
        Ok(())
    }
}

/// Puts a schema into each schema.
#[derive(Drop)]
pub(crate) struct Growth;

impl Transform for Growth {
    ghost makes = { λ t s r u v. Unit {0} };

    fn transform(&mut self, alloc: Global, schema: &mut Schema) -> Result<(), TransformError> {
        let key = String::from_str(alloc, "not")?;
        let _old = schema.insert(alloc, key, Value::Object(Map::new(alloc)))?;
        Ok(())
    }
}

impl Transform for Own {
    ghost makes = { λ t s r u v. Unit {0} };

    fn transform(&mut self, alloc: Global, schema: &mut Schema) -> Result<(), TransformError> {
        match self {
            Own::Counting(calls) => {
                *calls = calls.saturating_add(1);
                let key = String::from_str(alloc, "x-n")?;
                let _old = schema.insert(alloc, key, Value::from(*calls))?;
                Ok(())
            }
            Own::Refusing(inner) => inner.transform(alloc, schema),
            Own::Growing(inner) => inner.transform(alloc, schema),
        }
    }
}
