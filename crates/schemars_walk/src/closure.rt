//! Closures, references to transforms, and boxes of transforms, as transforms.
ghost use Rattle.std.specs.Prelude.{◌≡◌};

use crate::transform::{Transform, TransformError};
use schemars_schema::Schema;
use std::alloc::Global;

/// A closure that changes a schema, in a box.
pub type Call = Box<dyn FnMut(&mut Schema) -> Result<(), TransformError> + Drop>;

/// A transform that calls a closure.
#[derive(Drop)]
pub struct FnTransform {
    call: Call,
    ghost callable: { Call.IsAlwaysCallable call },
}

impl FnTransform {
    /// Makes a transform of a closure that can be called on every schema.
    pub fn new(call: Call) -> FnTransform
        requires { Call.IsAlwaysCallable call }
        ensures { result.call ≡ call }
    {
        FnTransform { call }
    }

    // Calls the closure.
    fn call(&mut self, schema: &mut Schema) -> Result<(), TransformError>
        ensures { (p : _) × (q : _) × (p.now ≡ schema.old) × (q.now ≡ schema.new)
            × Call.step self.old.call p result q self.new.call }
    {
        (self.call)(schema)
    }
}

impl Transform for FnTransform {
    ghost use Rattle.std.specs.Prelude.{◌≡◌};

    // What the closure states.
    ghost makes = { λ t s r u v. (p : _) × (q : _) × (p.now ≡ s) × (q.now ≡ v)
        × Call.step t.call p r q u.call };

    fn transform(&mut self, _alloc: Global, schema: &mut Schema) -> Result<(), TransformError> {
        self.call(schema)
    }
}

impl<T: Transform> Transform for &mut T {
    ghost use Rattle.std.specs.Prelude.{◌≡◌};

    ghost makes = { λ t s r u v. T.makes t.now s r u.now v × (u.ghost_name ≡ t.ghost_name) };

    fn transform(&mut self, alloc: Global, schema: &mut Schema) -> Result<(), TransformError> {
        let inner = &mut **self;
        inner.transform(alloc, schema)
    }
}

/// Applies the transform in the box, so that one list can hold transforms of several types.
impl Transform for Box<dyn Transform + Drop> {
    ghost use Rattle.std.specs.Prelude.{◌≡◌};

    // Nothing is known of the transform here; callers of this method see what the box states.
    ghost makes = { λ t s r u v. Unit {0} };

    fn transform(&mut self, alloc: Global, schema: &mut Schema) -> Result<(), TransformError>
        ensures inside { (w : _) × (⟦<dyn Transform as Transform>⟧ self.old.vtable).makes
            self.old.value schema.old result w schema.new
            × (self.new ≡ record self.old { value = w }) }
    {
        let inside = &mut **self;
        inside.transform(alloc, schema)
    }
}
