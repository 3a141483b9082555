//! JSON values, and numbers.
ghost use Rattle.std.specs.Prelude.{⊤};
ghost use Rattle.serde_json.specs.View.{view};
ghost use Rattle.schemars_shapes.specs.Shape.{Shape as shape};
ghost use Rattle.schemars_written.specs.Fits.{HasShape};
ghost use Rattle.schemars_written.proofs.Values.{value_agrees};
ghost use Rattle.schemars_written.proofs.Laws.{number_law};

use crate::law::Agrees;
use crate::row::shape_at;
use schemars_types::{Shape, TypeNo, Types};
use serde_json::{Number, Value};

impl Agrees for Value {
    ghost valid = { λ _. ⊤ };

    ghost is_row = { λ rows n. HasShape rows n shape.any };

    ghost agrees = { λ rows n v checked row valid. value_agrees rows n (view v) row };

    fn has_row(types: &Types, n: TypeNo) -> bool {
        matches!(shape_at(types, n), Some(Shape::Any))
    }

    fn is_valid(&self) -> bool {
        true
    }
}

/// A `Number` is finite.
impl Agrees for Number {
    ghost valid = { λ _. ⊤ };

    ghost is_row = { λ rows n. HasShape rows n shape.number };

    ghost agrees = { λ rows n x checked row valid. number_law rows n x row };

    fn has_row(types: &Types, n: TypeNo) -> bool {
        matches!(shape_at(types, n), Some(Shape::Number))
    }

    fn is_valid(&self) -> bool {
        true
    }
}
