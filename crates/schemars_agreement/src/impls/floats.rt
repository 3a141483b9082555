//! Floats. JSON has the finite ones: others are written as null.
ghost use Rattle.std.specs.Prelude.{◌≡◌, true, IsTrue};
ghost use Rattle.std.specs.Float.{float_is_finite};
ghost use Rattle.schemars_written.specs.Fits.{HasNumbers, IsNumberRow, IsFreeOfBounds};
ghost use Rattle.schemars_written.proofs.Laws.{f32_law, f64_law};

use crate::law::Agrees;
use crate::row::shape_at;
use schemars_schema::Schema;
use schemars_types::{Shape, TypeNo, Types};
use serde_json::Value;

impl Agrees for f32 {
    ghost valid = { λ x. IsTrue (float_is_finite x) };

    ghost is_row = { IsNumberRow };

    ghost agrees = { f32_law };

    fn has_row(types: &Types, n: TypeNo) -> bool {
        is_number_row(types, n)
    }

    fn is_valid(&self) -> bool {
        self.is_finite()
    }
}

impl Agrees for f64 {
    ghost valid = { λ x. IsTrue (float_is_finite x) };

    ghost is_row = { IsNumberRow };

    ghost agrees = { f64_law };

    fn has_row(types: &Types, n: TypeNo) -> bool {
        is_number_row(types, n)
    }

    fn is_valid(&self) -> bool {
        self.is_finite()
    }
}

// Returns true only if row `n` has every number.
fn is_number_row(types: &Types, n: TypeNo) -> bool
    ensures { result ≡ true → IsNumberRow types.now n }
{
    match shape_at(types, n) {
        Some(Shape::Number) => true,
        Some(Shape::Literal(schema)) => has_numbers(schema),
        _ => false,
    }
}

// Returns true only if the literal asks for numbers, and for nothing else.
fn has_numbers(schema: &Schema) -> bool
    ensures { result ≡ true → HasNumbers schema.now }
{
    match schema.get("type") {
        Some(Value::String(name)) => name.as_str() == "number" && is_free(schema),
        _ => false,
    }
}

// Returns true only if the literal picks no numbers.
fn is_free(schema: &Schema) -> bool
    ensures { result ≡ true → IsFreeOfBounds schema.now }
{
    schema.get("const").is_none()
        && schema.get("enum").is_none()
        && schema.get("minimum").is_none()
        && schema.get("maximum").is_none()
}
