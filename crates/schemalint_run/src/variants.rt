//! What has names of its own in a shape.
use schemars_types::{Fields, Internal, Shape, Variant};

/// What has names of its own in a shape.
#[derive(Clone, Copy)]
pub enum Named<'t> {
    Fields(&'t Fields),
    Variants(&'t [Variant]),
    Internal(&'t Internal),
    Nothing,
}

/// The fields or variants of a shape.
pub fn named_in(shape: &Shape) -> Named<'_> {
    match shape {
        Shape::Struct(fields) => Named::Fields(fields),
        Shape::External(variants) | Shape::Untagged(variants) => Named::Variants(variants),
        Shape::Internal(internal) => Named::Internal(internal),
        Shape::Adjacent(adjacent) => Named::Variants(&adjacent.variants),
        Shape::Null | Shape::Bool | Shape::Int(_) | Shape::NonZero(_) => Named::Nothing,
        Shape::Number | Shape::Text | Shape::Char | Shape::Formatted(_) => Named::Nothing,
        Shape::Any | Shape::Bytes | Shape::SchemaItself | Shape::Literal(_) => Named::Nothing,
        Shape::Option(_) | Shape::Newtype(_) | Shape::Seq(_) | Shape::Set(_) => Named::Nothing,
        Shape::Array(..) | Shape::UpTo(..) | Shape::Tuple(_) => Named::Nothing,
        Shape::Result(..) | Shape::Either(..) => Named::Nothing,
        Shape::Bound(_) | Shape::Range(_) | Shape::Map(..) => Named::Nothing,
    }
}
