//! Copies that say the same as what they are made of.
ghost use Rattle.std.specs.Prelude.{◌≡◌, map, IfOk};
ghost use Rattle.schemars_shapes.specs.Shape.{variant_of, internal_variant_of};

use crate::shape::{Field, Fields, Shape, TypeEntry};
use crate::variant::{Adjacent, Internal, InternalPayload, InternalVariant, Payload, Variant};
use std::alloc::AllocError;

impl Clone for TypeEntry {
    ghost use Rattle.schemars_shapes.specs.Shape.{entry_of};

    ghost is_clone = { λ e f. entry_of f ≡ entry_of e };

    fn clone(&self) -> Result<TypeEntry, AllocError> {
        Ok(TypeEntry {
            inline: self.inline,
            notes: self.notes.clone()?,
            shape: self.shape.clone()?,
        })
    }
}

impl Clone for Shape {
    ghost use Rattle.schemars_shapes.specs.Shape.{shape_of};

    ghost is_clone = { λ s t. shape_of t ≡ shape_of s };

    fn clone(&self) -> Result<Shape, AllocError> {
        Ok(match self {
            Shape::Null => Shape::Null,
            Shape::Bool => Shape::Bool,
            Shape::Int(kind) => Shape::Int(*kind),
            Shape::NonZero(kind) => Shape::NonZero(*kind),
            Shape::Number => Shape::Number,
            Shape::Text => Shape::Text,
            Shape::Char => Shape::Char,
            Shape::Formatted(format) => Shape::Formatted(format.clone()?),
            Shape::Any => Shape::Any,
            Shape::Bytes => Shape::Bytes,
            Shape::SchemaItself => Shape::SchemaItself,
            Shape::Option(n) => Shape::Option(*n),
            Shape::Seq(n) => Shape::Seq(*n),
            Shape::Set(n) => Shape::Set(*n),
            Shape::Array(n, len) => Shape::Array(*n, *len),
            Shape::UpTo(n, cap) => Shape::UpTo(*n, *cap),
            Shape::Tuple(parts) => Shape::Tuple(parts.clone()?),
            Shape::Struct(fields) => Shape::Struct(fields.clone()?),
            Shape::Newtype(n) => Shape::Newtype(*n),
            Shape::Result(ok, err) => Shape::Result(*ok, *err),
            Shape::Bound(n) => Shape::Bound(*n),
            Shape::Range(n) => Shape::Range(*n),
            Shape::Either(left, right) => Shape::Either(*left, *right),
            Shape::Map(key, value) => Shape::Map(*key, *value),
            Shape::External(variants) => Shape::External(copies(variants)?),
            Shape::Untagged(variants) => Shape::Untagged(copies(variants)?),
            Shape::Internal(internal) => Shape::Internal(internal.clone()?),
            Shape::Adjacent(adjacent) => Shape::Adjacent(adjacent.clone()?),
            Shape::Literal(schema) => Shape::Literal(schema.clone()?),
        })
    }
}

#[tactic(auto, using(crate::proofs::Copies::map_variant_of_copied))]
fn copies(variants: &Vec<Variant>) -> Result<Vec<Variant>, AllocError>
    ensures { IfOk result (λ v. map variant_of v.items ≡ map variant_of variants.now.items) }
{
    variants.clone()
}

impl Clone for Variant {
    ghost is_clone = { λ x y. variant_of y ≡ variant_of x };

    fn clone(&self) -> Result<Variant, AllocError> {
        Ok(Variant {
            name: self.name.clone()?,
            notes: self.notes.clone()?,
            payload: self.payload.clone()?,
        })
    }
}

impl Clone for Payload {
    ghost use Rattle.schemars_shapes.specs.Shape.{payload_of};

    ghost is_clone = { λ x y. payload_of y ≡ payload_of x };

    fn clone(&self) -> Result<Payload, AllocError> {
        Ok(match self {
            Payload::Unit => Payload::Unit,
            Payload::Newtype(n) => Payload::Newtype(*n),
            Payload::Tuple(parts) => Payload::Tuple(parts.clone()?),
            Payload::Struct(fields) => Payload::Struct(fields.clone()?),
        })
    }
}

impl Clone for Internal {
    ghost use Rattle.schemars_shapes.specs.Shape.{internal_view};

    ghost is_clone = { λ x y. internal_view y ≡ internal_view x };

    fn clone(&self) -> Result<Internal, AllocError> {
        Ok(Internal {
            tag: self.tag.clone()?,
            closed: self.closed,
            variants: internal_copies(&self.variants)?,
        })
    }
}

#[tactic(auto, using(crate::proofs::Copies::map_internal_variant_of_copied))]
fn internal_copies(variants: &Vec<InternalVariant>) -> Result<Vec<InternalVariant>, AllocError>
    ensures { IfOk result (λ v. map internal_variant_of v.items
        ≡ map internal_variant_of variants.now.items) }
{
    variants.clone()
}

impl Clone for Adjacent {
    ghost use Rattle.schemars_shapes.specs.Shape.{adjacent_view};

    ghost is_clone = { λ x y. adjacent_view y ≡ adjacent_view x };

    fn clone(&self) -> Result<Adjacent, AllocError> {
        Ok(Adjacent {
            tag: self.tag.clone()?,
            content: self.content.clone()?,
            closed: self.closed,
            variants: copies(&self.variants)?,
        })
    }
}

impl Clone for InternalVariant {
    ghost is_clone = { λ x y. internal_variant_of y ≡ internal_variant_of x };

    fn clone(&self) -> Result<InternalVariant, AllocError> {
        Ok(InternalVariant {
            name: self.name.clone()?,
            notes: self.notes.clone()?,
            payload: self.payload.clone()?,
        })
    }
}

impl Clone for InternalPayload {
    ghost use Rattle.schemars_shapes.specs.Shape.{internal_payload_of};

    ghost is_clone = { λ x y. internal_payload_of y ≡ internal_payload_of x };

    fn clone(&self) -> Result<InternalPayload, AllocError> {
        Ok(match self {
            InternalPayload::Unit => InternalPayload::Unit,
            InternalPayload::Newtype(n) => InternalPayload::Newtype(*n),
            InternalPayload::Struct(fields) => InternalPayload::Struct(fields.clone()?),
        })
    }
}

impl Clone for Fields {
    ghost use Rattle.schemars_shapes.specs.Shape.{fields_of};

    ghost is_clone = { λ f g. fields_of g ≡ fields_of f };

    fn clone(&self) -> Result<Fields, AllocError> {
        Ok(Fields {
            list: self.list.clone()?,
            flatten: self.flatten.clone()?,
            closed: self.closed,
        })
    }
}

impl Clone for Field {
    ghost use Rattle.schemars_shapes.specs.Shape.{field_of};

    ghost is_clone = { λ f g. field_of g ≡ field_of f };

    fn clone(&self) -> Result<Field, AllocError> {
        Ok(Field {
            name: self.name.clone()?,
            ty: self.ty,
            required: self.required,
            notes: self.notes.clone()?,
        })
    }
}
