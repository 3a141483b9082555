//! One interface for the variants of all enums, however they are tagged.
ghost use Rattle.std.specs.Prelude.{◌≡◌};
ghost use Rattle.schemars_shapes.specs.Words.{option_map, members_view, Variant, fields_of, variant_of, internal_variant_of, any_payload_of, payload_fields};

use crate::shape::{Fields, TypeNo};
use crate::variant::{InternalPayload, InternalVariant, Payload, Variant};
use serde_json::{Map, Value};

/// What a variant has beside its name, or what its map has beside the tag.
#[derive(Clone, Copy)]
pub enum AnyPayload<'t> {
    /// nothing
    Unit,
    /// a value of this row, or its members
    Newtype(TypeNo),
    /// a list of one value of each row, in this order
    Tuple(&'t [TypeNo]),
    /// these fields
    Struct(&'t Fields),
}

/// A variant of an enum.
pub trait AnyVariant {
    // The variant that it is.
    ghost says: { Self → Variant };

    fn name(&self) -> &str
        ensures { result.now ≡ (says self.now).name };

    /// Annotations that are inserted into the variant's schema.
    fn notes(&self) -> &Map<String, Value>
        ensures { members_view result.now.entries ≡ (says self.now).notes };

    fn payload(&self) -> AnyPayload<'_>
        ensures { any_payload_of result ≡ (says self.now).payload };

    /// The fields of a struct variant.
    fn fields(&self) -> Option<&Fields>
        ensures { option_map (λ f. fields_of f.now) result
            ≡ payload_fields (says self.now).payload }
    {
        match self.payload() {
            AnyPayload::Struct(fields) => Some(fields),
            AnyPayload::Unit | AnyPayload::Newtype(_) | AnyPayload::Tuple(_) => None,
        }
    }
}

impl AnyVariant for Variant {
    ghost says = { variant_of };

    fn name(&self) -> &str {
        self.name.as_str()
    }

    fn notes(&self) -> &Map<String, Value> {
        &self.notes
    }

    fn payload(&self) -> AnyPayload<'_> {
        match &self.payload {
            Payload::Unit => AnyPayload::Unit,
            Payload::Newtype(n) => AnyPayload::Newtype(*n),
            Payload::Tuple(parts) => AnyPayload::Tuple(parts),
            Payload::Struct(fields) => AnyPayload::Struct(fields),
        }
    }
}

impl AnyVariant for InternalVariant {
    ghost says = { internal_variant_of };

    fn name(&self) -> &str {
        self.name.as_str()
    }

    fn notes(&self) -> &Map<String, Value> {
        &self.notes
    }

    fn payload(&self) -> AnyPayload<'_> {
        match &self.payload {
            InternalPayload::Unit => AnyPayload::Unit,
            InternalPayload::Newtype(n) => AnyPayload::Newtype(*n),
            InternalPayload::Struct(fields) => AnyPayload::Struct(fields),
        }
    }
}
