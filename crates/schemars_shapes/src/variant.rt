//! The variants of enums.
ghost use Rattle.std.specs.Prelude.{◌≡◌, ◌&&◌, map, bytes_eq};
ghost use Rattle.schemars_shapes.specs.Words.{payload_of, variant_of, internal_payload_of, internal_variant_of, internal_view, adjacent_view, bool_eq, payload_eq, variant_eq, variants_eq, is_bare_unit};

use crate::shape::{Fields, TypeNo};
use schemars_schema::json_same_members;
use serde_json::{Map, Value};

/// A variant of an enum.
#[derive(Drop)]
pub struct Variant {
    pub name: String,
    /// Annotations that are inserted into the variant's schema.
    pub notes: Map<String, Value>,
    pub payload: Payload,
}

/// What a variant has beside its name.
#[derive(Drop)]
pub enum Payload {
    /// nothing
    Unit,
    /// a value of this row
    Newtype(TypeNo),
    /// a list of one value of each row, in this order
    Tuple(Vec<TypeNo>),
    /// a map with these fields
    Struct(Fields),
}

/// The variants of an enum whose values are maps, with the variant's name under this tag.
#[derive(Drop)]
pub struct Internal {
    pub tag: String,
    /// A unit allows no other keys.
    pub closed: bool,
    pub variants: Vec<InternalVariant>,
}

/// A variant that is named by a member of its own map.
#[derive(Drop)]
pub struct InternalVariant {
    pub name: String,
    /// Annotations that are inserted into the variant's schema.
    pub notes: Map<String, Value>,
    pub payload: InternalPayload,
}

/// The variants of an enum whose values are maps, with the variant's name under one key and what
/// the variant has under another.
#[derive(Drop)]
pub struct Adjacent {
    /// the key of the name
    pub tag: String,
    /// the key of what a variant has, which is not there for a unit
    pub content: String,
    /// No other keys are allowed.
    pub closed: bool,
    pub variants: Vec<Variant>,
}

/// What the map of a variant has beside the tag.
#[derive(Drop)]
pub enum InternalPayload {
    /// nothing
    Unit,
    /// the members of a value of this row
    Newtype(TypeNo),
    /// these fields
    Struct(Fields),
}

impl Payload {
    fn is_equal(&self, other: &Payload) -> bool
        ensures { result ≡ payload_eq (payload_of self.now) (payload_of other.now) }
    {
        match (self, other) {
            (Payload::Unit, Payload::Unit) => true,
            (Payload::Newtype(n), Payload::Newtype(m)) => n == m,
            (Payload::Tuple(parts), Payload::Tuple(of_other)) => parts == of_other,
            (Payload::Struct(fields), Payload::Struct(of_other)) => fields.is_equal(of_other),
            _ => false,
        }
    }
}

impl Variant {
    fn is_equal(&self, other: &Variant) -> bool
        ensures { result ≡ variant_eq (variant_of self.now) (variant_of other.now) }
    {
        self.name == other.name
            && self.payload.is_equal(&other.payload)
            && json_same_members(&self.notes, &other.notes)
    }
}

/// Returns whether the variant is a unit without notes.
pub fn is_bare_unit(variant: &Variant) -> bool
    ensures { result ≡ is_bare_unit (variant_of variant.now) }
{
    match &variant.payload {
        Payload::Unit => variant.notes.is_empty(),
        Payload::Newtype(_) => false,
        Payload::Tuple(_) => false,
        Payload::Struct(_) => false,
    }
}

// The order of the variants counts.
pub(crate) fn variants_equal(a: &[Variant], b: &[Variant]) -> bool
    ensures { result ≡ variants_eq (map variant_of a.now) (map variant_of b.now) }
{
    let mut others = b.iter();
    for variant in a {
        let Some(other) = others.next() else {
            return false;
        };
        if !variant.is_equal(other) {
            return false;
        }
    }
    others.next().is_none()
}

impl Adjacent {
    pub(crate) fn is_equal(&self, other: &Adjacent) -> bool
        ensures { result ≡ ((bytes_eq (adjacent_view self.now).0 (adjacent_view other.now).0
            && (bytes_eq (adjacent_view self.now).1 (adjacent_view other.now).1
            && bool_eq (adjacent_view self.now).2 (adjacent_view other.now).2))
            && variants_eq (adjacent_view self.now).3 (adjacent_view other.now).3) }
    {
        self.tag == other.tag
            && self.content == other.content
            && self.closed == other.closed
            && variants_equal(&self.variants, &other.variants)
    }
}

impl InternalPayload {
    fn is_equal(&self, other: &InternalPayload) -> bool
        ensures { result ≡ payload_eq (internal_payload_of self.now)
            (internal_payload_of other.now) }
    {
        match (self, other) {
            (InternalPayload::Unit, InternalPayload::Unit) => true,
            (InternalPayload::Newtype(n), InternalPayload::Newtype(m)) => n == m,
            (InternalPayload::Struct(fields), InternalPayload::Struct(of_other)) => {
                fields.is_equal(of_other)
            }
            _ => false,
        }
    }
}

impl InternalVariant {
    fn is_equal(&self, other: &InternalVariant) -> bool
        ensures { result ≡ variant_eq (internal_variant_of self.now)
            (internal_variant_of other.now) }
    {
        self.name == other.name
            && self.payload.is_equal(&other.payload)
            && json_same_members(&self.notes, &other.notes)
    }
}

impl Internal {
    pub(crate) fn is_equal(&self, other: &Internal) -> bool
        ensures { result ≡ ((bytes_eq (internal_view self.now).0 (internal_view other.now).0
            && bool_eq (internal_view self.now).1 (internal_view other.now).1)
            && variants_eq (internal_view self.now).2 (internal_view other.now).2) }
    {
        self.tag == other.tag
            && self.closed == other.closed
            && internals_equal(&self.variants, &other.variants)
    }
}

// The order of the variants counts.
fn internals_equal(a: &[InternalVariant], b: &[InternalVariant]) -> bool
    ensures { result ≡ variants_eq (map internal_variant_of a.now) (map internal_variant_of b.now) }
{
    let mut others = b.iter();
    for variant in a {
        let Some(other) = others.next() else {
            return false;
        };
        if !variant.is_equal(other) {
            return false;
        }
    }
    others.next().is_none()
}
