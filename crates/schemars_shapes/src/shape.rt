ghost use Rattle.std.specs.Prelude.{◌≡◌, map};
ghost use Rattle.schemars_shapes.specs.Words.{format_of, non_zero_name, pattern_of, integers_of, shape_of, field_of, flattened_of, fields_of, entry_of, option_of, without_notes, pointwise, shape_eq, list_eq, field_eq, flattened_eq, fields_eq, entry_eq};

use crate::variant::{Adjacent, Internal, Variant, variants_equal};
use schemars_schema::{Schema, json_same, json_same_members};
use serde_json::{Map, Value};
use std::alloc::Global;

/// A row's number in a table.
pub type TypeNo = usize;

/// The kind of an integer type.
#[derive(Clone, Copy, PartialEq, Eq, Debug)]
pub enum IntKind {
    I8,
    I16,
    I32,
    I64,
    I128,
    Isize,
    U8,
    U16,
    U32,
    U64,
    U128,
    Usize,
}

impl IntKind {
    /// The format of this kind's schema, as `int32`. It is also the name of the type.
    pub fn format(self) -> &'static str
        ensures { result.now ≡ format_of self }
    {
        match self {
            IntKind::I8 => "int8",
            IntKind::I16 => "int16",
            IntKind::I32 => "int32",
            IntKind::I64 => "int64",
            IntKind::I128 => "int128",
            IntKind::Isize => "int",
            IntKind::U8 => "uint8",
            IntKind::U16 => "uint16",
            IntKind::U32 => "uint32",
            IntKind::U64 => "uint64",
            IntKind::U128 => "uint128",
            IntKind::Usize => "uint",
        }
    }

    /// The name of the type of this kind that has no 0, as `NonZeroI32`.
    pub fn non_zero_name(self) -> &'static str
        ensures { result.now ≡ non_zero_name self }
    {
        match self {
            IntKind::I8 => "NonZeroI8",
            IntKind::I16 => "NonZeroI16",
            IntKind::I32 => "NonZeroI32",
            IntKind::I64 => "NonZeroI64",
            IntKind::I128 => "NonZeroI128",
            IntKind::Isize => "NonZeroIsize",
            IntKind::U8 => "NonZeroU8",
            IntKind::U16 => "NonZeroU16",
            IntKind::U32 => "NonZeroU32",
            IntKind::U64 => "NonZeroU64",
            IntKind::U128 => "NonZeroU128",
            IntKind::Usize => "NonZeroUsize",
        }
    }
}

/// Keys of maps that are whole numbers.
#[derive(Clone, Copy, PartialEq, Eq, Debug)]
pub enum IntegerKeys {
    /// without a sign
    Unsigned,
    /// with a sign or without
    Signed,
}

impl IntegerKeys {
    /// The pattern of these keys.
    pub fn pattern(self) -> &'static str
        ensures { result.now ≡ pattern_of self }
    {
        match self {
            IntegerKeys::Unsigned => "^\\d+$",
            IntegerKeys::Signed => "^-?\\d+$",
        }
    }

    /// The keys that numbers of this kind are.
    pub fn of_kind(kind: IntKind) -> IntegerKeys
        ensures { result ≡ integers_of kind }
    {
        match kind {
            IntKind::I8 => IntegerKeys::Signed,
            IntKind::I16 => IntegerKeys::Signed,
            IntKind::I32 => IntegerKeys::Signed,
            IntKind::I64 => IntegerKeys::Signed,
            IntKind::I128 => IntegerKeys::Signed,
            IntKind::Isize => IntegerKeys::Signed,
            IntKind::U8 => IntegerKeys::Unsigned,
            IntKind::U16 => IntegerKeys::Unsigned,
            IntKind::U32 => IntegerKeys::Unsigned,
            IntKind::U64 => IntegerKeys::Unsigned,
            IntKind::U128 => IntegerKeys::Unsigned,
            IntKind::Usize => IntegerKeys::Unsigned,
        }
    }
}

/// The shape of a type's values.
#[derive(Drop)]
pub enum Shape {
    /// null
    Null,
    /// a truth value
    Bool,
    /// a whole number of this kind
    Int(IntKind),
    /// a whole number of this kind, and not 0
    NonZero(IntKind),
    /// a number
    Number,
    /// a text
    Text,
    /// a text of one code point
    Char,
    /// a text of this format
    Formatted(String),
    /// every value
    Any,
    /// a list of bytes; one that is read may also be a text
    Bytes,
    /// a map or a truth value
    SchemaItself,
    /// null, or a value of this row
    Option(TypeNo),
    /// a list of values of this row
    Seq(TypeNo),
    /// a list of values of this row, no two of them equal
    Set(TypeNo),
    /// a list of exactly so many values of this row
    Array(TypeNo, u64),
    /// a list of at most so many values of this row
    UpTo(TypeNo, u64),
    /// a list of one value of each row, in this order
    Tuple(Vec<TypeNo>),
    /// a map with these fields
    Struct(Fields),
    /// a value of this row
    Newtype(TypeNo),
    /// a map with `Ok` of the first row, or one with `Err` of the second, and not both
    Result(TypeNo, TypeNo),
    /// a map with `Included` or one with `Excluded` of this row, and not both, or the text
    /// `Unbounded`
    Bound(TypeNo),
    /// a map with `start` and `end` of this row
    Range(TypeNo),
    /// a map with one key: `Left` of the first row, or `Right` of the second
    Either(TypeNo, TypeNo),
    /// a map with keys that the first row allows, and values of the second
    Map(TypeNo, TypeNo),
    /// the name of a unit variant, or a map with the name of another as its one key
    External(Vec<Variant>),
    /// what a variant has, without its name
    Untagged(Vec<Variant>),
    /// a map with the name of a variant under a tag, and beside it what the variant has
    Internal(Internal),
    /// a map with the name of a variant under one key and what the variant has under another
    Adjacent(Adjacent),
    /// a value that this schema accepts
    Literal(Schema),
}

/// The fields of a struct.
#[derive(Drop)]
pub struct Fields {
    pub list: Vec<Field>,
    /// The types whose members are in the same map as the fields.
    pub flatten: Vec<Flattened>,
    /// No other keys are allowed.
    pub closed: bool,
}

/// A type that is flattened into a struct: its members are in the same map.
#[derive(Clone, Copy)]
pub struct Flattened {
    pub ty: TypeNo,
    /// Whether its members are required, if the type is an Option.
    pub required: Required,
}

/// A member of a struct.
#[derive(Drop)]
pub struct Field {
    pub name: String,
    pub ty: TypeNo,
    pub required: Required,
    /// Annotations that are inserted into the field's schema.
    pub notes: Map<String, Value>,
}

/// Whether a member is required, in values that are read and in those that are written.
#[derive(Clone, Copy, PartialEq, Eq, Debug)]
pub struct Required {
    pub deserialize: bool,
    pub serialize: bool,
}

impl Shape {
    /// The row in an Option.
    pub fn option(&self) -> Option<TypeNo>
        ensures { result ≡ option_of (shape_of self.now) }
    {
        match self {
            Shape::Option(n) => Some(*n),
            _ => None,
        }
    }

    fn is_equal(&self, other: &Shape) -> bool
        ensures { result ≡ shape_eq (shape_of self.now) (shape_of other.now) }
    {
        match (self, other) {
            (Shape::Null, Shape::Null) => true,
            (Shape::Bool, Shape::Bool) => true,
            (Shape::Int(kind), Shape::Int(of_other)) => kind == of_other,
            (Shape::NonZero(kind), Shape::NonZero(of_other)) => kind == of_other,
            (Shape::Number, Shape::Number) => true,
            (Shape::Text, Shape::Text) => true,
            (Shape::Char, Shape::Char) => true,
            (Shape::Formatted(format), Shape::Formatted(of_other)) => format == of_other,
            (Shape::Any, Shape::Any) => true,
            (Shape::Bytes, Shape::Bytes) => true,
            (Shape::SchemaItself, Shape::SchemaItself) => true,
            (Shape::Option(n), Shape::Option(m)) => n == m,
            (Shape::Seq(n), Shape::Seq(m)) => n == m,
            (Shape::Set(n), Shape::Set(m)) => n == m,
            (Shape::Array(n, len), Shape::Array(m, count)) => n == m && len == count,
            (Shape::UpTo(n, len), Shape::UpTo(m, count)) => n == m && len == count,
            (Shape::Tuple(parts), Shape::Tuple(of_other)) => parts == of_other,
            (Shape::Struct(fields), Shape::Struct(of_other)) => fields.is_equal(of_other),
            (Shape::Newtype(n), Shape::Newtype(m)) => n == m,
            (Shape::Result(a, b), Shape::Result(c, d)) => a == c && b == d,
            (Shape::Bound(n), Shape::Bound(m)) => n == m,
            (Shape::Range(n), Shape::Range(m)) => n == m,
            (Shape::Either(a, b), Shape::Either(c, d)) => a == c && b == d,
            (Shape::Map(a, b), Shape::Map(c, d)) => a == c && b == d,
            (Shape::External(a), Shape::External(b)) => variants_equal(a, b),
            (Shape::Untagged(a), Shape::Untagged(b)) => variants_equal(a, b),
            (Shape::Internal(a), Shape::Internal(b)) => a.is_equal(b),
            (Shape::Adjacent(a), Shape::Adjacent(b)) => a.is_equal(b),
            (Shape::Literal(a), Shape::Literal(b)) => json_same(a.as_value(), b.as_value()),
            _ => false,
        }
    }
}

impl Fields {
    // The order of the fields and of the flattened rows counts.
    pub(crate) fn is_equal(&self, other: &Fields) -> bool
        ensures { result ≡ fields_eq (fields_of self.now) (fields_of other.now) }
    {
        self.closed == other.closed
            && lists_equal(&self.list, &other.list)
            && flattened_equal(&self.flatten, &other.flatten)
    }
}

fn flattened_equal(a: &[Flattened], b: &[Flattened]) -> bool
    ensures { result ≡ pointwise flattened_eq (map flattened_of a.now) (map flattened_of b.now) }
{
    let mut others = b.iter();
    for flattened in a {
        let Some(other) = others.next() else {
            return false;
        };
        if !(flattened.ty == other.ty && flattened.required == other.required) {
            return false;
        }
    }
    others.next().is_none()
}

fn lists_equal(a: &[Field], b: &[Field]) -> bool
    ensures { result ≡ list_eq (map field_of a.now) (map field_of b.now) }
{
    let mut others = b.iter();
    for field in a {
        let Some(other) = others.next() else {
            return false;
        };
        if !field.is_equal(other) {
            return false;
        }
    }
    others.next().is_none()
}

impl Field {
    fn is_equal(&self, other: &Field) -> bool
        ensures { result ≡ field_eq (field_of self.now) (field_of other.now) }
    {
        self.name == other.name
            && self.ty == other.ty
            && self.required == other.required
            && json_same_members(&self.notes, &other.notes)
    }
}

/// The entry of a row: its shape, its notes, and whether it is written in place.
#[derive(Drop)]
pub struct TypeEntry {
    /// The document is written in place wherever the row is referred to.
    pub inline: bool,
    /// Annotations that are inserted into the finished document.
    pub notes: Map<String, Value>,
    pub shape: Shape,
}

impl TypeEntry {
    /// Returns an entry of this shape without notes.
    pub fn without_notes(alloc: Global, inline: bool, shape: Shape) -> TypeEntry
        ensures { entry_of result ≡ without_notes inline (shape_of shape) }
    {
        TypeEntry {
            inline,
            notes: Map::new(alloc),
            shape,
        }
    }

    /// Returns whether two entries are equal. Notes are compared as JSON values, so an entry whose
    /// notes have a number that is not a 64-bit whole number equals no entry, not even itself.
    pub fn is_equal(&self, other: &TypeEntry) -> bool
        ensures { result ≡ entry_eq (entry_of self.now) (entry_of other.now) }
    {
        self.inline == other.inline
            && self.shape.is_equal(&other.shape)
            && json_same_members(&self.notes, &other.notes)
    }
}
