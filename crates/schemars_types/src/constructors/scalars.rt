//! Rows of types that are not made of others.
ghost use Rattle.std.specs.Prelude.{◌≡◌, codes, false, IfOk, OnOk, OnErr, IfErr, string_bytes};
ghost use Rattle.schemars_types.specs.Words.{format_of, non_zero_name, in_place, without_notes, inserted, non_zero_id, Registers, Refuses, version_schema, string};
ghost use Rattle.schemars_shapes.specs.Shape.{Shape as shape};

use crate::error::TypesError;
use crate::table::Types;
use schemars_schema::Schema;
use schemars_shapes::{IntKind, Shape, TypeNo};
use serde_json::Value;
use std::alloc::{AllocError, Global};

/// Rows of common types that are not made of others.
///
/// Each call returns the number of the type's row, which has no notes, and adds the row if it does
/// not exist. Rows are written in place, except those of bytes, schemas and versions.
/// `AlreadyDefined` is returned if the id has another entry. On an error the table is unchanged.
impl Types {
    /// The type of null.
    pub fn null(&mut self, alloc: Global) -> Result<TypeNo, TypesError>
        ensures ok { IfOk result
            (Registers (codes "null") (codes "null") (in_place shape.null) self.old self.new) }
        ensures err { OnErr result (self.new ≡ self.old) }
        ensures refused { IfErr result (Refuses (codes "null") (in_place shape.null) self.old) }
    {
        self.register_named(alloc, "null", "null", true, Shape::Null)
    }

    /// The type of truth values.
    pub fn bool(&mut self, alloc: Global) -> Result<TypeNo, TypesError>
        ensures ok { IfOk result
            (Registers (codes "boolean") (codes "boolean")
            (in_place shape.bool) self.old self.new) }
        ensures err { OnErr result (self.new ≡ self.old) }
        ensures refused { IfErr result (Refuses (codes "boolean") (in_place shape.bool) self.old) }
    {
        self.register_named(alloc, "boolean", "boolean", true, Shape::Bool)
    }

    /// The type of whole numbers of this kind.
    pub fn int(&mut self, alloc: Global, kind: IntKind) -> Result<TypeNo, TypesError>
        ensures ok { IfOk result
            (Registers (format_of kind) (format_of kind)
            (in_place (shape.int kind)) self.old self.new) }
        ensures err { OnErr result (self.new ≡ self.old) }
        ensures refused { IfErr result
            (Refuses (format_of kind) (in_place (shape.int kind)) self.old) }
    {
        self.register_named(alloc, kind.format(), kind.format(), true, Shape::Int(kind))
    }

    /// The type of whole numbers of this kind without 0.
    pub fn non_zero(&mut self, alloc: Global, kind: IntKind) -> Result<TypeNo, TypesError>
        ensures ok { IfOk result (Registers (non_zero_id kind) (non_zero_name kind)
            (in_place (shape.non_zero kind)) self.old self.new) }
        ensures err { OnErr result (self.new ≡ self.old) }
        ensures refused { IfErr result
            (Refuses (non_zero_id kind) (in_place (shape.non_zero kind)) self.old) }
    {
        let name = kind.non_zero_name();
        let id = format!(in alloc; "std::num::{name}")?;
        self.register_named(alloc, id.as_str(), name, true, Shape::NonZero(kind))
    }

    /// The type of numbers.
    pub fn number(&mut self, alloc: Global) -> Result<TypeNo, TypesError>
        ensures ok { IfOk result
            (Registers (codes "Number") (codes "Number")
            (in_place shape.number) self.old self.new) }
        ensures err { OnErr result (self.new ≡ self.old) }
        ensures refused { IfErr result (Refuses (codes "Number") (in_place shape.number) self.old) }
    {
        self.register_named(alloc, "Number", "Number", true, Shape::Number)
    }

    /// The type of texts.
    pub fn text(&mut self, alloc: Global) -> Result<TypeNo, TypesError>
        ensures ok { IfOk result
            (Registers (codes "string") (codes "string") (in_place shape.text) self.old self.new) }
        ensures err { OnErr result (self.new ≡ self.old) }
        ensures refused { IfErr result (Refuses (codes "string") (in_place shape.text) self.old) }
    {
        self.register_named(alloc, "string", "string", true, Shape::Text)
    }

    /// The type of texts of one code point.
    pub fn char(&mut self, alloc: Global) -> Result<TypeNo, TypesError>
        ensures ok { IfOk result
            (Registers (codes "char") (codes "Character") (in_place shape.char) self.old self.new) }
        ensures err { OnErr result (self.new ≡ self.old) }
        ensures refused { IfErr result (Refuses (codes "char") (in_place shape.char) self.old) }
    {
        self.register_named(alloc, "char", "Character", true, Shape::Char)
    }

    /// The type of texts of this format, under an id and a name of the caller's.
    pub fn formatted(
        &mut self,
        alloc: Global,
        id: String,
        name: String,
        format: String,
    ) -> Result<TypeNo, TypesError>
        ensures ok { IfOk result (Registers (string_bytes id) (string_bytes name)
            (in_place (shape.formatted (string_bytes format))) self.old self.new) }
        ensures err { OnErr result (self.new ≡ self.old) }
        ensures refused { IfErr result (Refuses (string_bytes id)
            (in_place (shape.formatted (string_bytes format))) self.old) }
    {
        self.register_row(alloc, id, name, true, Shape::Formatted(format))
    }

    /// The type of all values.
    pub fn any(&mut self, alloc: Global) -> Result<TypeNo, TypesError>
        ensures ok { IfOk result
            (Registers (codes "AnyValue") (codes "AnyValue")
            (in_place shape.any) self.old self.new) }
        ensures err { OnErr result (self.new ≡ self.old) }
        ensures refused { IfErr result (Refuses (codes "AnyValue") (in_place shape.any) self.old) }
    {
        self.register_named(alloc, "AnyValue", "AnyValue", true, Shape::Any)
    }

    /// The type of byte strings.
    pub fn bytes(&mut self, alloc: Global) -> Result<TypeNo, TypesError>
        ensures ok { IfOk result (Registers (codes "bytes::Bytes") (codes "Bytes")
            (without_notes false shape.bytes) self.old self.new) }
        ensures err { OnErr result (self.new ≡ self.old) }
        ensures refused { IfErr result
            (Refuses (codes "bytes::Bytes") (without_notes false shape.bytes) self.old) }
    {
        self.register_named(alloc, "bytes::Bytes", "Bytes", false, Shape::Bytes)
    }

    /// The type of schemas.
    pub fn schema(&mut self, alloc: Global) -> Result<TypeNo, TypesError>
        ensures ok { IfOk result (Registers (codes "schemars::Schema") (codes "Schema")
            (without_notes false shape.schema_itself) self.old self.new) }
        ensures err { OnErr result (self.new ≡ self.old) }
        ensures refused { IfErr result
            (Refuses (codes "schemars::Schema")
            (without_notes false shape.schema_itself) self.old) }
    {
        self.register_named(
            alloc,
            "schemars::Schema",
            "Schema",
            false,
            Shape::SchemaItself,
        )
    }

    /// The type of versions, which are texts.
    pub fn version(&mut self, alloc: Global) -> Result<TypeNo, TypesError>
        ensures ok { IfOk result (Registers (codes "semver::Version") (codes "SemVer")
            (without_notes false (shape.literal version_schema)) self.old self.new) }
        ensures err { OnErr result (self.new ≡ self.old) }
        ensures refused { IfErr result
            (Refuses (codes "semver::Version")
            (without_notes false (shape.literal version_schema)) self.old) }
    {
        let schema = version_schema(alloc)?;
        self.register_named(
            alloc,
            "semver::Version",
            "SemVer",
            false,
            Shape::Literal(schema),
        )
    }
}

// Three numbers, behind a `-` parts of a pre-release, and behind a `+` parts of a build.
const VERSION: &str =
    "^(0|[1-9]\\d*)\\.(0|[1-9]\\d*)\\.(0|[1-9]\\d*)(?:-((?:0|[1-9]\\d*|\\d*[a-zA-Z-][0-9a-zA-Z-]*)(?:\\.(?:0|[1-9]\\d*|\\d*[a-zA-Z-][0-9a-zA-Z-]*))*))?(?:\\+([0-9a-zA-Z-]+(?:\\.[0-9a-zA-Z-]+)*))?$";

fn version_schema(alloc: Global) -> Result<Schema, AllocError>
    ensures { IfOk result (λ s. s ≡ version_schema) }
{
    let mut schema = Schema::default(alloc);
    insert_text(alloc, &mut schema, "type", "string")?;
    insert_text(alloc, &mut schema, "pattern", VERSION)?;
    Ok(schema)
}

// Writes a text under a key of the schema.
fn insert_text(alloc: Global, schema: &mut Schema, key: &str, text: &str) -> Result<(), AllocError>
    ensures { OnOk result (schema.new ≡ inserted key.now (string text.now) schema.old) }
{
    let text = String::from_str(alloc, text)?;
    schema.insert(alloc, String::from_str(alloc, key)?, Value::String(text))?;
    Ok(())
}
