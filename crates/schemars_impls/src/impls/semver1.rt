//! Versions.
ghost use Rattle.std.specs.Prelude.{◌≡◌, codes, false, IfOk};
ghost use Rattle.schemars_impls.specs.Words.{without_notes, version_schema, alone};
ghost use Rattle.schemars_shapes.specs.Shape.{Shape as shape};

use crate::impls::literals::insert_text;
use crate::law::{JsonSchema, entry};
use schemars_schema::Schema;
use schemars_types::{Shape, TypeEntry, Types, TypesError};
use semver::Version;
use std::alloc::{AllocError, Global};
use std::borrow::CowStr;

impl JsonSchema for Version {
    ghost says = { alone (codes "semver::Version") (codes "SemVer") false
        (without_notes false (shape.literal version_schema)) };

    fn inline_schema() -> bool {
        false
    }

    fn schema_name(_alloc: Global) -> Result<CowStr<'static>, AllocError> {
        Ok(CowStr::Borrowed("SemVer"))
    }

    fn schema_id(_alloc: Global) -> Result<CowStr<'static>, AllocError> {
        Ok(CowStr::Borrowed("semver::Version"))
    }

    fn json_schema(alloc: Global, _types: &mut Types) -> Result<TypeEntry, TypesError> {
        let schema = version_schema(alloc)?;
        Ok(entry(alloc, false, Shape::Literal(schema)))
    }
}

// Three numbers, behind a `-` parts of a pre-release, and behind a `+` parts of a build.
const PATTERN: &str =
    "^(0|[1-9]\\d*)\\.(0|[1-9]\\d*)\\.(0|[1-9]\\d*)(?:-((?:0|[1-9]\\d*|\\d*[a-zA-Z-][0-9a-zA-Z-]*)(?:\\.(?:0|[1-9]\\d*|\\d*[a-zA-Z-][0-9a-zA-Z-]*))*))?(?:\\+([0-9a-zA-Z-]+(?:\\.[0-9a-zA-Z-]+)*))?$";

fn version_schema(alloc: Global) -> Result<Schema, AllocError>
    ensures { IfOk result (λ s. s ≡ version_schema) }
{
    let mut schema = Schema::default(alloc);
    insert_text(alloc, &mut schema, "type", "string")?;
    insert_text(alloc, &mut schema, "pattern", PATTERN)?;
    Ok(schema)
}
