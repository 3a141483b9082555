//! The dialects of JSON Schema.
ghost use Rattle.std.specs.Prelude.{◌≡◌};
ghost use Rattle.schemars_readable.specs.Drafts.{dialect_of, draft_named, path_of};
ghost use Rattle.schemars_readable.specs.Unread.{is_named_by};

use schemars_schema::edits::is_listed;
use schemars_validate::Dialect;

const DRAFT07: [&str; 2] = [
    "http://json-schema.org/draft-07/schema#",
    "http://json-schema.org/draft-07/schema",
];

const DRAFT2019_09: [&str; 2] = [
    "https://json-schema.org/draft/2019-09/schema",
    "https://json-schema.org/draft/2019-09/schema#",
];

const DRAFT2020_12: [&str; 2] = [
    "https://json-schema.org/draft/2020-12/schema",
    "https://json-schema.org/draft/2020-12/schema#",
];

/// A dialect of JSON Schema.
#[derive(Clone, Copy, Debug, PartialEq, Eq)]
pub enum Draft {
    Draft07,
    Draft2019_09,
    Draft2020_12,
    OpenApi3,
}

impl Draft {
    /// The dialect of a name: `2020-12`, `2019-09`, `draft-07` or `openapi3`.
    pub fn named(name: &str) -> Option<Draft>
        ensures { result ≡ draft_named name.now }
    {
        match name {
            "2020-12" => Some(Draft::Draft2020_12),
            "2019-09" => Some(Draft::Draft2019_09),
            "draft-07" => Some(Draft::Draft07),
            "openapi3" => Some(Draft::OpenApi3),
            _ => None,
        }
    }

    /// How its keywords are read.
    pub fn dialect(self) -> Dialect
        ensures { result ≡ dialect_of self }
    {
        match self {
            Draft::Draft07 => Dialect::draft07(),
            Draft::Draft2019_09 => Dialect::draft2019_09(),
            Draft::Draft2020_12 => Dialect::draft2020_12(),
            Draft::OpenApi3 => Dialect::openapi3(),
        }
    }

    /// Whether keywords beside `$ref` judge values.
    pub fn judges_siblings(self) -> bool
        ensures { result ≡ (dialect_of self).judges_siblings }
    {
        match self {
            Draft::Draft07 | Draft::OpenApi3 => false,
            Draft::Draft2019_09 | Draft::Draft2020_12 => true,
        }
    }

    /// Whether `$schema` may say this: the draft's own meta-schema, with `#` behind it or without it. In
    /// OpenAPI it is no keyword.
    pub fn is_named_by(self, meta_schema: &str) -> bool
        ensures { result ≡ is_named_by self meta_schema.now }
    {
        match self {
            Draft::Draft07 => is_listed(meta_schema, &DRAFT07),
            Draft::Draft2019_09 => is_listed(meta_schema, &DRAFT2019_09),
            Draft::Draft2020_12 => is_listed(meta_schema, &DRAFT2020_12),
            Draft::OpenApi3 => true,
        }
    }

    /// The JSON Pointer at which its documents have their definitions.
    pub fn definitions_path(self) -> &'static str
        ensures { result.now ≡ path_of self }
    {
        match self {
            Draft::Draft07 => "/definitions",
            Draft::Draft2019_09 | Draft::Draft2020_12 => "/$defs",
            Draft::OpenApi3 => "/components/schemas",
        }
    }
}
