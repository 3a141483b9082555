//! Constants of the drafts that schemas are written for.

/// What `$schema` says in each draft.
pub mod meta_schemas {
    /// JSON Schema Draft 7.
    pub const DRAFT07: &str = "http://json-schema.org/draft-07/schema#";

    /// JSON Schema 2019-09.
    pub const DRAFT2019_09: &str = "https://json-schema.org/draft/2019-09/schema";

    /// JSON Schema 2020-12.
    pub const DRAFT2020_12: &str = "https://json-schema.org/draft/2020-12/schema";

    /// The schema objects of OpenAPI 3.0. Such a schema is mostly part of an OpenAPI document,
    /// and then has no `$schema` of its own.
    pub const OPENAPI3: &str =
        "https://spec.openapis.org/oas/3.0/schema/2024-10-18#/definitions/Schema";
}
