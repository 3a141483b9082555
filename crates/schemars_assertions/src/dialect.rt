//! How the drafts of JSON Schema differ.
ghost use Rattle.std.specs.Prelude.{◌≡◌};
ghost use Rattle.schemars_schema.specs.Dialects.{draft2020_12, draft2019_09, draft07, openapi3, reads_dependencies};

use std::marker::Model;

/// A draft of JSON Schema: how its keywords are read.
#[derive(Clone, Copy)]
pub struct Dialect {
    judges_siblings: bool,
    reads_prefix_items: bool,
    reads_nullable: bool,
    reads_const: bool,
    reads_unevaluated: bool,
}

impl Model for Dialect {
    ghost use Rattle.schemars_schema.specs.Dialects.{Dialect as Reading};

    ghost Value = { Reading };

    ghost view = { λ d. record {
      judges_siblings = d.judges_siblings;
      reads_prefix_items = d.reads_prefix_items;
      reads_nullable = d.reads_nullable;
      reads_const = d.reads_const;
      reads_unevaluated = d.reads_unevaluated;
    } };

    ghost inverse = { λ d. record {
      judges_siblings = d.judges_siblings;
      reads_prefix_items = d.reads_prefix_items;
      reads_nullable = d.reads_nullable;
      reads_const = d.reads_const;
      reads_unevaluated = d.reads_unevaluated;
    } };
}

impl Dialect {
    /// JSON Schema 2020-12.
    pub const fn draft2020_12() -> Dialect
        ensures { result ≡ draft2020_12 }
    {
        Dialect {
            judges_siblings: true,
            reads_prefix_items: true,
            reads_nullable: false,
            reads_const: true,
            reads_unevaluated: true,
        }
    }

    /// JSON Schema 2019-09.
    pub const fn draft2019_09() -> Dialect
        ensures { result ≡ draft2019_09 }
    {
        Dialect {
            judges_siblings: true,
            reads_prefix_items: false,
            reads_nullable: false,
            reads_const: true,
            reads_unevaluated: true,
        }
    }

    /// JSON Schema Draft 7.
    pub const fn draft07() -> Dialect
        ensures { result ≡ draft07 }
    {
        Dialect {
            judges_siblings: false,
            reads_prefix_items: false,
            reads_nullable: false,
            reads_const: true,
            reads_unevaluated: false,
        }
    }

    /// OpenAPI 3.0.
    pub const fn openapi3() -> Dialect
        ensures { result ≡ openapi3 }
    {
        Dialect {
            judges_siblings: false,
            reads_prefix_items: false,
            reads_nullable: true,
            reads_const: false,
            reads_unevaluated: false,
        }
    }

    /// Whether the siblings of `$ref` are judged too.
    pub fn judges_siblings(self) -> bool
        ensures { result ≡ self.judges_siblings }
    {
        self.judges_siblings
    }

    /// Whether `prefixItems` judges by position, and not a list under `items`.
    pub fn reads_prefix_items(self) -> bool
        ensures { result ≡ self.reads_prefix_items }
    {
        self.reads_prefix_items
    }

    /// Whether `nullable` is read.
    pub fn reads_nullable(self) -> bool
        ensures { result ≡ self.reads_nullable }
    {
        self.reads_nullable
    }

    /// Whether `const` is read, with the other keywords that came with Drafts 6 and 7.
    pub fn reads_const(self) -> bool
        ensures { result ≡ self.reads_const }
    {
        self.reads_const
    }

    /// Whether `unevaluatedProperties` is read, with the other keywords that came with Draft 2019-09.
    pub fn reads_unevaluated(self) -> bool
        ensures { result ≡ self.reads_unevaluated }
    {
        self.reads_unevaluated
    }

    /// Whether `dependencies` is read.
    pub fn reads_dependencies(self) -> bool
        ensures { result ≡ reads_dependencies self }
    {
        self.reads_const && !self.reads_unevaluated
    }
}
