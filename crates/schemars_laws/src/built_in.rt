//! The laws of the built-in transforms.
//!
//! A document and a part of it, both transformed, accept under one dialect what they accepted under
//! another, for every reading of patterns and however many references are followed, wherever the
//! document has its definitions: at `$defs`, at `definitions` or at `/components/schemas`, where
//! each definition is transformed too. References are `#` or name a definition there. Where the
//! dialects read `unevaluatedProperties`, `unevaluatedItems`, `dependentSchemas` or
//! `dependencies`, no schema object is under them.
ghost use Rattle.schemars_laws.specs.Words.{Dialect, draft2020_12, IsConstAlone, HasPlainItems, HasPlainReference, HasPlainType, HasNoUnevaluated, IsDraft07, plain_nullable, without_const, with_const, by_items, by_prefix_items, alone_by, beside_by, with_nullable_read, without_nullable_read, with_unevaluated, without_unevaluated, Anything, MovesDrafts, MovesDocuments, MovesToOpenApi, LeavesReferencesAlone, for_draft07, for_draft2019_09, for_openapi3};
ghost use Rattle.schemars_schema.specs.Dialects as dialect;
ghost use Rattle.schemars_transform.specs.Built as made;
ghost use Rattle.schemars_transform.specs.Nullable as nullable;
ghost use Rattle.schemars_transform.specs.declared.built_in.bool_schemas.ReplaceBoolSchemas as src;
ghost use Rattle.schemars_transform.specs.Formats as formats;
ghost use Rattle.schemars_transform.specs.declared.built_in.formats.RestrictFormats as restricts;
ghost use Rattle.schemars_transform.specs.Unevaluated as unevaluated;

/// Truth values as objects mean the same.
pub fn replace_bool_schemas()
    ensures { (t : src.ReplaceBoolSchemas) (d : Dialect)
        → MovesDocuments (made.replace_bool_schemas t) d d Anything }
{}

/// Beside references that moved into `allOf` no keyword is passed over, where readers pass over
/// siblings of `$ref`; and no sibling is left.
pub fn remove_ref_siblings()
    ensures moves { (d : Dialect)
        → MovesDocuments made.remove_ref_siblings (beside_by d) (alone_by d) HasPlainReference }
    ensures alone { LeavesReferencesAlone made.remove_ref_siblings }
{}

/// One `example` in place of `examples` means the same.
pub fn set_single_example()
    ensures { (d : Dialect) → MovesDocuments made.set_single_example d d Anything }
{}

/// A list of one value under `enum` means to all readers what `const` means to those that know it.
pub fn replace_const_value()
    ensures { (d : Dialect) → MovesDocuments made.replace_const_value (with_const d)
        (without_const d) IsConstAlone }
{}

/// A list under `items` means by the older drafts what `prefixItems` means.
pub fn replace_prefix_items()
    ensures { (d : Dialect)
        → MovesDocuments made.replace_prefix_items (by_prefix_items d) (by_items d) HasPlainItems }
{}

/// `nullable` means to readers that know it what null among the types means.
pub fn add_nullable()
    ensures { (d : Dialect) → MovesDocuments (nullable.add_nullable plain_nullable)
        (without_nullable_read d)
        (with_nullable_read d) HasPlainType }
{}

/// Formats mean nothing, so that those that go are not missed.
pub fn restrict_formats()
    ensures { (t : restricts.RestrictFormats) (d : Dialect)
        → MovesDocuments (formats.restrict_formats t) d d Anything }
{}

/// Where there are no `unevaluatedProperties`, nothing changes.
pub fn replace_unevaluated_properties()
    ensures { (d : Dialect) → MovesDocuments unevaluated.replace_unevaluated_properties
        (with_unevaluated d)
        (without_unevaluated d) HasNoUnevaluated }
{}

/// After all transforms of Draft 7 a document means under it what it meant under 2020-12.
pub fn draft07()
    ensures { MovesDrafts for_draft07 draft2020_12 dialect.draft07 IsDraft07 }
{}

/// After that of 2019-09 a document means under it what it meant under 2020-12.
pub fn draft2019_09()
    ensures { MovesDrafts for_draft2019_09 draft2020_12 dialect.draft2019_09 HasPlainItems }
{}

/// After all transforms of OpenAPI definitions at `/components/schemas` mean under it what they
/// meant under 2020-12.
pub fn openapi3()
    ensures { MovesToOpenApi for_openapi3 }
{}
