//! Settings of generators.
use crate::steps::own_transforms::{Growth, Own, Refusing};
use crate::steps::parts::call_in;
use schemars::GenerateError;
use schemars::generate::SchemaSettings;
use schemars::transform::{GenTransform, NoTransform, RecursiveTransform, TransformError};
use std::alloc::{AllocError, Global};
use std::borrow::CowStr;

/// The settings of some words: a draft, what else they say, and the path of the definitions.
pub(crate) fn settings_of(
    alloc: Global,
    words: &str,
) -> Result<SchemaSettings<Own>, GenerateError> {
    let (draft, rest) = call_in(words);
    let (asks, path) = call_in(rest);
    let path = String::from_str(alloc, path)?;
    let settings = settings_for::<NoTransform>(alloc, draft)?.for_own(alloc)?;
    let mut settings = settings_that(settings, asks)?;
    match path.as_str() {
        "" => {}
        "nowhere" => settings.definitions_path = CowStr::Borrowed(""),
        _ => settings.definitions_path = CowStr::Owned(path),
    }
    Ok(settings)
}

/// The settings of this dialect, or the default ones.
pub(crate) fn settings_for<O: Drop>(
    alloc: Global,
    draft: &str,
) -> Result<SchemaSettings<O>, AllocError> {
    match draft {
        "draft-07" => SchemaSettings::draft07(alloc),
        "2019-09" => SchemaSettings::draft2019_09(alloc),
        "openapi3" => SchemaSettings::openapi3(alloc),
        "2020-12" => Ok(SchemaSettings::draft2020_12(alloc)),
        _ => Ok(SchemaSettings::default(alloc)),
    }
}

// The settings with one of them changed, or with a user-defined transform.
fn settings_that(
    settings: SchemaSettings<Own>,
    asks: &str,
) -> Result<SchemaSettings<Own>, AllocError> {
    match own_of(asks) {
        Some(own) => settings.with_transform(GenTransform::Own(own)),
        None => Ok(changed(settings, asks)),
    }
}

fn changed(settings: SchemaSettings<Own>, asks: &str) -> SchemaSettings<Own> {
    let mut settings = settings;
    match asks {
        "titles" => settings.untagged_enum_variant_titles = true,
        "inline" => settings.inline_subschemas = true,
        "no_meta_schema" => settings.meta_schema = None,
        "without_bools" => settings
            .transforms
            .retain(|t| !matches!(t, GenTransform::ReplaceBoolSchemas(_))),
        "serialize" => return settings.for_serialize(),
        "deserialize" => return settings.for_serialize().for_deserialize(),
        _ => {}
    }
    settings
}

fn own_of(asks: &str) -> Option<Own> {
    match asks {
        "counting" => Some(Own::Counting(0)),
        "too_deep" => Some(refusing(TransformError::TooDeep)),
        "memory" => Some(refusing(TransformError::Memory)),
        "growing" => Some(Own::Growing(RecursiveTransform(Growth))),
        _ => None,
    }
}

// Refuses at the second schema.
fn refusing(refusal: TransformError) -> Own {
    Own::Refusing(RecursiveTransform(Refusing { left: 1, refusal }))
}
