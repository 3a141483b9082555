//! What is asked of schemas about the parts of a value, and what is found.
use crate::probes::with_keywords;
use crate::reading::Reading;
use crate::told::{Failure, Told};
use schemars_readable::{Draft, member_place};
use schemars_validate::{Verdict, judged, validate};
use serde_json::{Map, Value};
use std::alloc::{AllocError, Global};

/// What stays the same at each place.
#[derive(Clone, Copy)]
pub struct Asked<'a> {
    pub alloc: Global,
    pub draft: Draft,
    pub document: &'a Value,
    pub reading: &'a Reading,
    pub references: u64,
}

/// A part of the value, and the way to the schema that judges it.
#[derive(Clone, Copy)]
pub struct At<'a> {
    pub instance: &'a str,
    pub keywords: &'a str,
    pub value: &'a Value,
}

/// Adds a failure of a keyword of the schema at the place.
pub fn add(
    asked: &Asked<'_>,
    keywords: &Map<String, Value>,
    keyword: &str,
    at: &At<'_>,
    error: &str,
    told: &mut Told,
) -> Result<(), AllocError> {
    let error = told.said(asked.alloc, error)?;
    told.add(Failure {
        keyword_location: member_place(asked.alloc, at.keywords, keyword)?,
        instance_location: String::from_str(asked.alloc, at.instance)?,
        error,
    })?;
    Ok(())
}

/// Adds a failure of the schema at the place as a whole.
pub fn add_whole(
    asked: &Asked<'_>,
    at: &At<'_>,
    error: &str,
    told: &mut Told,
) -> Result<(), AllocError> {
    let error = told.said(asked.alloc, error)?;
    told.add(Failure {
        keyword_location: String::from_str(asked.alloc, at.keywords)?,
        instance_location: String::from_str(asked.alloc, at.instance)?,
        error,
    })?;
    Ok(())
}

/// Whether a schema denies a value.
pub fn is_denied(asked: &Asked<'_>, schema: &Value, value: &Value) -> Result<bool, AllocError> {
    let says = validate(
        asked.alloc,
        asked.draft.dialect(),
        asked.document,
        asked.reading,
        asked.references,
        schema,
        value,
    )?;
    Ok(says == Verdict::No)
}

/// A mark for each member or item of a value: whether the schema judges it.
pub fn judged_by(
    asked: &Asked<'_>,
    schema: &Value,
    value: &Value,
) -> Result<Vec<bool>, AllocError> {
    judged(
        asked.alloc,
        asked.draft.dialect(),
        asked.document,
        asked.reading,
        asked.references,
        schema,
        value,
    )
}

/// Whether some of the keywords deny a value without the others.
pub fn is_denied_by(
    asked: &Asked<'_>,
    keywords: &Map<String, Value>,
    names: &[&str],
    value: &Value,
) -> Result<bool, AllocError> {
    let alone = with_keywords(asked.alloc, keywords, names)?;
    is_denied(asked, &alone, value)
}
