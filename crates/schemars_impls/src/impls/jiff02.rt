//! Dates, times and spans of time, which are texts.
ghost use Rattle.std.specs.Prelude.{◌≡◌, None, codes, true, IfErr, IfOk, OnOk};
ghost use Rattle.schemars_impls.specs.Words.{cow_str_bytes, entry_of, in_place, shape_of, unknown_in, KeepsRows, Describes, RefusesPart, alone, zoned_row};
ghost use Rattle.schemars_shapes.specs.Shape.{Shape as shape};

use crate::law::{JsonSchema, entry};
use jiff::civil::{Date, DateTime, Time};
use jiff::{SignedDuration, Span, Timestamp, Zoned};
use schemars_types::{Shape, TypeEntry, Types, TypesError};
use std::alloc::{AllocError, Global};
use std::borrow::CowStr;

impl JsonSchema for SignedDuration {
    ghost says = { alone (codes "jiff::SignedDuration") (codes "SignedDuration") true
        (in_place (shape.formatted (codes "duration"))) };

    fn inline_schema() -> bool {
        true
    }

    fn schema_name(_alloc: Global) -> Result<CowStr<'static>, AllocError> {
        Ok(CowStr::Borrowed("SignedDuration"))
    }

    fn schema_id(_alloc: Global) -> Result<CowStr<'static>, AllocError> {
        Ok(CowStr::Borrowed("jiff::SignedDuration"))
    }

    fn json_schema(alloc: Global, _types: &mut Types) -> Result<TypeEntry, TypesError> {
        let format = String::from_str(alloc, "duration")?;
        Ok(entry(alloc, true, Shape::Formatted(format)))
    }
}

impl JsonSchema for Span {
    ghost says = { alone (codes "jiff::Span") (codes "Span") true
        (in_place (shape.formatted (codes "duration"))) };

    fn inline_schema() -> bool {
        true
    }

    fn schema_name(_alloc: Global) -> Result<CowStr<'static>, AllocError> {
        Ok(CowStr::Borrowed("Span"))
    }

    fn schema_id(_alloc: Global) -> Result<CowStr<'static>, AllocError> {
        Ok(CowStr::Borrowed("jiff::Span"))
    }

    fn json_schema(alloc: Global, _types: &mut Types) -> Result<TypeEntry, TypesError> {
        let format = String::from_str(alloc, "duration")?;
        Ok(entry(alloc, true, Shape::Formatted(format)))
    }
}

impl JsonSchema for Timestamp {
    ghost says = { alone (codes "jiff::Timestamp") (codes "Timestamp") true
        (in_place (shape.formatted (codes "date-time"))) };

    fn inline_schema() -> bool {
        true
    }

    fn schema_name(_alloc: Global) -> Result<CowStr<'static>, AllocError> {
        Ok(CowStr::Borrowed("Timestamp"))
    }

    fn schema_id(_alloc: Global) -> Result<CowStr<'static>, AllocError> {
        Ok(CowStr::Borrowed("jiff::Timestamp"))
    }

    fn json_schema(alloc: Global, _types: &mut Types) -> Result<TypeEntry, TypesError> {
        let format = String::from_str(alloc, "date-time")?;
        Ok(entry(alloc, true, Shape::Formatted(format)))
    }
}

impl<'a> JsonSchema for Zoned<'a> {
    ghost says = { zoned_row };

    fn inline_schema() -> bool
        ensures { result ≡ true }
    {
        true
    }

    fn schema_name(_alloc: Global) -> Result<CowStr<'static>, AllocError>
        ensures { IfOk result (λ t. cow_str_bytes t ≡ codes "Zoned") }
    {
        Ok(CowStr::Borrowed("Zoned"))
    }

    fn schema_id(_alloc: Global) -> Result<CowStr<'static>, AllocError>
        ensures { IfOk result (λ t. cow_str_bytes t ≡ codes "jiff::Zoned") }
    {
        Ok(CowStr::Borrowed("jiff::Zoned"))
    }

    fn json_schema(alloc: Global, types: &mut Types) -> Result<TypeEntry, TypesError>
        ensures keeps { KeepsRows types.old types.new }
        ensures known { IfOk result (λ e. unknown_in types.new (shape_of e.shape) ≡ None) }
        ensures made { IfOk result (λ e.
            entry_of e ≡ in_place (shape.formatted (codes "zoned-date-time"))) }
        ensures follows { OnOk result (Describes zoned_row types.old types.new) }
        ensures refused { IfErr result (RefusesPart zoned_row types.old) }
    {
        let format = String::from_str(alloc, "zoned-date-time")?;
        Ok(entry(alloc, true, Shape::Formatted(format)))
    }
}

impl JsonSchema for Date {
    ghost says = { alone (codes "jiff::Date") (codes "Date") true
        (in_place (shape.formatted (codes "date"))) };

    fn inline_schema() -> bool {
        true
    }

    fn schema_name(_alloc: Global) -> Result<CowStr<'static>, AllocError> {
        Ok(CowStr::Borrowed("Date"))
    }

    fn schema_id(_alloc: Global) -> Result<CowStr<'static>, AllocError> {
        Ok(CowStr::Borrowed("jiff::Date"))
    }

    fn json_schema(alloc: Global, _types: &mut Types) -> Result<TypeEntry, TypesError> {
        let format = String::from_str(alloc, "date")?;
        Ok(entry(alloc, true, Shape::Formatted(format)))
    }
}

impl JsonSchema for Time {
    ghost says = { alone (codes "jiff::Time") (codes "Time") true
        (in_place (shape.formatted (codes "partial-time"))) };

    fn inline_schema() -> bool {
        true
    }

    fn schema_name(_alloc: Global) -> Result<CowStr<'static>, AllocError> {
        Ok(CowStr::Borrowed("Time"))
    }

    fn schema_id(_alloc: Global) -> Result<CowStr<'static>, AllocError> {
        Ok(CowStr::Borrowed("jiff::Time"))
    }

    fn json_schema(alloc: Global, _types: &mut Types) -> Result<TypeEntry, TypesError> {
        let format = String::from_str(alloc, "partial-time")?;
        Ok(entry(alloc, true, Shape::Formatted(format)))
    }
}

impl JsonSchema for DateTime {
    ghost says = { alone (codes "jiff::DateTime") (codes "DateTime") true
        (in_place (shape.formatted (codes "partial-date-time"))) };

    fn inline_schema() -> bool {
        true
    }

    fn schema_name(_alloc: Global) -> Result<CowStr<'static>, AllocError> {
        Ok(CowStr::Borrowed("DateTime"))
    }

    fn schema_id(_alloc: Global) -> Result<CowStr<'static>, AllocError> {
        Ok(CowStr::Borrowed("jiff::DateTime"))
    }

    fn json_schema(alloc: Global, _types: &mut Types) -> Result<TypeEntry, TypesError> {
        let format = String::from_str(alloc, "partial-date-time")?;
        Ok(entry(alloc, true, Shape::Formatted(format)))
    }
}
