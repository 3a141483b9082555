//! Types of the crates that are used.
use crate::types::line::line_of;
use crate::types::own::own;
use arrayvec::{ArrayString, ArrayVec};
use bytes::{Bytes, BytesMut};
use either::Either;
use indexmap::{IndexMap, IndexSet};
use jiff::civil::{Date, DateTime, Time};
use jiff::{SignedDuration, Span, Timestamp, Zoned};
use schemars::GenerateError;
use semver::Version;
use smallvec::SmallVec;
use std::alloc::Global;
use url::Url;
use uuid::Uuid;

pub(crate) fn pack(alloc: Global, of: &str) -> Result<String, GenerateError> {
    match of {
        "ArrayVec<i32,8>" => line_of::<ArrayVec<i32, 8>>(alloc),
        "ArrayString<8>" => line_of::<ArrayString<8>>(alloc),
        "SmallVec<[bool;4]>" => line_of::<SmallVec<bool, 4>>(alloc),
        "IndexSet<bool>" => line_of::<IndexSet<bool>>(alloc),
        "IndexMap<u8,bool>" => line_of::<IndexMap<u8, bool>>(alloc),
        "IndexMap<String,bool>" => line_of::<IndexMap<String, bool>>(alloc),
        "Bytes" => line_of::<Bytes>(alloc),
        "BytesMut" => line_of::<BytesMut>(alloc),
        "Either<bool,char>" => line_of::<Either<bool, char>>(alloc),
        "Url" => line_of::<Url>(alloc),
        "Uuid" => line_of::<Uuid>(alloc),
        "Version" => line_of::<Version>(alloc),
        _ => date(alloc, of),
    }
}

pub(crate) fn date(alloc: Global, of: &str) -> Result<String, GenerateError> {
    match of {
        "SignedDuration" => line_of::<SignedDuration>(alloc),
        "Span" => line_of::<Span>(alloc),
        "Timestamp" => line_of::<Timestamp>(alloc),
        "Zoned" => line_of::<Zoned<'static>>(alloc),
        "Date" => line_of::<Date>(alloc),
        "Time" => line_of::<Time>(alloc),
        "DateTime" => line_of::<DateTime>(alloc),
        _ => own(alloc, of),
    }
}
