//! Addresses, which are texts.
ghost use Rattle.std.specs.Prelude.{codes, true};
ghost use Rattle.schemars_shapes.specs.Shape.{Shape as shape, in_place};
ghost use Rattle.schemars_impls.specs.Dictionary.{alone};

use crate::law::{JsonSchema, entry};
use schemars_types::{Shape, TypeEntry, Types, TypesError};
use std::alloc::{AllocError, Global};
use std::borrow::CowStr;
use std::net::{IpAddr, Ipv4Addr, Ipv6Addr, SocketAddr, SocketAddrV4, SocketAddrV6};

impl JsonSchema for Ipv4Addr {
    ghost says = { alone (codes "ipv4") (codes "ipv4") true
        (in_place (shape.formatted (codes "ipv4"))) };

    fn inline_schema() -> bool {
        true
    }

    fn schema_name(_alloc: Global) -> Result<CowStr<'static>, AllocError> {
        Ok(CowStr::Borrowed("ipv4"))
    }

    fn schema_id(alloc: Global) -> Result<CowStr<'static>, AllocError> {
        Self::schema_name(alloc)
    }

    fn json_schema(alloc: Global, _types: &mut Types) -> Result<TypeEntry, TypesError> {
        let format = String::from_str(alloc, "ipv4")?;
        Ok(entry(alloc, true, Shape::Formatted(format)))
    }
}

impl JsonSchema for Ipv6Addr {
    ghost says = { alone (codes "ipv6") (codes "ipv6") true
        (in_place (shape.formatted (codes "ipv6"))) };

    fn inline_schema() -> bool {
        true
    }

    fn schema_name(_alloc: Global) -> Result<CowStr<'static>, AllocError> {
        Ok(CowStr::Borrowed("ipv6"))
    }

    fn schema_id(alloc: Global) -> Result<CowStr<'static>, AllocError> {
        Self::schema_name(alloc)
    }

    fn json_schema(alloc: Global, _types: &mut Types) -> Result<TypeEntry, TypesError> {
        let format = String::from_str(alloc, "ipv6")?;
        Ok(entry(alloc, true, Shape::Formatted(format)))
    }
}

impl JsonSchema for IpAddr {
    ghost says = { alone (codes "ip") (codes "ip") true (in_place (shape.formatted (codes "ip"))) };

    fn inline_schema() -> bool {
        true
    }

    fn schema_name(_alloc: Global) -> Result<CowStr<'static>, AllocError> {
        Ok(CowStr::Borrowed("ip"))
    }

    fn schema_id(alloc: Global) -> Result<CowStr<'static>, AllocError> {
        Self::schema_name(alloc)
    }

    fn json_schema(alloc: Global, _types: &mut Types) -> Result<TypeEntry, TypesError> {
        let format = String::from_str(alloc, "ip")?;
        Ok(entry(alloc, true, Shape::Formatted(format)))
    }
}

/// The same as `String`.
impl JsonSchema for SocketAddr {
    ghost says = { alone (codes "string") (codes "string") true (in_place shape.text) };

    fn inline_schema() -> bool {
        String::inline_schema()
    }

    fn schema_name(alloc: Global) -> Result<CowStr<'static>, AllocError> {
        String::schema_name(alloc)
    }

    fn schema_id(alloc: Global) -> Result<CowStr<'static>, AllocError> {
        String::schema_id(alloc)
    }

    fn json_schema(alloc: Global, types: &mut Types) -> Result<TypeEntry, TypesError> {
        String::json_schema(alloc, types)
    }
}

/// The same as `String`.
impl JsonSchema for SocketAddrV4 {
    ghost says = { alone (codes "string") (codes "string") true (in_place shape.text) };

    fn inline_schema() -> bool {
        String::inline_schema()
    }

    fn schema_name(alloc: Global) -> Result<CowStr<'static>, AllocError> {
        String::schema_name(alloc)
    }

    fn schema_id(alloc: Global) -> Result<CowStr<'static>, AllocError> {
        String::schema_id(alloc)
    }

    fn json_schema(alloc: Global, types: &mut Types) -> Result<TypeEntry, TypesError> {
        String::json_schema(alloc, types)
    }
}

/// The same as `String`.
impl JsonSchema for SocketAddrV6 {
    ghost says = { alone (codes "string") (codes "string") true (in_place shape.text) };

    fn inline_schema() -> bool {
        String::inline_schema()
    }

    fn schema_name(alloc: Global) -> Result<CowStr<'static>, AllocError> {
        String::schema_name(alloc)
    }

    fn schema_id(alloc: Global) -> Result<CowStr<'static>, AllocError> {
        String::schema_id(alloc)
    }

    fn json_schema(alloc: Global, types: &mut Types) -> Result<TypeEntry, TypesError> {
        String::json_schema(alloc, types)
    }
}
