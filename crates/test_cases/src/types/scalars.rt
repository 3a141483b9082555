//! Types without parts.
use crate::types::containers::container;
use crate::types::line::line_of;
use schemars::{GenerateError, Schema};
use serde_json::{Number, Value};
use std::alloc::Global;
use std::net::{IpAddr, Ipv4Addr, Ipv6Addr, SocketAddr, SocketAddrV4, SocketAddrV6};
use std::num::{
    NonZeroI8, NonZeroI16, NonZeroI32, NonZeroI64, NonZeroI128, NonZeroIsize, NonZeroU8,
    NonZeroU16, NonZeroU32, NonZeroU64, NonZeroU128, NonZeroUsize,
};
use std::time::{Duration, SystemTime};

/// Returns the line of the type of this name.
pub(crate) fn line(alloc: Global, of: &str) -> Result<String, GenerateError> {
    match of {
        "()" => line_of::<()>(alloc),
        "bool" => line_of::<bool>(alloc),
        "char" => line_of::<char>(alloc),
        "String" => line_of::<String>(alloc),
        "Number" => line_of::<Number>(alloc),
        "Value" => line_of::<Value>(alloc),
        "Schema" => line_of::<Schema>(alloc),
        "Ipv4Addr" => line_of::<Ipv4Addr>(alloc),
        "Ipv6Addr" => line_of::<Ipv6Addr>(alloc),
        "IpAddr" => line_of::<IpAddr>(alloc),
        "SocketAddr" => line_of::<SocketAddr>(alloc),
        "SocketAddrV4" => line_of::<SocketAddrV4>(alloc),
        "SocketAddrV6" => line_of::<SocketAddrV6>(alloc),
        "Duration" => line_of::<Duration>(alloc),
        "SystemTime" => line_of::<SystemTime>(alloc),
        _ => integer(alloc, of),
    }
}

pub(crate) fn integer(alloc: Global, of: &str) -> Result<String, GenerateError> {
    match of {
        "i8" => line_of::<i8>(alloc),
        "i16" => line_of::<i16>(alloc),
        "i32" => line_of::<i32>(alloc),
        "i64" => line_of::<i64>(alloc),
        "i128" => line_of::<i128>(alloc),
        "f32" => line_of::<f32>(alloc),
        "f64" => line_of::<f64>(alloc),
        "isize" => line_of::<isize>(alloc),
        "u8" => line_of::<u8>(alloc),
        "u16" => line_of::<u16>(alloc),
        "u32" => line_of::<u32>(alloc),
        "u64" => line_of::<u64>(alloc),
        "u128" => line_of::<u128>(alloc),
        "usize" => line_of::<usize>(alloc),
        _ => non_zero(alloc, of),
    }
}

pub(crate) fn non_zero(alloc: Global, of: &str) -> Result<String, GenerateError> {
    match of {
        "NonZeroI8" => line_of::<NonZeroI8>(alloc),
        "NonZeroI16" => line_of::<NonZeroI16>(alloc),
        "NonZeroI32" => line_of::<NonZeroI32>(alloc),
        "NonZeroI64" => line_of::<NonZeroI64>(alloc),
        "NonZeroI128" => line_of::<NonZeroI128>(alloc),
        "NonZeroIsize" => line_of::<NonZeroIsize>(alloc),
        "NonZeroU8" => line_of::<NonZeroU8>(alloc),
        "NonZeroU16" => line_of::<NonZeroU16>(alloc),
        "NonZeroU32" => line_of::<NonZeroU32>(alloc),
        "NonZeroU64" => line_of::<NonZeroU64>(alloc),
        "NonZeroU128" => line_of::<NonZeroU128>(alloc),
        "NonZeroUsize" => line_of::<NonZeroUsize>(alloc),
        _ => container(alloc, of),
    }
}
