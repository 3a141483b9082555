//! The rows of numbers.
use crate::row::{Kind, Row, Texts};
use schemaderive_options::Notes;
use std::alloc::{AllocError, Global};

// A kind of whole numbers.
#[derive(Clone, Copy)]
struct Whole {
    // its name in Rust, and in tables
    kind: &'static str,
    // the name of its type without 0
    nonzero: &'static str,
    // its name, which is its id and its format too
    format: &'static str,
    minimum: &'static str,
    maximum: &'static str,
}

const WHOLE: [Whole; 12] = [
    Whole {
        kind: "u8",
        nonzero: "NonZeroU8",
        format: "uint8",
        minimum: "0",
        maximum: "255",
    },
    Whole {
        kind: "u16",
        nonzero: "NonZeroU16",
        format: "uint16",
        minimum: "0",
        maximum: "65535",
    },
    Whole {
        kind: "u32",
        nonzero: "NonZeroU32",
        format: "uint32",
        minimum: "0",
        maximum: "",
    },
    Whole {
        kind: "u64",
        nonzero: "NonZeroU64",
        format: "uint64",
        minimum: "0",
        maximum: "",
    },
    Whole {
        kind: "u128",
        nonzero: "NonZeroU128",
        format: "uint128",
        minimum: "0",
        maximum: "",
    },
    Whole {
        kind: "usize",
        nonzero: "NonZeroUsize",
        format: "uint",
        minimum: "0",
        maximum: "",
    },
    Whole {
        kind: "i8",
        nonzero: "NonZeroI8",
        format: "int8",
        minimum: "-128",
        maximum: "127",
    },
    Whole {
        kind: "i16",
        nonzero: "NonZeroI16",
        format: "int16",
        minimum: "-32768",
        maximum: "32767",
    },
    Whole {
        kind: "i32",
        nonzero: "NonZeroI32",
        format: "int32",
        minimum: "",
        maximum: "",
    },
    Whole {
        kind: "i64",
        nonzero: "NonZeroI64",
        format: "int64",
        minimum: "",
        maximum: "",
    },
    Whole {
        kind: "i128",
        nonzero: "NonZeroI128",
        format: "int128",
        minimum: "",
        maximum: "",
    },
    Whole {
        kind: "isize",
        nonzero: "NonZeroIsize",
        format: "int",
        minimum: "",
        maximum: "",
    },
];

// The kind of whole numbers with this name.
fn whole_named(name: &str) -> Option<Whole> {
    for whole in &WHOLE {
        if whole.kind == name {
            return Some(*whole);
        }
    }
    None
}

// The kind of the whole numbers of a type that is named for it, as `U8` in `NonZeroU8`.
fn whole_behind(suffix: &str) -> Option<Whole> {
    for whole in &WHOLE {
        if whole.kind.eq_ignore_ascii_case(suffix)
            && !suffix.starts_with(|c: char| c.is_ascii_lowercase())
        {
            return Some(*whole);
        }
    }
    None
}

/// The row of a type of whole numbers, with 0 or, such as `NonZeroU8`, without.
pub fn number_row(alloc: Global, name: &str) -> Result<Option<Row>, AllocError> {
    if let Some(whole) = whole_named(name) {
        return Ok(Some(whole_row(alloc, &whole)?));
    }
    match name.strip_prefix("NonZero").and_then(whole_behind) {
        Some(whole) => Ok(Some(nonzero_row(alloc, name, &whole)?)),
        None => Ok(None),
    }
}

fn whole_row(alloc: Global, whole: &Whole) -> Result<Row, AllocError> {
    let shape = shape_of(alloc, "int", whole.kind)?;
    let mut row = Row::of_texts(
        alloc,
        &Texts {
            id: whole.format,
            name: whole.format,
            shape: shape.as_str(),
            ty: whole.kind,
            default: "0",
            kind: Kind::Number,
            is_inline: true,
            type_name: "integer",
            format: whole.format,
            length: "",
        },
    )?;
    put_bounds(alloc, &mut row.keywords, whole, true)?;
    Ok(row)
}

fn nonzero_row(alloc: Global, name: &str, whole: &Whole) -> Result<Row, AllocError> {
    let shape = shape_of(alloc, "nonzero", whole.kind)?;
    let path = format!(in alloc; "std::num::{name}")?;
    let mut row = Row::of_texts(
        alloc,
        &Texts {
            id: path.as_str(),
            name,
            shape: shape.as_str(),
            ty: path.as_str(),
            default: "",
            kind: Kind::Number,
            is_inline: true,
            type_name: "integer",
            format: whole.format,
            length: "",
        },
    )?;
    put_bounds(alloc, &mut row.keywords, whole, false)?;
    Ok(row)
}

/// A shape with one member.
pub fn shape_of(alloc: Global, key: &str, value: &str) -> Result<String, AllocError> {
    format!(in alloc; "{{\"{key}\":\"{value}\"}}")
}

// Adds the bounds of whole numbers, to which 0 belongs or not.
fn put_bounds(
    alloc: Global,
    keywords: &mut Notes,
    whole: &Whole,
    has_zero: bool,
) -> Result<(), AllocError> {
    let is_signed = whole.minimum != "0";
    let minimum = if has_zero || is_signed {
        whole.minimum
    } else {
        "1"
    };
    put_bound(alloc, keywords, "minimum", minimum)?;
    if is_signed && !has_zero {
        keywords.put_json(alloc, "not", "{\"const\":0}")?;
    }
    put_bound(alloc, keywords, "maximum", whole.maximum)
}

fn put_bound(
    alloc: Global,
    keywords: &mut Notes,
    key: &str,
    bound: &str,
) -> Result<(), AllocError> {
    if bound.is_empty() {
        return Ok(());
    }
    keywords.put_json(alloc, key, bound)
}

/// The name of the type without 0 of this kind of whole numbers.
pub fn nonzero_name(kind: &str) -> Option<&'static str> {
    match whole_named(kind) {
        Some(whole) => Some(whole.nonzero),
        None => None,
    }
}

/// The name of the number or the truth value that an atomic type holds.
pub fn atomic_value(name: &str) -> Option<&'static str> {
    let suffix = name.strip_prefix("Atomic")?;
    if suffix == "Bool" {
        return Some("bool");
    }
    match whole_behind(suffix) {
        Some(whole) => Some(whole.kind),
        None => None,
    }
}
