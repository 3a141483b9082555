//! The types of std and of other crates.
use crate::numbers::{atomic_value, number_row, shape_of};
use crate::row::{Kind, Row, Texts};
use std::alloc::{AllocError, Global};

/// What a type is made of its arguments.
#[derive(Clone, Copy, Debug, PartialEq, Eq)]
pub enum Made {
    /// its argument
    Same,
    /// an Option of it
    Optional,
    /// a list of it
    List,
    /// a list of it, whose items differ
    Set,
    /// a list of it with a greatest length
    UpTo,
    /// a list of the items of an array
    Small,
    /// a map of two
    Map,
    /// the one or the other of two, of std
    Outcome,
    /// the one or the other of two
    Either,
    /// a range
    Range,
    /// a bound
    Bound,
    /// its argument without 0
    NonZero,
}

impl Made {
    /// How many arguments are types that it is made of.
    pub fn arity(self) -> usize {
        match self {
            Made::Map | Made::Outcome | Made::Either => 2,
            _ => 1,
        }
    }

    /// How many arguments it may have: maps and sets may say how they hash, and a list how long it may be.
    pub fn most(self) -> usize {
        match self {
            Made::Map => 3,
            Made::Set | Made::UpTo | Made::Outcome | Made::Either => 2,
            _ => 1,
        }
    }
}

// The first name of a path.
fn crate_of(path: &str) -> &str {
    path.split_once("::").unwrap_or((path, "")).0
}

// Types with arguments: their names, the crates that have them, and what they are made of.
const MADE: [(&str, &str, Made); 31] = [
    ("Box", "std", Made::Same),
    ("Rc", "std", Made::Same),
    ("Arc", "std", Made::Same),
    ("Weak", "std", Made::Same),
    ("Cow", "std", Made::Same),
    ("Cell", "std", Made::Same),
    ("RefCell", "std", Made::Same),
    ("Mutex", "std", Made::Same),
    ("RwLock", "std", Made::Same),
    ("Wrapping", "std", Made::Same),
    ("Reverse", "std", Made::Same),
    ("Option", "std", Made::Optional),
    ("Vec", "std", Made::List),
    ("VecDeque", "std", Made::List),
    ("LinkedList", "std", Made::List),
    ("BinaryHeap", "std", Made::List),
    ("BTreeSet", "std", Made::Set),
    ("HashSet", "std", Made::Set),
    ("BTreeMap", "std", Made::Map),
    ("HashMap", "std", Made::Map),
    ("Result", "std", Made::Outcome),
    ("Range", "std", Made::Range),
    ("RangeInclusive", "std", Made::Range),
    ("Bound", "std", Made::Bound),
    ("NonZero", "std", Made::NonZero),
    ("IndexSet", "indexmap", Made::Set),
    ("IndexMap", "indexmap", Made::Map),
    ("Map", "serde_json", Made::Map),
    ("ArrayVec", "arrayvec", Made::UpTo),
    ("SmallVec", "smallvec", Made::Small),
    ("Either", "either", Made::Either),
];

/// The path of a map or a set with this name.
pub fn path_of(name: &str) -> &'static str {
    match name {
        "BTreeSet" => "std::collections::BTreeSet",
        "HashSet" => "std::collections::HashSet",
        "IndexSet" => "indexmap::IndexSet",
        "HashMap" => "std::collections::HashMap",
        "IndexMap" => "indexmap::IndexMap",
        _ => "std::collections::BTreeMap",
    }
}

/// What the type with this name is made of its arguments, if it comes from a crate that has it.
pub fn made_named(name: &str, origin: &str) -> Option<Made> {
    for (known, home, made) in &MADE {
        if *known == name && is_from(home, origin) {
            return Some(*made);
        }
    }
    None
}

// The crates that have the types which are known here.
const CRATES: [&str; 18] = [
    "std",
    "core",
    "alloc",
    "serde_json",
    "indexmap",
    "arrayvec",
    "smallvec",
    "either",
    "uuid",
    "url",
    "jiff",
    "chrono",
    "smol_str",
    "semver",
    "bytes",
    "schemars",
    "rust_decimal",
    "bigdecimal",
];

/// Whether this is the name of a crate that has types which are known here.
pub fn is_crate(name: &str) -> bool {
    CRATES.contains(&name)
}

// Whether what comes from there comes from this crate. What is only named comes from anywhere.
fn is_from(home: &str, origin: &str) -> bool {
    match origin {
        "" => true,
        "core" | "alloc" => home == "std",
        _ => home == origin,
    }
}

// A type without arguments whose values are texts: the name that it has in a source; its path, or its
// crate alone if it has no implementation; its id, its name and its format.
type Formatted = (
    &'static str,
    &'static str,
    &'static str,
    &'static str,
    &'static str,
);

const FORMATTED: [Formatted; 16] = [
    ("Ipv4Addr", "std::net::Ipv4Addr", "ipv4", "ipv4", "ipv4"),
    ("Ipv6Addr", "std::net::Ipv6Addr", "ipv6", "ipv6", "ipv6"),
    ("IpAddr", "std::net::IpAddr", "ip", "ip", "ip"),
    ("Uuid", "uuid::Uuid", "uuid::Uuid", "Uuid", "uuid"),
    ("Url", "url::Url", "url::Url", "Url", "uri"),
    (
        "Timestamp",
        "jiff::Timestamp",
        "jiff::Timestamp",
        "Timestamp",
        "date-time",
    ),
    (
        "Zoned",
        "jiff::Zoned<'static>",
        "jiff::Zoned",
        "Zoned",
        "zoned-date-time",
    ),
    (
        "SignedDuration",
        "jiff::SignedDuration",
        "jiff::SignedDuration",
        "SignedDuration",
        "duration",
    ),
    ("Span", "jiff::Span", "jiff::Span", "Span", "duration"),
    ("Date", "jiff::civil::Date", "jiff::Date", "Date", "date"),
    (
        "Time",
        "jiff::civil::Time",
        "jiff::Time",
        "Time",
        "partial-time",
    ),
    (
        "DateTime",
        "jiff::civil::DateTime",
        "jiff::DateTime",
        "DateTime",
        "partial-date-time",
    ),
    (
        "DateTime<>",
        "chrono",
        "chrono::DateTime",
        "DateTime",
        "date-time",
    ),
    (
        "NaiveDate",
        "chrono",
        "chrono::NaiveDate",
        "NaiveDate",
        "date",
    ),
    (
        "NaiveDateTime",
        "chrono",
        "chrono::NaiveDateTime",
        "NaiveDateTime",
        "partial-date-time",
    ),
    (
        "NaiveTime",
        "chrono",
        "chrono::NaiveTime",
        "NaiveTime",
        "partial-time",
    ),
];

// The type of texts with this name. `DateTime` has an argument in chrono, and none in jiff.
fn formatted_named(name: &str, origin: &str, has_arguments: bool) -> Option<Formatted> {
    if name == "DateTime" && (has_arguments || origin == "chrono") {
        return formatted_under("DateTime<>");
    }
    formatted_under(name)
}

fn formatted_under(name: &str) -> Option<Formatted> {
    for ty in &FORMATTED {
        if ty.0 == name {
            return Some(*ty);
        }
    }
    None
}

fn formatted_row(alloc: Global, ty: Formatted) -> Result<Row, AllocError> {
    let (_, path, id, name, format) = ty;
    let shape = shape_of(alloc, "format", format)?;
    let texts = Texts {
        id,
        name,
        shape: shape.as_str(),
        ty: if path.contains("::") { path } else { "" },
        default: "",
        kind: Kind::Text,
        is_inline: true,
        type_name: "string",
        format,
        length: "",
    };
    Row::of_texts(alloc, &texts)
}

/// The row of a type that is not made of others, if it comes from a crate that has it.
pub fn known_row(
    alloc: Global,
    name: &str,
    origin: &str,
    has_arguments: bool,
) -> Result<Option<Row>, AllocError> {
    if let Some(ty) = formatted_named(name, origin, has_arguments) {
        if is_from(crate_of(ty.1), origin) {
            return Ok(Some(formatted_row(alloc, ty)?));
        }
        return Ok(None);
    }
    let name = atomic_value(name).unwrap_or(name);
    match listed(name) {
        Some((_, home, texts)) if is_from(home, origin) => {
            Ok(Some(Row::of_texts(alloc, texts)?))
        }
        None if is_from("std", origin) => number_row(alloc, name),
        _ => Ok(None),
    }
}

/// The row of null alone.
pub fn null_row(alloc: Global) -> Result<Row, AllocError> {
    Row::of_texts(alloc, &NULL)
}

// The crate of a type that is neither whole numbers nor a text with a format, and what its row has.
fn listed(name: &str) -> Option<&'static Listed> {
    for listed in &LISTED {
        if listed.0 == name {
            return Some(listed);
        }
    }
    None
}

// A name, its crate, and what its row has.
type Listed = (&'static str, &'static str, Texts<'static>);

static LISTED: [Listed; 24] = [
    ("str", "std", TEXT),
    ("String", "std", TEXT),
    ("Path", "std", TEXT),
    ("PathBuf", "std", TEXT),
    ("SocketAddr", "std", TEXT),
    ("SocketAddrV4", "std", TEXT),
    ("SocketAddrV6", "std", TEXT),
    ("OsStr", "std", OS_STRING),
    ("OsString", "std", OS_STRING),
    ("ArrayString", "arrayvec", TEXT),
    ("SmolStr", "smol_str", TEXT),
    ("bool", "std", TRUTH_VALUE),
    ("char", "std", CHARACTER),
    ("f32", "std", FLOAT),
    ("f64", "std", DOUBLE),
    ("PhantomData", "std", NULL),
    ("Value", "serde_json", ANY),
    ("Number", "serde_json", NUMBER),
    ("Version", "semver", VERSION),
    ("Bytes", "bytes", BYTES),
    ("BytesMut", "bytes", BYTES),
    ("Schema", "schemars", SCHEMA),
    ("Weekday", "chrono", WEEKDAY),
    ("TimeDelta", "chrono", TIME_DELTA),
];

const TEXT: Texts<'static> = Texts {
    id: "string",
    name: "string",
    shape: "\"text\"",
    ty: "String",
    default: "\"\"",
    kind: Kind::Text,
    is_inline: true,
    type_name: "string",
    format: "",
    length: "",
};

const TRUTH_VALUE: Texts<'static> = Texts {
    id: "boolean",
    name: "boolean",
    shape: "\"bool\"",
    ty: "bool",
    default: "false",
    kind: Kind::Other,
    is_inline: true,
    type_name: "boolean",
    format: "",
    length: "",
};

const CHARACTER: Texts<'static> = Texts {
    id: "char",
    name: "Character",
    shape: "\"char\"",
    ty: "char",
    default: "\"\\u0000\"",
    kind: Kind::Text,
    is_inline: true,
    type_name: "string",
    format: "",
    length: "1",
};

const FLOAT: Texts<'static> = Texts {
    id: "float",
    name: "float",
    shape: "{\"literal\":{\"type\":\"number\",\"format\":\"float\"}}",
    ty: "f32",
    default: "0.0",
    kind: Kind::Number,
    is_inline: true,
    type_name: "number",
    format: "float",
    length: "",
};

const DOUBLE: Texts<'static> = Texts {
    id: "double",
    name: "double",
    shape: "{\"literal\":{\"type\":\"number\",\"format\":\"double\"}}",
    ty: "f64",
    default: "0.0",
    kind: Kind::Number,
    is_inline: true,
    type_name: "number",
    format: "double",
    length: "",
};

const NULL: Texts<'static> = Texts {
    id: "null",
    name: "null",
    shape: "\"null\"",
    ty: "()",
    default: "null",
    kind: Kind::Other,
    is_inline: true,
    type_name: "",
    format: "",
    length: "",
};

const ANY: Texts<'static> = Texts {
    id: "AnyValue",
    name: "AnyValue",
    shape: "\"any\"",
    ty: "serde_json::Value",
    default: "null",
    kind: Kind::Other,
    is_inline: true,
    type_name: "",
    format: "",
    length: "",
};

const NUMBER: Texts<'static> = Texts {
    id: "Number",
    name: "Number",
    shape: "\"number\"",
    ty: "serde_json::Number",
    default: "",
    kind: Kind::Number,
    is_inline: true,
    type_name: "",
    format: "",
    length: "",
};

const VERSION: Texts<'static> = Texts {
    id: "semver::Version",
    name: "SemVer",
    shape: "{\"literal\":{\"type\":\"string\",\"pattern\":\"^(0|[1-9]\\\\d*)\\\\.(0|[1-9]\\\\d*)\\\\.(0|[1-9]\\\\d*)(?:-((?:0|[1-9]\\\\d*|\\\\d*[a-zA-Z-][0-9a-zA-Z-]*)(?:\\\\.(?:0|[1-9]\\\\d*|\\\\d*[a-zA-Z-][0-9a-zA-Z-]*))*))?(?:\\\\+([0-9a-zA-Z-]+(?:\\\\.[0-9a-zA-Z-]+)*))?$\"}}",
    ty: "semver::Version",
    default: "",
    kind: Kind::Other,
    is_inline: false,
    type_name: "",
    format: "",
    length: "",
};

const BYTES: Texts<'static> = Texts {
    id: "bytes::Bytes",
    name: "Bytes",
    shape: "\"bytes\"",
    ty: "bytes::Bytes",
    default: "",
    kind: Kind::Other,
    is_inline: false,
    type_name: "",
    format: "",
    length: "",
};

const SCHEMA: Texts<'static> = Texts {
    id: "schemars::Schema",
    name: "Schema",
    shape: "\"schema\"",
    ty: "schemars::Schema",
    default: "",
    kind: Kind::Other,
    is_inline: false,
    type_name: "",
    format: "",
    length: "",
};

const WEEKDAY: Texts<'static> = Texts {
    id: "chrono::Weekday",
    name: "Weekday",
    shape: "{\"literal\":{\"type\":\"string\",\"enum\":[\"Mon\",\"Tue\",\"Wed\",\"Thu\",\"Fri\",\"Sat\",\"Sun\"]}}",
    ty: "",
    default: "",
    kind: Kind::Text,
    is_inline: true,
    type_name: "",
    format: "",
    length: "",
};

const TIME_DELTA: Texts<'static> = Texts {
    id: "chrono::TimeDelta",
    name: "TimeDelta",
    shape: "{\"literal\":{\"type\":\"array\",\"prefixItems\":[{\"type\":\"integer\",\"format\":\"int64\"},{\"type\":\"integer\",\"minimum\":0,\"exclusiveMaximum\":1000000000}],\"minItems\":2,\"maxItems\":2}}",
    ty: "",
    default: "",
    kind: Kind::List,
    is_inline: true,
    type_name: "",
    format: "",
    length: "",
};

const OS_STRING: Texts<'static> = Texts {
    id: "std::ffi::OsString",
    name: "OsString",
    shape: "{\"literal\":{\"oneOf\":[{\"type\":\"object\",\"properties\":{\"Unix\":{\"type\":\"array\",\"items\":{\"type\":\"integer\",\"format\":\"uint8\",\"minimum\":0,\"maximum\":255}}},\"required\":[\"Unix\"]},{\"type\":\"object\",\"properties\":{\"Windows\":{\"type\":\"array\",\"items\":{\"type\":\"integer\",\"format\":\"uint16\",\"minimum\":0,\"maximum\":65535}}},\"required\":[\"Windows\"]}]}}",
    ty: "",
    default: "",
    kind: Kind::Other,
    is_inline: false,
    type_name: "",
    format: "",
    length: "",
};
