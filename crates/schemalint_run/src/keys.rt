//! Maps whose keys are not written as texts.
use crate::findings::{Finding, Kind, add_at_row};
use schemars_types::{Payload, Shape, TypeNo, Types, Variant};
use std::alloc::{AllocError, Global};

/// Adds a warning if row `n` is a map with keys that `serde_json` does not write.
pub fn add_keys(
    alloc: Global,
    types: &Types,
    n: TypeNo,
    shape: &Shape,
    findings: &mut Vec<Finding>,
) -> Result<(), AllocError> {
    let Shape::Map(key, _) = shape else {
        return Ok(());
    };
    if may_be_key(types, *key) {
        return Ok(());
    }
    let sentence = format!(in alloc; "serde_json writes no key that is a value of row {key}")?;
    add_at_row(alloc, findings, Kind::Keys, types, n, sentence.as_str())
}

// Whether some value of the row may be written as a key: texts, numbers, truth values and units.
fn may_be_key(types: &Types, n: TypeNo) -> bool {
    let mut at = n;
    for _ in 0..types.len() {
        let Some(entry) = types.entry(at) else {
            return true;
        };
        match &entry.shape {
            Shape::Newtype(inner) => at = *inner,
            shape => return is_key(shape),
        }
    }
    true
}

fn is_key(shape: &Shape) -> bool {
    match shape {
        Shape::Bool | Shape::Int(_) | Shape::NonZero(_) | Shape::Number => true,
        Shape::Text | Shape::Char | Shape::Formatted(_) => true,
        Shape::Any | Shape::Literal(_) | Shape::Option(_) | Shape::Newtype(_) => true,
        Shape::Either(..) | Shape::Untagged(_) => true,
        Shape::External(variants) => has_unit(variants),
        Shape::Null | Shape::Bytes | Shape::SchemaItself => false,
        Shape::Seq(_) | Shape::Set(_) | Shape::Array(..) | Shape::UpTo(..) => false,
        Shape::Tuple(_) | Shape::Struct(_) | Shape::Result(..) => false,
        Shape::Bound(_) | Shape::Range(_) | Shape::Map(..) => false,
        Shape::Internal(_) | Shape::Adjacent(_) => false,
    }
}

fn has_unit(variants: &[Variant]) -> bool {
    for variant in variants {
        match &variant.payload {
            Payload::Unit => return true,
            Payload::Newtype(_) | Payload::Tuple(_) | Payload::Struct(_) => {}
        }
    }
    false
}
