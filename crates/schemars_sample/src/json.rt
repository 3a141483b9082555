//! The JSON of example values.
ghost use Rattle.std.specs.Prelude.{◌≡◌, option_map, IfOk, OnOk, map, true, encode_utf8, string_bytes};
ghost use Rattle.schemars_sample.specs.Words.{number, unsigned, object, no_members, view, example_of, examples_view, entries_view, sample_json, items_json, entries_json, json_array, are_bytes, whole_json, json_named};

use crate::sample::Sample;
use serde_json::{Map, Number, Value};
use std::alloc::{AllocError, Global};

/// Returns the example as `serde_json` writes it. There is none if a whole number in it is not from
/// -2^63 to 2^64 - 1, or a float in it is not finite.
///
/// # Errors
///
/// `AllocError` if memory runs out.
#[cycle(json)]
pub fn json_of(alloc: Global, sample: &Sample) -> Result<Option<Value>, AllocError>
    ensures { IfOk result (λ v. option_map view v ≡ sample_json (example_of sample.now)) }
{
    match sample {
        Sample::Bool(b) => Ok(Some(Value::Bool(*b))),
        Sample::Int(n) => Ok(whole_number(*n)),
        Sample::UInt(n) => Ok(u64::try_from(*n).ok().map(Value::from)),
        Sample::Float(x) => Ok(Number::from_f64(*x).map(Value::Number)),
        Sample::Char(c) => Ok(Some(Value::String(char_text(alloc, *c)?))),
        Sample::Str(s) | Sample::CollectStr(s) | Sample::UnitVariant(s) => {
            Ok(Some(Value::String(s.clone()?)))
        }
        Sample::Bytes(bytes) => Ok(Some(Value::Array(bytes_json(alloc, bytes)?))),
        Sample::None | Sample::Unit | Sample::UnitStruct(_) => Ok(Some(Value::Null)),
        Sample::Some(inner) | Sample::NewtypeStruct(_, inner) => json_of(alloc, inner),
        Sample::Seq(items) | Sample::Tuple(items) | Sample::TupleStruct(_, items) => {
            array_of(alloc, items)
        }
        Sample::Map(entries) => object_of(alloc, entries),
        Sample::CollectMap(entries) => object_of(alloc, entries),
        Sample::Struct(_, entries) => object_of(alloc, entries),
        Sample::NewtypeVariant(variant, inner) => {
            named(alloc, variant.as_str(), json_of(alloc, inner)?)
        }
        Sample::TupleVariant(variant, items) => {
            named(alloc, variant.as_str(), array_of(alloc, items)?)
        }
        Sample::StructVariant(variant, entries) => {
            named(alloc, variant.as_str(), object_of(alloc, entries)?)
        }
    }
}

#[cycle(json)]
fn array_of(alloc: Global, items: &[Sample]) -> Result<Option<Value>, AllocError>
    ensures { IfOk result (λ v. option_map view v
        ≡ option_map json_array (items_json (examples_view items.now))) }
{
    let mut values = Vec::new(alloc);
    for item in items {
        let Some(value) = json_of(alloc, item)? else {
            return Ok(None);
        };
        serde_json::push(&mut values, value)?;
    }
    Ok(Some(Value::Array(values)))
}

#[cycle(json)]
fn object_of(alloc: Global, entries: &[(String, Sample)]) -> Result<Option<Value>, AllocError>
    ensures { IfOk result (λ v. option_map view v
        ≡ option_map object (entries_json (entries_view entries.now) no_members)) }
{
    let mut members = Map::new(alloc);
    for (key, sample) in entries {
        let Some(value) = json_of(alloc, sample)? else {
            return Ok(None);
        };
        serde_json::put(&mut members, alloc, key.as_str(), value)?;
    }
    Ok(Some(Value::Object(members)))
}

// The value as the content of a variant.
fn named(alloc: Global, variant: &str, content: Option<Value>) -> Result<Option<Value>, AllocError>
    ensures { IfOk result (λ v. option_map view v
        ≡ option_map (json_named variant.now) (option_map view content)) }
{
    let Some(value) = content else {
        return Ok(None);
    };
    let mut members = Map::new(alloc);
    serde_json::put(&mut members, alloc, variant, value)?;
    Ok(Some(Value::Object(members)))
}

fn whole_number(n: i128) -> Option<Value>
    ensures { option_map view result ≡ whole_json n }
{
    if n < 0 {
        return i64::try_from(n).ok().map(Value::from);
    }
    u64::try_from(n).ok().map(Value::from)
}

fn char_text(alloc: Global, c: char) -> Result<String, AllocError>
    ensures { IfOk result (λ s. string_bytes s ≡ encode_utf8 c) }
{
    let mut text = String::new(alloc);
    text.push(c)?;
    Ok(text)
}

fn bytes_json(alloc: Global, bytes: &[u8]) -> Result<Vec<Value>, AllocError>
    ensures values { IfOk result (λ v. map view v.items
        ≡ map (λ b. number (unsigned b)) bytes.now) }
    ensures in_range { OnOk result (are_bytes bytes.now ≡ true) }
{
    let mut values = Vec::new(alloc);
    for byte in bytes {
        serde_json::push(&mut values, Value::from(*byte))?;
    }
    Ok(values)
}
