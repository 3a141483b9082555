//! What generators answer for examples of every kind.
//!
//! An example is an object of one member: its key is the kind, and behind a space the name, if the
//! kind has one; its value is the content, and null where there is none. Entries are a list of
//! objects.
use crate::calls::error::NoAnswer;
use crate::steps::settings::settings_for;
use schemars::sample::Sample;
use schemars::{GenerateError, Schema, SchemaGenerator, SchemaSettings, schema_for_value};
use serde_json::{Map, Value};
use std::alloc::Global;

/// The root document of the example that a value describes: by a generator for this dialect that is
/// kept or used up, or by the macro.
pub fn answer(alloc: Global, call: &str, dialect: &str, value: &Value) -> Result<String, NoAnswer> {
    let sample = sample_in(alloc, value)?;
    let settings = settings_for(alloc, dialect)?;
    let made = match call {
        "schema_for_value" => schema_for_value!(in alloc; sample),
        "root_schema_for_value" => root_of(alloc, settings, &sample),
        _ => SchemaGenerator::new(alloc, settings).into_root_schema_for_value(alloc, &sample),
    };
    match made {
        Ok(schema) => Ok(schema.to_ordered_string(alloc)?),
        Err(GenerateError::OutOfMemory) => Err(NoAnswer::OutOfMemory),
        Err(_) => Err(NoAnswer::BadInput),
    }
}

fn root_of(
    alloc: Global,
    settings: SchemaSettings,
    sample: &Sample,
) -> Result<Schema, GenerateError> {
    let mut generator = SchemaGenerator::new(alloc, settings);
    generator.root_schema_for_value(alloc, sample)
}

#[cycle(sample)]
fn sample_in(alloc: Global, value: &Value) -> Result<Sample, NoAnswer> {
    let Value::Object(members) = value else {
        return Err(NoAnswer::BadInput);
    };
    if members.len() != 1 {
        return Err(NoAnswer::BadInput);
    }
    let mut sample = Err(NoAnswer::BadInput);
    for (key, content) in members.iter() {
        sample = sample_of(alloc, key.as_str(), content);
    }
    sample
}

#[cycle(sample)]
fn sample_of(alloc: Global, key: &str, content: &Value) -> Result<Sample, NoAnswer> {
    let (kind, name) = key.split_once(' ').unwrap_or((key, ""));
    match content {
        Value::Null => without_parts(alloc, kind, name),
        Value::Bool(b) => of_bool(kind, *b),
        Value::Number(_) => with_number(kind, content),
        Value::String(text) => of_text(alloc, kind, text.as_str()),
        Value::Array(items) => match kind {
            "Bytes" => Ok(Sample::Bytes(bytes_in(alloc, items)?)),
            "Seq" | "Tuple" | "TupleStruct" | "TupleVariant" => {
                let items = samples_in(alloc, items)?;
                with_items(alloc, kind, name, items)
            }
            _ => {
                let entries = entries_in(alloc, items)?;
                with_entries(alloc, kind, name, entries)
            }
        },
        Value::Object(_) => {
            let part = Box::new(alloc, sample_in(alloc, content)?)?;
            with_part(alloc, kind, name, part)
        }
    }
}

#[cycle(sample)]
fn samples_in(alloc: Global, items: &[Value]) -> Result<Vec<Sample>, NoAnswer> {
    let mut samples = Vec::new(alloc);
    for item in items {
        samples.push(sample_in(alloc, item)?)?;
    }
    Ok(samples)
}

#[cycle(sample)]
fn entries_in(alloc: Global, items: &[Value]) -> Result<Vec<(String, Sample)>, NoAnswer> {
    let mut entries = Vec::new(alloc);
    for item in items {
        let Value::Object(members) = item else {
            return Err(NoAnswer::BadInput);
        };
        let mut more = members_in(alloc, members)?;
        entries.append(&mut more)?;
    }
    Ok(entries)
}

#[cycle(sample)]
fn members_in(
    alloc: Global,
    members: &Map<String, Value>,
) -> Result<Vec<(String, Sample)>, NoAnswer> {
    let mut entries = Vec::new(alloc);
    for (key, value) in members.iter() {
        entries.push((key.clone()?, sample_in(alloc, value)?))?;
    }
    Ok(entries)
}

fn with_part(alloc: Global, kind: &str, name: &str, part: Box<Sample>) -> Result<Sample, NoAnswer> {
    match kind {
        "Some" => Ok(Sample::Some(part)),
        "NewtypeStruct" => Ok(Sample::NewtypeStruct(String::from_str(alloc, name)?, part)),
        "NewtypeVariant" => Ok(Sample::NewtypeVariant(String::from_str(alloc, name)?, part)),
        _ => Err(NoAnswer::BadInput),
    }
}

fn with_items(
    alloc: Global,
    kind: &str,
    name: &str,
    items: Vec<Sample>,
) -> Result<Sample, NoAnswer> {
    match kind {
        "Seq" => Ok(Sample::Seq(items)),
        "Tuple" => Ok(Sample::Tuple(items)),
        "TupleStruct" => Ok(Sample::TupleStruct(String::from_str(alloc, name)?, items)),
        _ => Ok(Sample::TupleVariant(String::from_str(alloc, name)?, items)),
    }
}

fn with_entries(
    alloc: Global,
    kind: &str,
    name: &str,
    entries: Vec<(String, Sample)>,
) -> Result<Sample, NoAnswer> {
    match kind {
        "Map" => Ok(Sample::Map(entries)),
        "CollectMap" => Ok(Sample::CollectMap(entries)),
        "Struct" => Ok(Sample::Struct(String::from_str(alloc, name)?, entries)),
        "StructVariant" => Ok(Sample::StructVariant(String::from_str(alloc, name)?, entries)),
        _ => Err(NoAnswer::BadInput),
    }
}

fn without_parts(alloc: Global, kind: &str, name: &str) -> Result<Sample, NoAnswer> {
    match kind {
        "None" => Ok(Sample::None),
        "Unit" => Ok(Sample::Unit),
        "UnitStruct" => Ok(Sample::UnitStruct(String::from_str(alloc, name)?)),
        "UnitVariant" => Ok(Sample::UnitVariant(String::from_str(alloc, name)?)),
        _ => Err(NoAnswer::BadInput),
    }
}

fn of_bool(kind: &str, value: bool) -> Result<Sample, NoAnswer> {
    match kind {
        "Bool" => Ok(Sample::Bool(value)),
        _ => Err(NoAnswer::BadInput),
    }
}

fn with_number(kind: &str, number: &Value) -> Result<Sample, NoAnswer> {
    match (kind, number.as_i64(), number.as_u64()) {
        ("Int", Some(n), _) => Ok(Sample::Int(n as i128)),
        ("Int", None, Some(n)) => Ok(Sample::Int(n as i128)),
        ("UInt", _, Some(n)) => Ok(Sample::UInt(n as u128)),
        ("Float", _, _) => match number.as_f64() {
            Some(x) => Ok(Sample::Float(x)),
            None => Err(NoAnswer::BadInput),
        },
        _ => Err(NoAnswer::BadInput),
    }
}

// Numbers of more than 64 bits are in quotes, and so are floats that are not finite.
fn of_text(alloc: Global, kind: &str, text: &str) -> Result<Sample, NoAnswer> {
    match kind {
        "Str" => Ok(Sample::Str(String::from_str(alloc, text)?)),
        "CollectStr" => Ok(Sample::CollectStr(String::from_str(alloc, text)?)),
        "Char" => match text.chars().next() {
            Some(c) => Ok(Sample::Char(c)),
            None => Err(NoAnswer::BadInput),
        },
        "Int" => match text.parse::<i128>() {
            Ok(n) => Ok(Sample::Int(n)),
            Err(_) => Err(NoAnswer::BadInput),
        },
        "UInt" => match text.parse::<u128>() {
            Ok(n) => Ok(Sample::UInt(n)),
            Err(_) => Err(NoAnswer::BadInput),
        },
        "Float" => match text.parse::<f64>() {
            Ok(x) => Ok(Sample::Float(x)),
            Err(_) => Err(NoAnswer::BadInput),
        },
        _ => Err(NoAnswer::BadInput),
    }
}

fn bytes_in(alloc: Global, items: &[Value]) -> Result<Vec<u8>, NoAnswer> {
    let mut bytes = Vec::new(alloc);
    for item in items {
        match byte_in(item) {
            Some(byte) => bytes.push(byte)?,
            None => return Err(NoAnswer::BadInput),
        }
    }
    Ok(bytes)
}

fn byte_in(item: &Value) -> Option<u8> {
    match item.as_u64() {
        Some(number) => u8::try_from(number).ok(),
        None => None,
    }
}
