//! Schemas by which a document is asked about some keywords.
use serde_json::{Map, Value};
use std::alloc::{AllocError, Global};

/// A schema of some of the keywords.
pub fn with_keywords(
    alloc: Global,
    keywords: &Map<String, Value>,
    names: &[&str],
) -> Result<Value, AllocError> {
    let mut some = Map::new(alloc);
    for name in names {
        if let Some(value) = keywords.get(*name) {
            put(alloc, &mut some, name, value.clone()?)?;
        }
    }
    Ok(Value::Object(some))
}

/// The schema of one keyword.
pub fn with_keyword(alloc: Global, name: &str, value: &Value) -> Result<Value, AllocError> {
    let mut one = Map::new(alloc);
    put(alloc, &mut one, name, value.clone()?)?;
    Ok(Value::Object(one))
}

/// The schema of all keywords but one.
pub fn without(
    alloc: Global,
    keywords: &Map<String, Value>,
    name: &str,
) -> Result<Value, AllocError> {
    let mut others = Map::new(alloc);
    for (keyword, value) in keywords.iter() {
        if keyword.as_str() != name {
            put(alloc, &mut others, keyword.as_str(), value.clone()?)?;
        }
    }
    Ok(Value::Object(others))
}

fn put(
    alloc: Global,
    members: &mut Map<String, Value>,
    name: &str,
    value: Value,
) -> Result<(), AllocError> {
    drop(members.insert(String::from_str(alloc, name)?, value)?);
    Ok(())
}
