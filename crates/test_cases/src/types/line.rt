//! What is told of a type, on one line.
use schemars::impls::JsonSchema;
use schemars::{GenerateError, schema_for};
use std::alloc::{AllocError, Global};

/// Returns the name and the id of a type, whether its document is written in place, and its root
/// document, with a tab between.
pub(crate) fn line_of<T: JsonSchema>(alloc: Global) -> Result<String, GenerateError> {
    let document = document_of::<T>(alloc)?;
    Ok(told::<T>(alloc, document.as_str())?)
}

fn document_of<T: JsonSchema>(alloc: Global) -> Result<String, GenerateError> {
    let schema = schema_for!(in alloc; T)?;
    Ok(schema.to_ordered_string(alloc)?)
}

fn told<T: JsonSchema>(alloc: Global, document: &str) -> Result<String, AllocError> {
    let name = T::schema_name(alloc)?;
    let id = T::schema_id(alloc)?;
    let place = if T::inline_schema() {
        "inline"
    } else {
        "referenced"
    };
    format!(in alloc; "{name}\t{id}\t{place}\t{document}")
}
