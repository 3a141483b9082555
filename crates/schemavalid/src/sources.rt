//! The document that judges values.
use schemagen_input::{TextError, read_table};
use schemars_generate::GenerateError;
use schemars_membership::type_document;
use schemars_types::Contract;
use schemars_validator::Draft;
use serde_json::Value;
use std::alloc::{AllocError, Global};

/// The document that a text is, or why it is none.
pub fn schema_in(
    alloc: Global,
    bytes: &[u8],
    draft: Draft,
) -> Result<Result<(Value, Draft), String>, AllocError> {
    match Value::from_slice(alloc, bytes) {
        Ok(document) => Ok(Ok((document, draft))),
        Err(error) if error.is_memory() => Err(AllocError),
        Err(error) => Ok(Err(format!(in alloc; "{error}")?)),
    }
}

/// The document of the root of the table that a text is, or why there is none.
pub fn document_of_table(
    alloc: Global,
    bytes: &[u8],
    contract: Contract,
) -> Result<Result<(Value, Draft), String>, AllocError> {
    let (types, root) = match read_table(alloc, bytes) {
        Ok(table) => table,
        Err(TextError::OutOfMemory) => return Err(AllocError),
        Err(TextError::NotJson) => return Ok(Err(String::from_str(alloc, "this is no JSON")?)),
        Err(TextError::BadTable) => {
            let fault = "this is no table; schemalint tells why";
            return Ok(Err(String::from_str(alloc, fault)?));
        }
    };
    match type_document(alloc, types, root, contract) {
        Ok(schema) => Ok(Ok((schema.to_value(), Draft::Draft2020_12))),
        Err(GenerateError::OutOfMemory) => Err(AllocError),
        Err(error) => Ok(Err(format!(in alloc; "there is no document: {error}")?)),
    }
}
